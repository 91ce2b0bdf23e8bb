// Runs of bytes, by the lent tables.
#![tactic(auto)]

ghost use Rattle.std.specs.Prelude.{◌≡◌, ◌+◌, ◌≤◌, length, drop};
ghost use Rattle.rules.specs.Lists.{run};
ghost use Rattle.tables.specs.Bytes.{reaches, misses};
ghost use Rattle.tables.specs.Named.{run_number};
ghost use Rattle.runs.specs.Masks.{mask_of};

use tables::{Run, Tables};

// Which of the four bytes from `at` on end the run: bit j is set for byte j.
fn miss_mask(tables: &Tables, line: &[u8], at: usize, which: Run) -> u32
    requires { at + 4 ≤ length line.now }
    ensures { result ≡ mask_of (misses (run_number which)) 4 (drop at line.now) }
{
    let a = tables.ends_run(which, line[at]);
    let b = tables.ends_run(which, line[at + 1]);
    let c = tables.ends_run(which, line[at + 2]);
    let d = tables.ends_run(which, line[at + 3]);
    a + 2 * b + 4 * c + 8 * d
}

// Where the run from `at` on ends, byte by byte: at a byte that ends it or at the line's end.
fn run_by_bytes(tables: &Tables, line: &[u8], at: usize, which: Run) -> usize
    requires { at ≤ length line.now }
    ensures { result ≡ at + run (reaches (run_number which)) (drop at line.now) }
{
    for i in at..line.len() {
        if tables.ends_run(which, line[i]) != 0 {
            return i;
        }
    }
    line.len()
}

// The same, four bytes a turn: a run's length is hard to foretell, and a mask finds its end without a branch at each byte.
// The place is counted by hand, since the bytes behind the last whole block begin there.
pub fn run_end(tables: &Tables, line: &[u8], at: usize, which: Run) -> usize
    requires { at ≤ length line.now }
    ensures { result ≡ at + run (reaches (run_number which)) (drop at line.now) }
{
    let mut i = at;
    while 4 <= line.len() - i {
        let mask = miss_mask(tables, line, i, which);
        if mask != 0 {
            return i + u32::trailing_zeros(mask) as usize;
        }
        i += 4;
    }
    run_by_bytes(tables, line, i, which)
}
