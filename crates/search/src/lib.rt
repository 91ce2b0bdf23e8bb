// Bytes sought in a line, from a place in its middle on.
#![tactic(auto)]

ghost use Rattle.std.specs.Prelude.{◌≡◌, ◌==◌, ◌+◌, ◌≤◌, length, drop};
ghost use Rattle.std.specs.List.{suffix_len};
ghost use Rattle.rules.specs.Lists.{begins, run, trim_end};
ghost use Rattle.rules.specs.Tables.{is_cr};
ghost use Rattle.search.specs.Bytes.{is_other};

// The line begins at `at` with these bytes. The library's `starts_with` was tried, and took 1.6 times as long for the fronts of numbers.
pub fn begins_at(line: &[u8], at: usize, front: &[u8]) -> bool
    requires { at ≤ length line.now }
    ensures { result ≡ begins front.now (drop at line.now) }
{
    if line.len() - at < front.len() {
        return false;
    }
    for j in 0..front.len() {
        if line[at + j] != front[j] {
            return false;
        }
    }
    true
}

// The trailing CRs.
fn trailing_crs(line: &[u8]) -> usize
    ensures { result ≡ suffix_len (λ b. b == 13) line.now }
{
    line.iter().rev().take_while(|b| **b == b'\r').count()
}

// The end of the line less its trailing CRs.
pub fn trimmed_end(line: &[u8]) -> usize
    ensures { result ≡ length (trim_end is_cr line.now) }
{
    line.len() - trailing_crs(line)
}

// The first such byte of the line from `at` on, or the line's end.
pub fn find_byte(line: &[u8], at: usize, byte: u8) -> usize
    requires { at ≤ length line.now }
    ensures { result ≡ at + run (is_other byte) (drop at line.now) }
{
    match memchr::memchr(byte, &line[at..]) {
        Some(i) => at + i,
        None => line.len(),
    }
}
