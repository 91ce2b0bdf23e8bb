// Signs by their first two bytes, by the lent tables.
#![tactic(auto)]

ghost use Rattle.std.specs.Prelude.{◌≡◌, ◌≤◌, ◌<◌, length, drop};
ghost use Rattle.rules.specs.Lists.{ascii, begins};
ghost use Rattle.tables.specs.Signs.{sign_code};
ghost use Rattle.signs.specs.Codes.{column_of, longer_by};

use tables::Tables;

// The column of the byte at `at`; that of another byte at the line's end.
fn column_at(tables: &Tables, line: &[u8], at: usize) -> usize
    ensures { result ≡ column_of (drop at line.now) }
{
    if line.len() <= at {
        return 7;
    }
    tables.sign_column(line[at])
}

// The code of a sign of two bytes, of which the second stands at `at`: before a `=` three of them are longer.
fn longer_sign(line: &[u8], at: usize, code: u32) -> u32
    requires { at ≤ length line.now }
    ensures { result ≡ longer_by (begins (ascii "=") (drop 1 (drop at line.now))) code }
{
    if line.len() - at < 2 || line[at + 1] != b'=' {
        return code;
    }
    match code {
        201 => 330,
        177 => 309,
        178 => 310,
        _ => code,
    }
}

// The code of the sign at `at`: its kind, and 128 more for each byte beyond the first; 1 for a comment, 0 for a lone `&`. A byte that no
// longer sign begins with is looked up by itself; the others by row and column. The code stays a number: in a struct, kind and length cost the
// loop over a line 3 to 7 % when that was tried.
pub fn sign_code(tables: &Tables, line: &[u8], at: usize) -> u32
    requires { at < length line.now }
    ensures { result ≡ sign_code (drop at line.now) }
{
    let row = tables.sign_row(line[at]);
    if row < 128 {
        return row as u32;
    }
    let code = tables.pair_code(row - 128 + column_at(tables, line, at + 1));
    if code < 128 {
        return code;
    }
    longer_sign(line, at + 1, code)
}
