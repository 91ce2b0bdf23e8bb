// The cutters of strings and byte literals, and the failures of a line.
#![tactic(auto)]

pub mod detail;

ghost use Rattle.std.specs.Prelude.{◌≡◌, ◌+◌, ◌≤◌, ◌<◌, length, drop};
ghost use Rattle.rules.specs.Kinds.{byte_lit, str};
ghost use Rattle.rules.specs.Lists.{elem, trim_end};
ghost use Rattle.rules.specs.Tables.{is_cr, is_hex_digit};
ghost use Rattle.rules.specs.Cut.{
  fails,
  failing,
  finding,
  string_cut,
  line_ends,
  closing_cut,
  low_digit_cut,
  high_digit_cut,
  escape_cut,
  content_cut,
  byte_cut,
};
ghost use Rattle.literals.specs.Cuts.{failure_of, token_of};

// A failure of the rest of a line: its detail, the scalar that the detail shows, its offset and its range's length. The detail is its number, as in
// the record that C reads; the rules have a record for every number, so an enum here would have no value for some of them.
#[derive(Clone, Copy, PartialEq, Eq, Debug)]
pub struct Failure {
    pub detail: u32,
    pub found: u32,
    pub at: usize,
    pub size: usize,
}

// The size of a string, to the next quote; otherwise a failure up to the line's end less its trailing CRs.
pub fn string_cut(line: &[u8], at: usize) -> Result<usize, Failure>
    requires { at < length line.now }
    ensures { token_of str result ≡ string_cut (drop at line.now) }
{
    let end = search::find_byte(line, at + 1, b'"');
    if end < line.len() {
        return Ok(end + 1 - at);
    }
    let trimmed = search::trimmed_end(line);
    let size = if at < trimmed { trimmed - at } else { 0 };
    Err(Failure {
        detail: detail::UNTERMINATED_STRING,
        found: 0,
        at: 0,
        size,
    })
}

// Byte literals. Each step stands at offset `k` of the literal that begins at `at`, and gives the literal's size or its failure.

// A hex digit.
#[tactic(auto, using(std::proofs::lemmas::Bool::Decides::nat_tests), unfolding(rules::specs::Tables::is_hex_digit, rules::specs::Tables::is_digit))]
fn is_hex_digit(b: u8) -> bool
    ensures { result ≡ is_hex_digit b }
{
    b.is_ascii_hexdigit()
}

// A failure over the scalar at offset k, which the detail shows.
pub fn finding_at(line: &[u8], at: usize, k: usize, detail: u32) -> Failure
    requires { at + k ≤ length line.now }
    ensures { fails (failure_of result) ≡ finding detail k (drop (at + k) line.now) }
{
    Failure {
        detail,
        found: utf8::scalar_value(line, at + k),
        at: k,
        size: utf8::scalar_size(line, at + k),
    }
}

// A failure over the scalar at offset k, which the detail does not show.
fn failing_at(line: &[u8], at: usize, k: usize, detail: u32) -> Failure
    requires { at + k ≤ length line.now }
    ensures { fails (failure_of result) ≡ failing detail k (drop (at + k) line.now) }
{
    Failure {
        detail,
        found: 0,
        at: k,
        size: utf8::scalar_size(line, at + k),
    }
}

// The line ends before the literal does.
fn line_ends(k: usize) -> Failure
    ensures { fails (failure_of result) ≡ line_ends k }
{
    Failure {
        detail: detail::UNTERMINATED,
        found: 0,
        at: 0,
        size: k,
    }
}

// The closing quote.
fn closing_cut(line: &[u8], at: usize, k: usize) -> Result<usize, Failure>
    requires { at + k ≤ length line.now }
    ensures { token_of byte_lit result ≡ closing_cut k (drop (at + k) line.now) }
{
    if line.len() == at + k {
        return Err(line_ends(k));
    }
    if line[at + k] == b'\'' {
        return Ok(k + 1);
    }
    Err(finding_at(line, at, k, detail::EXPECTED_QUOTE))
}

// The second digit of `\x`.
fn low_digit_cut(line: &[u8], at: usize) -> Result<usize, Failure>
    requires { at + 5 ≤ length line.now }
    ensures { token_of byte_lit result ≡ low_digit_cut (drop (at + 5) line.now) }
{
    if line.len() == at + 5 {
        return Err(line_ends(5));
    }
    if is_hex_digit(line[at + 5]) {
        return closing_cut(line, at, 6);
    }
    Err(finding_at(line, at, 5, detail::EXPECTED_HEX_DIGIT))
}

// The first digit of `\x`, 0 to 7.
fn high_digit_cut(line: &[u8], at: usize) -> Result<usize, Failure>
    requires { at + 4 ≤ length line.now }
    ensures { token_of byte_lit result ≡ high_digit_cut (drop (at + 4) line.now) }
{
    if line.len() == at + 4 {
        return Err(line_ends(4));
    }
    match line[at + 4] {
        b'0'..=b'7' => low_digit_cut(line, at),
        b if is_hex_digit(b) => Err(failing_at(line, at, 4, detail::ESCAPE_ABOVE)),
        _ => Err(finding_at(line, at, 4, detail::EXPECTED_HEX_DIGIT)),
    }
}

// What follows the backslash.
fn escape_cut(line: &[u8], at: usize) -> Result<usize, Failure>
    requires { at + 3 ≤ length line.now }
    ensures { token_of byte_lit result ≡ escape_cut (drop (at + 3) line.now) }
{
    if line.len() == at + 3 {
        return Err(line_ends(3));
    }
    let b = line[at + 3];
    if b"0tnr'\\\"".contains(&b) {
        return closing_cut(line, at, 4);
    }
    if b == b'x' {
        return high_digit_cut(line, at);
    }
    Err(finding_at(line, at, 3, detail::UNKNOWN_ESCAPE))
}

// What stands between the quotes.
fn content_cut(line: &[u8], at: usize) -> Result<usize, Failure>
    requires { at + 2 ≤ length line.now }
    ensures { token_of byte_lit result ≡ content_cut (drop (at + 2) line.now) }
{
    if line.len() == at + 2 {
        return Err(line_ends(2));
    }
    match line[at + 2] {
        b'\'' => Err(failing_at(line, at, 2, detail::EMPTY)),
        b'\\' => escape_cut(line, at),
        0x20..=0x7E => closing_cut(line, at, 3),
        0x00..=0x7F => Err(finding_at(line, at, 2, detail::CONTROL_CHARACTER)),
        _ => Err(finding_at(line, at, 2, detail::NON_ASCII)),
    }
}

// The size of the byte literal that begins with `b'` at `at`. One that reads holds no CR, so it is cut from the whole line first; where that
// fails, the line ends at its trailing CRs. A failure ends the reading, so these are looked for once.
pub fn scan_ascii_byte_literal(line: &[u8], at: usize) -> Result<usize, Failure>
    requires { at + 2 ≤ length (trim_end is_cr line.now) }
    ensures { token_of byte_lit result ≡ byte_cut (drop at line.now) }
{
    match content_cut(line, at) {
        Ok(size) => Ok(size),
        Err(_) => content_cut(&line[..search::trimmed_end(line)], at),
    }
}
