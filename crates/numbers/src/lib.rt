// Numbers: the base, digits with a fraction, and a suffix, at a place in the middle of a line.
#![tactic(auto)]

ghost use Rattle.std.specs.Prelude.{◌≡◌, ◌+◌, ◌≤◌, length, drop, if◌then◌else◌};
ghost use Rattle.rules.specs.Tables.{is_digit};
ghost use Rattle.rules.specs.Cut.{fraction_size, is_hex, digits_size, suffix_bytes, suffixes, suffix_of, scan_number};
ghost use Rattle.numbers.specs.Numbers.{rule_suffix, number_of};

use tables::{Run, Tables};

// The suffix of a number, by its number in a reply, where 0 is none.
#[derive(Clone, Copy, PartialEq, Eq, Debug)]
pub enum Suffix {
    Fx = 1,
    I32 = 2,
    U32 = 3,
    F64 = 4,
}

// A number's scan, in offsets from its start: the base, where digits, `_` and fraction end, the suffix that follows there, and the end. The
// base is a number, 10 or 16, as that of the library's `from_str_radix`.
#[derive(Clone, Copy, PartialEq, Eq, Debug)]
pub struct Number {
    pub base: u32,
    pub digits: usize,
    pub suffix: Option<Suffix>,
    pub end: usize,
}

// A digit.
#[tactic(auto, using(std::proofs::lemmas::Bool::Decides::nat_tests), unfolding(rules::specs::Tables::is_digit))]
pub fn is_digit(b: u8) -> bool
    ensures { result ≡ is_digit b }
{
    b.is_ascii_digit()
}

// Where a fraction at `at` ends: a point and a digit, with all digits and `_` that follow; `at` where there is none.
fn fraction_end(tables: &Tables, line: &[u8], at: usize) -> usize
    requires { at ≤ length line.now }
    ensures { result ≡ at + fraction_size (drop at line.now) }
{
    if line.len() - at < 2 || line[at] != b'.' || !is_digit(line[at + 1]) {
        return at;
    }
    runs::run_end(tables, line, at + 1, Run::Decimal)
}

// `0x` or `0X` stands at `at`.
#[tactic(auto, unfolding(rules::specs::Cut::is_hex))]
fn is_hex(line: &[u8], at: usize) -> bool
    requires { at ≤ length line.now }
    ensures { result ≡ is_hex (drop at line.now) }
{
    search::begins_at(line, at, b"0x") || search::begins_at(line, at, b"0X")
}

// The base of a number that begins with `0x` or `0X`, or does not.
fn base_of(hex: bool) -> u32
    ensures { result ≡ (if hex then 16 else 10) }
{
    if hex {
        return 16;
    }
    10
}

// Where a number's digits and fraction end, by whether it begins with `0x` or `0X`.
fn digits_end(tables: &Tables, line: &[u8], at: usize, hex: bool) -> usize
    requires { (at ≤ length line.now) × (hex ≡ is_hex (drop at line.now)) }
    ensures { result ≡ at + digits_size (drop at line.now) }
{
    if hex {
        return runs::run_end(tables, line, at + 2, Run::Hex);
    }
    let end = runs::run_end(tables, line, at, Run::Decimal);
    fraction_end(tables, line, end)
}

// The suffix at `at`.
fn suffix_at(line: &[u8], at: usize) -> Option<Suffix>
    requires { at ≤ length line.now }
    ensures { rule_suffix result ≡ suffix_of suffixes (drop at line.now) }
{
    if search::begins_at(line, at, b"fx") {
        return Some(Suffix::Fx);
    }
    if search::begins_at(line, at, b"i32") {
        return Some(Suffix::I32);
    }
    if search::begins_at(line, at, b"u32") {
        return Some(Suffix::U32);
    }
    if search::begins_at(line, at, b"f64") {
        return Some(Suffix::F64);
    }
    None
}

// The length of a suffix.
#[tactic(auto, unfolding(rules::specs::Cut::suffix_bytes))]
fn suffix_length(suffix: Option<Suffix>) -> usize
    ensures { result ≡ length (suffix_bytes (rule_suffix suffix)) }
{
    match suffix {
        None => 0,
        Some(Suffix::Fx) => 2,
        Some(Suffix::I32) => 3,
        Some(Suffix::U32) => 3,
        Some(Suffix::F64) => 3,
    }
}

// The number at `at`.
pub fn scan_number(tables: &Tables, line: &[u8], at: usize) -> Number
    requires { at ≤ length line.now }
    ensures { number_of result ≡ scan_number (drop at line.now) }
{
    let hex = is_hex(line, at);
    let digits = digits_end(tables, line, at, hex);
    let suffix = suffix_at(line, digits);
    Number {
        base: base_of(hex),
        digits: digits - at,
        suffix,
        end: digits - at + suffix_length(suffix),
    }
}
