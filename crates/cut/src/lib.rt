// The cutters of a line: each starts in the middle of the line that is lent to it.
#![tactic(auto)]

ghost use Rattle.std.specs.Prelude.{◌≡◌, ◌+◌, ◌-◌, ◌≤◌, ◌<◌, length, drop, take, Ok};
ghost use Rattle.rules.specs.Lists.{ascii, begins};
ghost use Rattle.rules.specs.Tables.{keywords, word_kind};
ghost use Rattle.rules.specs.Cut.{word_cut, letter_cut, cut};
ghost use Rattle.literals.specs.Cuts.{token_of};
ghost use Rattle.cut.specs.Cuts.{cut_of, kind_asked, cut_named, comment_or, Scanned};

use literals::{Failure, detail};
use numbers::Number;
use tables::{Class, Run, Tables, kinds};

// What is cut at the front of the rest of a line where it doesn't fail: a blank byte, a comment, a token of this kind and length, or a number
// with its scan.
#[derive(Clone, Copy, PartialEq, Eq, Debug)]
pub enum Cut {
    Blank,
    Comment,
    Token(u32, usize),
    Number(Number),
}

// The kind of the word from `at` to `end`, where it is asked for; otherwise every word is an Ident.
pub fn kind_of_word(tables: &Tables, line: &[u8], at: usize, end: usize, named: bool) -> u32
    requires { (at ≤ end) × (end ≤ length line.now) }
    ensures { result ≡ kind_asked named (word_kind keywords (take (end - at) (drop at line.now))) }
{
    if named {
        return keywords::word_kind(tables, &line[at..end]);
    }
    kinds::IDENT
}

// A word: letters, digits, `_`.
fn word_cut(tables: &Tables, line: &[u8], at: usize, named: bool) -> Cut
    requires { at ≤ length line.now }
    ensures { cut_of (Ok result) ≡ cut_named named (word_cut (drop at line.now)) }
{
    let end = runs::run_end(tables, line, at, Run::Word);
    Cut::Token(kind_of_word(tables, line, at, end, named), end - at)
}

// `b'` stands at `at`; only a `b` is looked behind.
#[tactic(auto, using(crate::proofs::Fronts::no_literal))]
pub fn begins_literal(line: &[u8], at: usize) -> bool
    requires { at < length line.now }
    ensures { result ≡ begins (ascii "b'") (drop at line.now) }
{
    line[at] == b'b' && search::begins_at(line, at, b"b'")
}

// A token of this kind, by its size.
fn token(kind: u32, size: Result<usize, Failure>) -> Result<Cut, Failure>
    ensures { cut_of result ≡ token_of kind size }
{
    Ok(Cut::Token(kind, size?))
}

// What a letter begins: a byte literal or a word.
fn letter_cut(tables: &Tables, line: &[u8], at: usize, named: bool) -> Result<Cut, Failure>
    requires { at < length line.now }
    ensures { cut_of result ≡ cut_named named (letter_cut (drop at line.now)) }
{
    if begins_literal(line, at) {
        return token(kinds::BYTE_LIT, literals::scan_ascii_byte_literal(line, at));
    }
    Ok(word_cut(tables, line, at, named))
}

// What a byte of the class of signs begins: a sign, a comment, or with neither a lone `&`.
fn sign_or_comment(tables: &Tables, line: &[u8], at: usize) -> Result<Cut, Failure>
    requires { at < length line.now }
    ensures { cut_of result ≡ comment_or (drop at line.now) }
{
    match signs::sign_code(tables, line, at) {
        0 => Err(Failure {
            detail: detail::EXPECTED_AND,
            found: 0,
            at: 0,
            size: 1,
        }),
        1 => Ok(Cut::Comment),
        code => Ok(Cut::Token(code % 128, (code / 128) as usize + 1)),
    }
}

// The cut at `at`, by the class of the byte there.
pub fn cut_by_class(tables: &Tables, line: &[u8], at: usize, named: bool) -> Result<Cut, Failure>
    requires { at < length line.now }
    ensures result_value { cut_of result ≡ cut_named named (cut (drop at line.now)) }
    ensures scanned { Scanned result (drop at line.now) }
{
    match tables.class_of(line[at]) {
        Class::Blank => Ok(Cut::Blank),
        Class::Hash => Ok(Cut::Comment),
        Class::Letter => letter_cut(tables, line, at, named),
        Class::Digit => Ok(Cut::Number(numbers::scan_number(tables, line, at))),
        Class::Quote => token(kinds::STRING, literals::string_cut(line, at)),
        Class::Sign => sign_or_comment(tables, line, at),
        Class::Other => Err(literals::finding_at(line, at, 0, detail::UNEXPECTED_CHARACTER)),
    }
}
