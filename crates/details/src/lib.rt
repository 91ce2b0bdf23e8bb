// The text of a failure's detail.
#![tactic(auto)]

ghost use Rattle.std.specs.Prelude.{◌≡◌, ◌≤◌, ◌<◌, length};
ghost use Rattle.rules.specs.Lists.{ascii};
ghost use Rattle.rules.specs.Utf8.{later_byte, encode};
ghost use Rattle.rules.specs.Failure.{detail_of};
ghost use Rattle.rules.specs.Report.{shown, detail_text};
ghost use Rattle.details.specs.Details.{number_of, Numbered, shows_of};

use print::Printer;

// The details of failures.
#[derive(Clone, Copy)]
pub enum Detail {
    UnexpectedCharacter,
    ExpectedAnd,
    UnterminatedString,
    BadIndent,
    Unterminated,
    Empty,
    EscapeAbove,
    ExpectedHexDigit,
    UnknownEscape,
    ControlCharacter,
    NonAscii,
    ExpectedQuote,
}

// A number that no detail has.
#[derive(Clone, Copy)]
pub struct UnknownDetail(pub u32);

impl TryFrom<u32> for Detail {
    type Error = UnknownDetail;

    ghost try_from_gives = { Numbered };

    fn try_from(number: u32) -> Result<Self, UnknownDetail> {
        match number {
            1 => Ok(Detail::UnexpectedCharacter),
            2 => Ok(Detail::ExpectedAnd),
            3 => Ok(Detail::UnterminatedString),
            4 => Ok(Detail::BadIndent),
            5 => Ok(Detail::Unterminated),
            6 => Ok(Detail::Empty),
            7 => Ok(Detail::EscapeAbove),
            8 => Ok(Detail::ExpectedHexDigit),
            9 => Ok(Detail::UnknownEscape),
            10 => Ok(Detail::ControlCharacter),
            11 => Ok(Detail::NonAscii),
            12 => Ok(Detail::ExpectedQuote),
            _ => Err(UnknownDetail(number)),
        }
    }
}

// What a detail shows of the scalar found: nothing, the scalar itself, or four hex digits.
#[derive(Clone, Copy)]
enum Shown {
    Nothing,
    Scalar,
    HexDigits,
}

impl Detail {
    // The text before what is shown.
    fn front(self) -> &'static [u8]
        ensures { result.now ≡ ascii (detail_of (number_of self)).front }
    {
        match self {
            Detail::UnexpectedCharacter => b"unexpected character '",
            Detail::ExpectedAnd => b"expected '&&'",
            Detail::UnterminatedString => b"unterminated string literal",
            Detail::BadIndent => b"Bad Indent",
            Detail::Unterminated => b"invalid byte literal: unterminated",
            Detail::Empty => b"invalid byte literal: empty",
            Detail::EscapeAbove => b"invalid byte literal: \\x escape above \\x7F is not ASCII",
            Detail::ExpectedHexDigit => b"invalid byte literal: expected hex digit, found '",
            Detail::UnknownEscape => b"invalid byte literal: unknown escape '\\",
            Detail::ControlCharacter => b"invalid byte literal: control character U+",
            Detail::NonAscii => b"invalid byte literal: non-ASCII character '",
            Detail::ExpectedQuote => b"invalid byte literal: expected closing quote, found '",
        }
    }

    // What the detail shows.
    #[tactic(auto, unfolding(rules::specs::Failure::details, rules::specs::Failure::detail_of))]
    fn shows(self) -> Shown
        ensures { shows_of result ≡ (detail_of (number_of self)).shows }
    {
        match self {
            Detail::UnexpectedCharacter
            | Detail::ExpectedHexDigit
            | Detail::UnknownEscape
            | Detail::NonAscii
            | Detail::ExpectedQuote => Shown::Scalar,
            Detail::ControlCharacter => Shown::HexDigits,
            _ => Shown::Nothing,
        }
    }

    // The text after what is shown.
    fn back(self) -> &'static [u8]
        ensures { result.now ≡ ascii (detail_of (number_of self)).back }
    {
        match self {
            Detail::UnexpectedCharacter
            | Detail::ExpectedHexDigit
            | Detail::UnknownEscape
            | Detail::NonAscii
            | Detail::ExpectedQuote => b"'",
            Detail::ControlCharacter => b" must be escaped",
            _ => b"",
        }
    }
}

// A later byte of a scalar: its last six bits.
#[tactic(auto, unfolding(rules::specs::Utf8::later_byte))]
fn later_byte(v: u32) -> u8
    ensures { result ≡ later_byte v }
{
    (128 + v % 64) as u8
}

// A scalar in UTF-8, by its value. It is no `char`, which has no surrogates: what is promised holds of each value.
fn put_scalar<P: Printer>(out: &mut P, v: u32)
    requires small { v < 1_114_112 }
    requires fits { P.fits out.old (length (encode v)) }
    ensures { P.prints out.old (encode v) out.new }
{
    if v < 128 {
        out.put_bytes(&[v as u8]);
    } else if v < 2_048 {
        out.put_bytes(&[(192 + v / 64) as u8, later_byte(v)]);
    } else if v < 65_536 {
        out.put_bytes(&[(224 + v / 64 / 64) as u8, later_byte(v / 64), later_byte(v)]);
    } else {
        let first = (240 + v / 64 / 64 / 64) as u8;
        out.put_bytes(&[
            first,
            later_byte(v / 64 / 64),
            later_byte(v / 64),
            later_byte(v),
        ]);
    }
}

// What is shown of the scalar found.
fn put_shown<P: Printer>(out: &mut P, shows: Shown, found: u32)
    requires small { found < 1_114_112 }
    requires fits { P.fits out.old (length (shown (shows_of shows) found)) }
    ensures { P.prints out.old (shown (shows_of shows) found) out.new }
{
    match shows {
        Shown::Nothing => {}
        Shown::Scalar => put_scalar(out, found),
        Shown::HexDigits => out.put_digits(16, 4, found),
    }
}

// The text of the detail with this number; a number above all details' has none.
pub fn put_detail<P: Printer>(out: &mut P, detail: u32, found: u32)
    requires numbered { 1 ≤ detail }
    requires small { found < 1_114_112 }
    requires fits { P.fits out.old (length (detail_text (detail_of detail) found)) }
    ensures { P.prints out.old (detail_text (detail_of detail) found) out.new }
{
    if let Ok(d) = Detail::try_from(detail) {
        out.put_bytes(d.front());
        put_shown(out, d.shows(), found);
        out.put_bytes(d.back());
    }
}
