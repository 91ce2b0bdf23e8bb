// A failure's message, printed field after field: its size, or the message in a buffer that is lent.
#![tactic(auto)]

ghost use Rattle.std.specs.Prelude.{◌≡◌, ◌==◌, ◌+◌, ◌≤◌, ◌<◌, length, position};
ghost use Rattle.std.proofs.lemmas.List.Edits.{sets};
ghost use Rattle.rules.specs.Lists.{concat};
ghost use Rattle.rules.specs.Reading.{content};
ghost use Rattle.rules.specs.Report.{decimal, aligned};
ghost use Rattle.message.specs.Messages.{heading_of, place_of, excerpt_of, caret_of, message_in, Printable};

use print::{Count, Lent, Printer};

// The first line: the code and the detail.
fn put_heading<P: Printer>(out: &mut P, code: u32, detail: u32, found: u32)
    requires detail { 1 ≤ detail }
    requires found { found < 1_114_112 }
    requires fits { P.fits out.old (length (concat (heading_of code detail found))) }
    ensures { P.prints out.old (concat (heading_of code detail found)) out.new }
{
    out.put_bytes(b"error[E");
    out.put_digits(10, 4, code);
    out.put_bytes(b"]: ");
    details::put_detail(out, detail, found);
}

// The second line: where the failure stands.
fn put_place<P: Printer>(out: &mut P, line: u32, column: u32)
    requires { P.fits out.old (length (concat (place_of line column))) }
    ensures { P.prints out.old (concat (place_of line column)) out.new }
{
    out.put_bytes(b"\n --> <input>:");
    print::put_decimal(out, line);
    out.put_bytes(b":");
    print::put_decimal(out, column);
}

// A number, at least two wide.
fn put_aligned<P: Printer>(out: &mut P, n: u32)
    requires { P.fits out.old (length (aligned (decimal n))) }
    ensures { P.prints out.old (aligned (decimal n)) out.new }
{
    out.put_fill(b' ', 2usize.saturating_sub(print::decimal_places(n)));
    print::put_decimal(out, n);
}

// Where the first LF stands.
fn first_lf(text: &[u8]) -> Option<usize>
    ensures { result ≡ position (λ b. b == 10) text.now }
{
    text.iter().position(|b| *b == b'\n')
}

// The first line, without its LF.
fn content_of(text: &[u8]) -> &[u8]
    ensures { result.now ≡ content text.now }
{
    let end = first_lf(text).unwrap_or(text.len());
    &text[..end]
}

// The third and the fourth line: the line where the failure stands, with its number.
fn put_excerpt<P: Printer>(out: &mut P, text: &[u8], line: u32, start: usize)
    requires start { start ≤ length text.now }
    requires fits { P.fits out.old (length (concat (excerpt_of text.now line start))) }
    ensures { P.prints out.old (concat (excerpt_of text.now line start)) out.new }
{
    out.put_bytes(b"\n  |\n");
    put_aligned(out, line);
    out.put_bytes(b" | ");
    out.put_bytes(content_of(&text[start..]));
}

// The last row: a caret, moved by the byte column.
fn put_caret<P: Printer>(out: &mut P, column: u32)
    requires column { 1 ≤ column }
    requires fits { P.fits out.old (length (concat (caret_of column))) }
    ensures { P.prints out.old (concat (caret_of column)) out.new }
{
    out.put_bytes(b"\n  | ");
    out.put_fill(b' ', column as usize - 1);
    out.put_bytes(b"^");
}

// The message of a failure in a text.
fn print_message<P: Printer>(out: &mut P, text: &[u8], f: refusals::FailureRecord)
    requires printable { Printable text.now f }
    requires fits { P.fits out.old (length (message_in text.now f)) }
    ensures { P.prints out.old (message_in text.now f) out.new }
{
    let start = f.position as usize + 1 - f.column as usize;
    put_heading(out, f.code, f.detail, f.found);
    put_place(out, f.line, f.column);
    put_excerpt(out, text, f.line, start);
    put_caret(out, f.column);
}

// How many bytes the message of a failure has.
pub fn message_size(text: &[u8], f: refusals::FailureRecord) -> usize
    requires { Printable text.now f }
    ensures { result ≡ length (message_in text.now f) }
{
    let mut count = Count { size: 0 };
    print_message(&mut count, text, f);
    count.size
}

// The message of a failure at the front of out; its length.
pub fn put_message(out: &mut [u8], text: &[u8], f: refusals::FailureRecord) -> usize
    requires printable { Printable text.now f }
    requires f_in_bounds { length (message_in text.now f) ≤ length out.old }
    ensures value { result ≡ length (message_in text.now f) }
    ensures out_after { out.new ≡ sets out.old 0 (message_in text.now f) }
{
    let mut lent = Lent::new(out);
    print_message(&mut lent, text, f);
    lent.size()
}
