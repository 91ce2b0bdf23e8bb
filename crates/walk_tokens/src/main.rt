// Reads a text of at most 512 bytes from standard input and walks its tokens: a row for each, its five words, the number that its text
// is granted with, and the text. After them stand the numbers of texts that are refused, and of an empty one that is granted.
#![tactic(auto)]

ghost use Rattle.std.specs.Prelude.{◌*◌, ◌≤◌, length};
ghost use Rattle.rules.specs.Records.{token_size};

use header::{Header, Page};
use passes::Counts;
use replay::input::read_full;
use std::io;
use std::io::Write;
use token_walk::{TokenRecord, TokenWalk};

// The names of the kinds whose tokens have no text of their own.
const NAMES: &[u8] = b"<INDENT><DEDENT>\\n";

// The page of a text that reads, with the token records at the front of these words.
fn page_of<'t, 'r>(
    counts: Counts,
    text: &'t [u8],
    lines: &'r [u32],
    words: &'r [u32],
) -> Page<'t, 'r>
    requires { (counts.bytes ≤ 4_294_967_295) × ((counts.lines ≤ 4_294_967_295) × ((counts.tokens ≤ 4_294_967_295) × (token_size * counts.tokens ≤ length words.now))) }
{
    Page {
        head: Header {
            n: counts.bytes as u32,
            m: counts.lines as u32,
            k: counts.tokens as u32,
        },
        text,
        lines,
        tokens: &words[..records::TOKEN * counts.tokens],
    }
}

// The number that the text of token i is granted or refused with, the text, and LF.
fn print_text<W: Write>(output: &mut W, page: Page, i: usize, names: &[u8]) -> io::Result<()> {
    match token_text::token_text(page, i, names) {
        Ok(part) => {
            output.write_all(b"0 ")?;
            output.write_all(part)?;
        }
        Err(refusal) => {
            let mut reply: [u64; 16] = [0; 16];
            replies::put_refusal(&mut reply, refusal);
            write!(output, "{} ", reply[0])?;
        }
    }
    output.write_all(b"\n")
}

// The five words of a record, each with a space behind it.
fn print_record<W: Write>(output: &mut W, t: TokenRecord) -> io::Result<()> {
    write!(
        output,
        "{} {} {} {} {} ",
        t.kind, t.position, t.size, t.line, t.column
    )
}

// The rows of the tokens, to the end of the walk.
fn print_tokens<W: Write>(output: &mut W, page: Page) -> io::Result<()> {
    for (i, token) in TokenWalk::new(page.tokens).enumerate() {
        print_record(output, token)?;
        print_text(output, page, i, NAMES)?;
    }
    Ok(())
}

// Refused with 6, 5 and 7: a token past the last, short names, and a header that needs more words than there are.
fn print_refusals<W: Write>(output: &mut W, page: Page) -> io::Result<()> {
    let head = Header {
        k: u32::MAX,
        ..page.head
    };
    print_text(output, page, page.head.k as usize, NAMES)?;
    print_text(output, page, 0, b"<INDENT><DEDENT>")?;
    print_text(output, Page { head, ..page }, 0, NAMES)
}

// A token of no bytes is granted, and the one after it is refused.
fn print_empty<W: Write>(output: &mut W) -> io::Result<()> {
    let lines: [u32; records::LINE] = [0; records::LINE];
    let tokens: [u32; records::TOKEN] = [45, 0, 0, 1, 1];
    let page = Page {
        head: Header { n: 0, m: 0, k: 1 },
        text: b"",
        lines: &lines,
        tokens: &tokens,
    };
    print_text(output, page, 0, NAMES)?;
    print_text(output, page, 1, NAMES)
}

// What is printed for a text.
fn walk_text<W: Write>(output: &mut W, text: &[u8]) -> io::Result<()> {
    let mut lines: [u32; 10_773] = [0; 10_773];
    let mut words: [u32; 5_120] = [0; 5_120];
    match reading::read(text, &mut lines, &mut words) {
        Ok(counts) => {
            let page = page_of(counts, text, &lines, &words);
            print_tokens(output, page)?;
            print_refusals(output, page)?;
            print_empty(output)
        }
        Err(_) => output.write_all(b"does not read\n"),
    }
}

fn main(rt: HostRuntime) -> io::Result<()> {
    let mut text: [u8; 512] = [0; 512];
    let n = read_full(&mut rt.reader(), &mut text)?;
    walk_text(&mut io::writer(&rt), &text[..n])
}
