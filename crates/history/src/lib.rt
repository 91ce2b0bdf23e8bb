// A list of edits applied to the fresh page.
#![tactic(auto)]

ghost use Rattle.std.specs.Prelude.{◌≡◌, ◌≤◌, ◌<◌, length};
ghost use Rattle.rules.specs.Records.{line_size, header};
ghost use Rattle.rules.specs.Page.{header_after, fresh_reply};
ghost use Rattle.rules.specs.Edit.{EditPost};
ghost use Rattle.header.specs.Pages.{header_of};
ghost use Rattle.editing.specs.Answers.{edit_numbers, lent, lent_after};
ghost use Rattle.history.specs.Lists.{listed_edit, edits_of, SmallAnswer, Happened};

use editing::Edited;
use header::Header;
use plans::Edit;
use refusals::Refusal;

// A header, and the answer of the last edit.
#[derive(Clone, Copy)]
pub struct Outcome {
    pub head: Header,
    pub last: Result<Edited, Refusal>,
}

// An edit of a list: the range that it replaces, and the part of the lent bytes that it puts in.
#[derive(Clone, Copy)]
pub struct Listed {
    pub a: usize,
    pub b: usize,
    pub start: usize,
    pub end: usize,
}

// An edit of a list of edits; its part is cut where the lent bytes end.
fn edit_listed(
    head: Header,
    text: &mut [u8],
    spare: &mut [u8],
    lines: &mut [u32],
    tokens: &mut [u32],
    e: Listed,
    bytes: &[u8],
) -> Result<Edited, Refusal>
    ensures { EditPost (lent (header_of head) text.old spare.old lines.old tokens.old) (listed_edit bytes.now e) (edit_numbers result) (lent_after (header_of head) (edit_numbers result) text.new spare.new lines.new tokens.new) }
{
    let end = e.end.min(bytes.len());
    let start = e.start.min(end);
    let edit = Edit {
        a: e.a,
        b: e.b,
        w: &bytes[start..end],
    };
    page::edit(head, text, spare, lines, tokens, edit)
}

// The header after an answer.
fn header_after(head: Header, last: Result<Edited, Refusal>) -> Header
    requires { SmallAnswer last }
    ensures { header_of result ≡ header_after (header_of head) (edit_numbers last) }
{
    match last {
        Ok(done) => Header {
            n: done.bytes as u32,
            m: done.lines as u32,
            k: done.tokens as u32,
        },
        Err(_) => head,
    }
}

// The fresh page, then every edit of the list in turn, each on what the last one left; a refused one leaves the page.
pub fn apply_edits(
    text: &mut [u8],
    spare: &mut [u8],
    lines: &mut [u32],
    tokens: &mut [u32],
    edits: &[Listed],
    bytes: &[u8],
) -> Outcome
    ensures happened { line_size ≤ length lines.old → Happened (lent (header 0 0 0) text.old spare.old lines.old tokens.old) (edits_of edits.now bytes.now) (edit_numbers result.last) (lent (header_of result.head) text.new spare.new lines.new tokens.new) }
    ensures last_value { length lines.old < line_size → (edit_numbers result.last ≡ fresh_reply (length lines.old)) × (lent (header_of result.head) text.new spare.new lines.new tokens.new ≡ lent (header 0 0 0) text.old spare.old lines.old tokens.old) }
{
    let mut head = Header { n: 0, m: 0, k: 0 };
    if let Err(refusal) = fresh_page::fresh(lines) {
        return Outcome {
            head,
            last: Err(refusal),
        };
    }
    let mut last = Ok(Edited {
        bytes: 0,
        lines: 0,
        tokens: 0,
        reread: 0,
    });
    for e in edits {
        last = edit_listed(head, text, spare, lines, tokens, *e, bytes);
        head = header_after(head, last);
    }
    Outcome { head, last }
}
