// The text of a token, a part of the page's text or of the names, chosen by its kind.
#![tactic(auto)]

ghost use Rattle.std.specs.Prelude.{◌≡◌, ◌||◌, not, ◌+◌, ◌≤◌, ◌<◌, ◌^◌, ltb, length, IfOk};
ghost use Rattle.rules.specs.Kinds.{is_kind};
ghost use Rattle.rules.specs.Replies.{first_of};
ghost use Rattle.rules.specs.TokenText.{names_size, part_by, part_tests, part_of, part_words, part_bytes, token_text_reply, token_text_number, token_text};
ghost use Rattle.refusals.specs.Replies.{reply_of};
ghost use Rattle.header.specs.Pages.{lent_page};
ghost use Rattle.token_text.specs.Answers.{part_values, refused_by, number_by, IsGranted};
ghost use Rattle.token_text.specs.Places.{part_place};

use header::Page;
use refusals::{Buffer, Refusal};
use tables::kinds;

// Where the names of INDENT, DEDENT and NEWLINE begin, and where the last one ends.
const INDENT_NAME: usize = 0;

const DEDENT_NAME: usize = 8;

const NEWLINE_NAME: usize = 16;

const NAMES_END: usize = 18;

// Where the text of a token stands: start and size of a part of the text or of the names.
#[derive(Clone, Copy)]
pub enum Part {
    Text(usize, usize),
    Names(usize, usize),
}

// A token that no test refuses: its kind, position and size.
#[derive(Clone, Copy)]
struct Granted {
    kind: u32,
    position: usize,
    size: usize,
}

// A kind above the last one, or a token that reaches past n.
fn is_unfit(n: usize, kind: u32, position: usize, size: usize) -> bool
    requires { position + size < 2 ^ 64 }
    ensures { result ≡ (not (is_kind kind) || ltb n (position + size)) }
{
    if kinds::NEWLINE < kind {
        return true;
    }
    n < position + size
}

// The tests of a token, in order: the header, its number, its record, the names.
fn ask(page: Page, i: usize, names: usize) -> Result<Granted, Refusal>
    ensures refusal { refused_by result ≡ first_of (part_tests (lent_page page.entry) i names) }
    ensures granted { IfOk result (IsGranted (lent_page page.entry) i names) }
{
    if !page.fits() {
        return Err(Refusal::Unfit);
    }
    if page.head.k as usize <= i {
        return Err(Refusal::Outside);
    }
    let at = records::TOKEN * i;
    let kind = page.tokens[at];
    let position = page.tokens[at + 1] as usize;
    let size = page.tokens[at + 2] as usize;
    if is_unfit(page.head.n as usize, kind, position, size) {
        return Err(Refusal::Unfit);
    }
    if names < NAMES_END {
        return Err(Refusal::Short(Buffer::Names, NAMES_END));
    }
    Ok(Granted {
        kind,
        position,
        size,
    })
}

// Where the text of a token of this kind stands.
#[tactic(auto, unfolding(rules::specs::TokenText::part_by))]
fn part_by_kind(kind: u32, position: usize, size: usize) -> Part
    ensures { part_values result ≡ part_words (part_by kind position size) }
{
    match kind {
        kinds::INDENT => Part::Names(INDENT_NAME, DEDENT_NAME - INDENT_NAME),
        kinds::DEDENT => Part::Names(DEDENT_NAME, NEWLINE_NAME - DEDENT_NAME),
        kinds::NEWLINE => Part::Names(NEWLINE_NAME, NAMES_END - NEWLINE_NAME),
        _ => Part::Text(position, size),
    }
}

// The text of a token of this kind: a part of the names or of the text.
#[tactic(auto, unfolding(rules::specs::TokenText::part_by, rules::specs::TokenText::part_bytes))]
fn text_by_kind<'a>(
    kind: u32,
    position: usize,
    size: usize,
    text: &'a [u8],
    names: &'a [u8],
) -> &'a [u8]
    requires { (position + size ≤ length text.now) × (names_size ≤ length names.now) }
    ensures result_value { result.now ≡ part_bytes text.now names.now (part_by kind position size) }
    ensures ref_ptr_value { result.ref_ptr ≡ part_place text.entry.ref_ptr names.entry.ref_ptr (part_by kind position size) }
{
    match kind {
        kinds::INDENT => &names[INDENT_NAME..DEDENT_NAME],
        kinds::DEDENT => &names[DEDENT_NAME..NEWLINE_NAME],
        kinds::NEWLINE => &names[NEWLINE_NAME..NAMES_END],
        _ => {
            let end = position + size;
            &text[position..end]
        }
    }
}

// Where the text of token i of a page stands.
pub fn token_part(page: Page, i: usize, names: &[u8]) -> Result<Part, Refusal>
    ensures { reply_of part_values result ≡ token_text_reply (lent_page page.entry) i (length names.now) }
{
    let t = ask(page, i, names.len())?;
    Ok(part_by_kind(t.kind, t.position, t.size))
}

// The text of token i of a page: that part itself, and no copy.
pub fn token_text<'a>(page: Page<'a, '_>, i: usize, names: &'a [u8]) -> Result<&'a [u8], Refusal>
    ensures told { reply_of (λ s. part_words (part_of (lent_page page.entry) i)) result ≡ token_text_reply (lent_page page.entry) i (length names.now) }
    ensures number { number_by result ≡ token_text_number (lent_page page.entry) i (length names.now) }
    ensures text { IfOk result (λ s. s.now ≡ token_text (lent_page page.entry) i names.now) }
    ensures place { IfOk result (λ s. s.ref_ptr ≡ part_place page.entry.text.ref_ptr names.entry.ref_ptr (part_of (lent_page page.entry) i)) }
{
    let token = ask(page, i, names.len())?;
    Ok(text_by_kind(token.kind, token.position, token.size, page.text, names))
}

#[cfg(test)]
mod callers {
    use super::*;
    use header::Header;

    // The text of the one token of a page whose records stand here alone.
    fn only_text<'a>(
        text: &'a [u8],
        token: [u32; records::TOKEN],
        names: &'a [u8],
    ) -> Result<&'a [u8], Refusal> {
        let lines: [u32; records::LINE] = [0; records::LINE];
        let page = Page {
            head: Header { n: 3, m: 0, k: 1 },
            text,
            lines: &lines,
            tokens: &token,
        };
        token_text(page, 0, names)
    }

    // A text that is handed back outlives the records.
    #[test]
    fn text_outlives_the_records(rt: HostRuntime) {
        let text = b"let".as_slice();
        let names = b"<INDENT><DEDENT>\\n".as_slice();
        let none = b"".as_slice();
        let word = only_text(text, [45, 1, 2, 1, 2], names);
        assert_eq!(rt; word.unwrap_or(none), b"et".as_slice());
        let indent = only_text(text, [kinds::INDENT, 0, 0, 1, 1], names);
        assert_eq!(rt; indent.unwrap_or(none), b"<INDENT>".as_slice());
    }
}
