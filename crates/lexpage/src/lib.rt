// The calls of the page: each hands the answer of an entry point to the reply, and returns how many words it has. `lexpage_c` has the same
// calls for C.
#![tactic(auto)]

ghost use Rattle.std.specs.Prelude.{◌≡◌, length};
ghost use Rattle.std.proofs.lemmas.List.Edits.{sets};
ghost use Rattle.rules.specs.Read.{read_into};
ghost use Rattle.rules.specs.Column.{column_reply};
ghost use Rattle.rules.specs.ByteValue.{value_reply};
ghost use Rattle.rules.specs.Numbers.{parts_reply};
ghost use Rattle.rules.specs.Report.{report_into};
ghost use Rattle.rules.specs.TokenText.{token_text_reply};
ghost use Rattle.rules.specs.Walk.{walk_reply};
ghost use Rattle.header.specs.Pages.{page};
ghost use Rattle.rules.specs.Records.{header};
ghost use Rattle.rules.specs.Page.{fresh_reply, fresh_lines};
ghost use Rattle.rules.specs.Check.{check_reply};
ghost use Rattle.plans.specs.Plans.{edit_of};
ghost use Rattle.editing.specs.Answers.{lent};
ghost use Rattle.lexpage.specs.Edits.{EditReplied};

use header::{Header, Page};
use plans::Edit;

// A reading of a text by itself.
pub fn lexpage_read(
    text: &[u8],
    lines: &mut [u32],
    tokens: &mut [u32],
    reply: &mut [u64; 16],
) -> u64
    ensures value { result ≡ length (read_into text.now lines.old tokens.old).reply }
    ensures reply_after { reply.new ≡ sets reply.old 0 (read_into text.now lines.old tokens.old).reply }
    ensures lines_after { lines.new ≡ (read_into text.now lines.old tokens.old).lines }
    ensures tokens_after { tokens.new ≡ (read_into text.now lines.old tokens.old).tokens }
{
    text_replies::put_read(reply, reading::read(text, lines, tokens))
}

// The panel column of an offset.
pub fn lexpage_panel_column(text: &[u8], offset: usize, reply: &mut [u64; 16]) -> u64
    ensures value { result ≡ length (column_reply text.now offset) }
    ensures reply_after { reply.new ≡ sets reply.old 0 (column_reply text.now offset) }
{
    text_replies::put_number(reply, columns::panel_column(text, offset))
}

// The value of a byte literal.
pub fn lexpage_byte_value(text: &[u8], reply: &mut [u64; 16]) -> u64
    ensures value { result ≡ length (value_reply text.now) }
    ensures reply_after { reply.new ≡ sets reply.old 0 (value_reply text.now) }
{
    text_replies::put_value(reply, byte_value::ascii_byte_literal_value(text))
}

// The number at the front of a text.
pub fn lexpage_number_parts(text: &[u8], reply: &mut [u64; 16]) -> u64
    ensures value { result ≡ length (parts_reply text.now) }
    ensures reply_after { reply.new ≡ sets reply.old 0 (parts_reply text.now) }
{
    number_replies::put_parts(reply, number_parts::number_parts(text))
}

// The message of a text's failure.
pub fn lexpage_report(text: &[u8], out: &mut [u8], reply: &mut [u64; 16]) -> u64
    ensures value { result ≡ length (report_into text.now out.old).reply }
    ensures reply_after { reply.new ≡ sets reply.old 0 (report_into text.now out.old).reply }
    ensures out_after { out.new ≡ (report_into text.now out.old).out }
{
    text_replies::put_number(reply, report::report(text, out))
}

// Where the text of token i of a page stands.
pub fn lexpage_token_text(
    n: u32,
    m: u32,
    k: u32,
    text: &[u8],
    lines: &[u32],
    tokens: &[u32],
    i: usize,
    names: &[u8],
    reply: &mut [u64; 16],
) -> u64
    ensures value { result ≡ length (token_text_reply (page n m k text.now lines.now tokens.now) i (length names.now)) }
    ensures reply_after { reply.new ≡ sets reply.old 0 (token_text_reply (page n m k text.now lines.now tokens.now) i (length names.now)) }
{
    let page = Page {
        head: Header { n, m, k },
        text,
        lines,
        tokens,
    };
    token_replies::put_part(reply, token_text::token_part(page, i, names))
}

// One step of a walk over the token words.
pub fn lexpage_walk_step(tokens: &[u32], next: usize, reply: &mut [u64; 16]) -> u64
    ensures value { result ≡ length (walk_reply tokens.now next) }
    ensures reply_after { reply.new ≡ sets reply.old 0 (walk_reply tokens.now next) }
{
    token_replies::put_step(reply, token_walk::walk_step(tokens, next))
}

// The fresh page.
pub fn lexpage_fresh(lines: &mut [u32], reply: &mut [u64; 16]) -> u64
    ensures value { result ≡ length (fresh_reply (length lines.old)) }
    ensures reply_after { reply.new ≡ sets reply.old 0 (fresh_reply (length lines.old)) }
    ensures lines_after { lines.new ≡ fresh_lines lines.old }
{
    page_replies::put_fresh(reply, fresh_page::fresh(lines))
}

// An edit of a page: bytes a..b become w.
pub fn lexpage_edit(
    n: u32,
    m: u32,
    k: u32,
    text: &mut [u8],
    spare: &mut [u8],
    lines: &mut [u32],
    tokens: &mut [u32],
    a: usize,
    b: usize,
    w: &[u8],
    reply: &mut [u64; 16],
) -> u64
    ensures { EditReplied (lent (header n m k) text.old spare.old lines.old tokens.old) (edit_of a b w.now) reply.old result reply.new text.new spare.new lines.new tokens.new }
{
    let head = Header { n, m, k };
    let edit = Edit { a, b, w };
    page_replies::put_edit(reply, page::edit(head, text, spare, lines, tokens, edit))
}

// Whether a page's header and records are those of a fresh reading.
pub fn lexpage_check(
    n: u32,
    m: u32,
    k: u32,
    text: &[u8],
    lines: &[u32],
    tokens: &[u32],
    reply: &mut [u64; 16],
) -> u64
    ensures value { result ≡ length (check_reply (page n m k text.now lines.now tokens.now)) }
    ensures reply_after { reply.new ≡ sets reply.old 0 (check_reply (page n m k text.now lines.now tokens.now)) }
{
    let page = Page {
        head: Header { n, m, k },
        text,
        lines,
        tokens,
    };
    page_replies::put_check(reply, checking::check(page))
}
