// The functions of include/lexpage.h: each is the call of `lexpage` of the same name, with the same contract. A slice comes as a pointer and a
// length in elements, the reply as one pointer. They stand apart, since the archive for C is a crate of its own that no program can stand on.
#![tactic(auto)]

ghost use Rattle.std.specs.Prelude.{◌≡◌, length};
ghost use Rattle.std.proofs.lemmas.List.Edits.{sets};
ghost use Rattle.rules.specs.Read.{read_into};
ghost use Rattle.rules.specs.Column.{column_reply};
ghost use Rattle.rules.specs.ByteValue.{value_reply};
ghost use Rattle.rules.specs.Numbers.{parts_reply};
ghost use Rattle.rules.specs.Report.{report_into};
ghost use Rattle.rules.specs.TokenText.{token_text_reply};
ghost use Rattle.rules.specs.Walk.{walk_reply};
ghost use Rattle.header.specs.Pages.{page};
ghost use Rattle.rules.specs.Records.{header};
ghost use Rattle.rules.specs.Page.{fresh_reply, fresh_lines};
ghost use Rattle.rules.specs.Check.{check_reply};
ghost use Rattle.plans.specs.Plans.{edit_of};
ghost use Rattle.editing.specs.Answers.{lent};
ghost use Rattle.lexpage.specs.Edits.{EditReplied};

// A reading of a text by itself.
#[unsafe(no_mangle)]
pub extern "C" fn lexpage_read(
    text: &[u8],
    lines: &mut [u32],
    tokens: &mut [u32],
    reply: &mut [u64; 16],
) -> u64
    ensures value { result ≡ length (read_into text.now lines.old tokens.old).reply }
    ensures reply_after { reply.new ≡ sets reply.old 0 (read_into text.now lines.old tokens.old).reply }
    ensures lines_after { lines.new ≡ (read_into text.now lines.old tokens.old).lines }
    ensures tokens_after { tokens.new ≡ (read_into text.now lines.old tokens.old).tokens }
{
    lexpage::lexpage_read(text, lines, tokens, reply)
}

// The panel column of an offset.
#[unsafe(no_mangle)]
pub extern "C" fn lexpage_panel_column(text: &[u8], offset: usize, reply: &mut [u64; 16]) -> u64
    ensures value { result ≡ length (column_reply text.now offset) }
    ensures reply_after { reply.new ≡ sets reply.old 0 (column_reply text.now offset) }
{
    lexpage::lexpage_panel_column(text, offset, reply)
}

// The value of a byte literal.
#[unsafe(no_mangle)]
pub extern "C" fn lexpage_byte_value(text: &[u8], reply: &mut [u64; 16]) -> u64
    ensures value { result ≡ length (value_reply text.now) }
    ensures reply_after { reply.new ≡ sets reply.old 0 (value_reply text.now) }
{
    lexpage::lexpage_byte_value(text, reply)
}

// The number at the front of a text.
#[unsafe(no_mangle)]
pub extern "C" fn lexpage_number_parts(text: &[u8], reply: &mut [u64; 16]) -> u64
    ensures value { result ≡ length (parts_reply text.now) }
    ensures reply_after { reply.new ≡ sets reply.old 0 (parts_reply text.now) }
{
    lexpage::lexpage_number_parts(text, reply)
}

// The message of a text's failure.
#[unsafe(no_mangle)]
pub extern "C" fn lexpage_report(text: &[u8], out: &mut [u8], reply: &mut [u64; 16]) -> u64
    ensures value { result ≡ length (report_into text.now out.old).reply }
    ensures reply_after { reply.new ≡ sets reply.old 0 (report_into text.now out.old).reply }
    ensures out_after { out.new ≡ (report_into text.now out.old).out }
{
    lexpage::lexpage_report(text, out, reply)
}

// Where the text of token i of a page stands.
#[unsafe(no_mangle)]
pub extern "C" fn lexpage_token_text(
    n: u32,
    m: u32,
    k: u32,
    text: &[u8],
    lines: &[u32],
    tokens: &[u32],
    i: usize,
    names: &[u8],
    reply: &mut [u64; 16],
) -> u64
    ensures value { result ≡ length (token_text_reply (page n m k text.now lines.now tokens.now) i (length names.now)) }
    ensures reply_after { reply.new ≡ sets reply.old 0 (token_text_reply (page n m k text.now lines.now tokens.now) i (length names.now)) }
{
    lexpage::lexpage_token_text(n, m, k, text, lines, tokens, i, names, reply)
}

// One step of a walk over the token words.
#[unsafe(no_mangle)]
pub extern "C" fn lexpage_walk_step(tokens: &[u32], next: usize, reply: &mut [u64; 16]) -> u64
    ensures value { result ≡ length (walk_reply tokens.now next) }
    ensures reply_after { reply.new ≡ sets reply.old 0 (walk_reply tokens.now next) }
{
    lexpage::lexpage_walk_step(tokens, next, reply)
}

// The fresh page.
#[unsafe(no_mangle)]
pub extern "C" fn lexpage_fresh(lines: &mut [u32], reply: &mut [u64; 16]) -> u64
    ensures value { result ≡ length (fresh_reply (length lines.old)) }
    ensures reply_after { reply.new ≡ sets reply.old 0 (fresh_reply (length lines.old)) }
    ensures lines_after { lines.new ≡ fresh_lines lines.old }
{
    lexpage::lexpage_fresh(lines, reply)
}

// An edit of a page: bytes a..b become w.
#[unsafe(no_mangle)]
pub extern "C" fn lexpage_edit(
    n: u32,
    m: u32,
    k: u32,
    text: &mut [u8],
    spare: &mut [u8],
    lines: &mut [u32],
    tokens: &mut [u32],
    a: usize,
    b: usize,
    w: &[u8],
    reply: &mut [u64; 16],
) -> u64
    ensures { EditReplied (lent (header n m k) text.old spare.old lines.old tokens.old) (edit_of a b w.now) reply.old result reply.new text.new spare.new lines.new tokens.new }
{
    lexpage::lexpage_edit(n, m, k, text, spare, lines, tokens, a, b, w, reply)
}

// Whether a page's header and records are those of a fresh reading.
#[unsafe(no_mangle)]
pub extern "C" fn lexpage_check(
    n: u32,
    m: u32,
    k: u32,
    text: &[u8],
    lines: &[u32],
    tokens: &[u32],
    reply: &mut [u64; 16],
) -> u64
    ensures value { result ≡ length (check_reply (page n m k text.now lines.now tokens.now)) }
    ensures reply_after { reply.new ≡ sets reply.old 0 (check_reply (page n m k text.now lines.now tokens.now)) }
{
    lexpage::lexpage_check(n, m, k, text, lines, tokens, reply)
}
