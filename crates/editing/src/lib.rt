// An edit whose range is proper and whose text has room: spliced, tested, planned and written.
#![tactic(auto)]

ghost use Rattle.std.specs.Prelude.{◌≡◌, true, ◌+◌, ◌-◌, ◌*◌, ◌≤◌, length, take, drop};
ghost use Rattle.std.proofs.lemmas.List.Edits.{sets};
ghost use Rattle.rules.specs.Records.{line_size, token_size};
ghost use Rattle.rules.specs.Page.{fits};
ghost use Rattle.rules.specs.StopRule.{edited};
ghost use Rattle.rules.specs.Edit.{EditPost};
ghost use Rattle.header.specs.Pages.{header_of, page};
ghost use Rattle.plans.specs.Plans.{lent_edit, Small, lines_after, Planned, Roomy};
ghost use Rattle.writing.specs.Writes.{line_tail, token_tail};
ghost use Rattle.editing.specs.Answers.{edit_numbers, edited_by, lent, lent_after};

use header::{Header, Page};
use plans::{Edit, Plan};
use refusals::Refusal;

// An accepted edit: how many bytes, lines and tokens the page then has, and how many lines were read again.
#[derive(Clone, Copy)]
pub struct Edited {
    pub bytes: usize,
    pub lines: usize,
    pub tokens: usize,
    pub reread: usize,
}

// The answer of an edit that is written by this plan.
fn edited_by(size: usize, m: usize, k: usize, p: Plan) -> Edited
    requires m_bound { (m ≤ 1_048_576) × ((k ≤ 2_097_152) × ((p.kept.lines ≤ m + 1) × (p.kept.tokens ≤ k))) }
    requires small { Small p }
    requires some { 1 ≤ lines_after p m }
    ensures { result ≡ edited_by size m k p }
{
    let to = p.moved();
    Edited {
        bytes: size,
        lines: to.lines + (m + 1 - p.kept.lines) - 1,
        tokens: to.tokens + (k - p.kept.tokens),
        reread: p.read.lines,
    }
}

// The records and the text of an accepted edit are written. The four buffers stay parameters of their own, here and below: in a struct of `&mut`
// fields a contract would name what is behind each by its place in nested pairs, and promise no more.
fn write_edit(
    head: Header,
    text: &mut [u8],
    spare: &[u8],
    lines: &mut [u32],
    tokens: &mut [u32],
    a: usize,
    size: usize,
    p: Plan,
) -> Edited
    requires a_le_size { (a ≤ size) × ((size ≤ length text.old) × ((size ≤ length spare.now) × (size ≤ 1_048_576))) }
    requires m_in_bounds { (line_size * (head.m + 1) ≤ length lines.old) × (token_size * head.k ≤ length tokens.old) }
    requires planned { Planned (take size spare.now) lines.old head.m head.k p }
    requires roomy { Roomy head.m head.k (length lines.old) (length tokens.old) p }
    ensures value { result ≡ edited_by size head.m head.k p }
    ensures text_after { text.new ≡ sets text.old a (drop a (take size spare.now)) }
    ensures lines_after { lines.new ≡ sets lines.old (line_size * p.begin.lines) (line_tail (take size spare.now) lines.old head.m p) }
    ensures tokens_after { tokens.new ≡ sets tokens.old (token_size * p.begin.tokens) (token_tail (take size spare.now) lines.old tokens.old head.k p) }
{
    let m = head.m as usize;
    let k = head.k as usize;
    writing::write_records(&spare[..size], lines, tokens, m, k, p);
    copies::copy_back(spare, text, a, size);
    edited_by(size, m, k, p)
}

// An edit whose range is proper and whose text has room: the spare gets the edited text, then it is read.
pub fn edit_text(
    head: Header,
    text: &mut [u8],
    spare: &mut [u8],
    lines: &mut [u32],
    tokens: &mut [u32],
    edit: Edit,
    size: usize,
) -> Result<Edited, Refusal>
    requires page_fits { fits (page head.n head.m head.k text.old lines.old tokens.old) ≡ true }
    requires in_range { (edit.a ≤ edit.b) × ((edit.b ≤ head.n) × (size ≡ length (edited (take head.n text.old) (lent_edit edit)))) }
    requires size_bound { (size ≤ 1_048_576) × ((size ≤ length text.old) × (size ≤ length spare.old)) }
    ensures { EditPost (lent (header_of head) text.old spare.old lines.old tokens.old) (lent_edit edit.entry) (edit_numbers result) (lent_after (header_of head) (edit_numbers result) text.new spare.new lines.new tokens.new) }
{
    copies::splice(text, spare, head.n as usize, edit.a, edit.b, edit.w);
    refusals::test_text(refusals::barge_limits(), &spare[..size])?;
    let page = Page {
        head,
        text: &*text,
        lines: &*lines,
        tokens: &*tokens,
    };
    let plan = planning::plan_edit(page, &spare[..size], edit)?;
    let done = write_edit(head, text, spare, lines, tokens, edit.a, size, plan);
    Ok(done)
}
