// The editable page: an edit of it.
#![tactic(auto)]

ghost use Rattle.std.specs.Prelude.{◌≡◌, ◌+◌, ◌-◌, ◌≤◌, length, min};
ghost use Rattle.rules.specs.Edit.{EditPost};
ghost use Rattle.header.specs.Pages.{header_of};
ghost use Rattle.plans.specs.Plans.{lent_edit};
ghost use Rattle.editing.specs.Answers.{edit_numbers, lent, lent_after};

use editing::Edited;
use header::Header;
use plans::Edit;
use refusals::{Buffer, Refusal, Unread};

// The length of the edited text of n bytes; the largest word for any longer.
fn edited_length(n: usize, edit: Edit) -> usize
    requires { (edit.a ≤ edit.b) × ((edit.b ≤ n) × (n ≤ 4_294_967_295)) }
    ensures { result ≡ min (edit.entry.a + length edit.entry.w.now + (n - edit.entry.b)) 18_446_744_073_709_551_615 }
{
    (edit.a + (n - edit.b)).saturating_add(edit.w.len())
}

// An edit of a page: bytes a..b become w. What is re-read, kept and moved is as the stop rule says; a refusal leaves the page. The four buffers
// stay parameters of their own, as at `editing::write_edit`.
pub fn edit(
    head: Header,
    text: &mut [u8],
    spare: &mut [u8],
    lines: &mut [u32],
    tokens: &mut [u32],
    edit: Edit,
) -> Result<Edited, Refusal>
    ensures { EditPost (lent (header_of head) text.old spare.old lines.old tokens.old) (lent_edit edit.entry) (edit_numbers result) (lent_after (header_of head) (edit_numbers result) text.new spare.new lines.new tokens.new) }
{
    if !head.fits(text.len(), lines.len(), tokens.len()) {
        return Err(Refusal::Unfit);
    }
    if edit.b < edit.a {
        return Err(Refusal::Outside);
    }
    if (head.n as usize) < edit.b {
        return Err(Refusal::Outside);
    }
    let size = edited_length(head.n as usize, edit);
    let limits = refusals::barge_limits();
    if limits.bytes < size {
        return Err(Refusal::Reading(Unread::TooLong(limits.long, size)));
    }
    if text.len() < size {
        return Err(Refusal::Short(Buffer::Text, size));
    }
    if spare.len() < size {
        return Err(Refusal::Short(Buffer::Spare, size));
    }
    editing::edit_text(head, text, spare, lines, tokens, edit, size)
}
