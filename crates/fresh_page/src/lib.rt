// The fresh page.
#![tactic(auto)]

ghost use Rattle.std.specs.Prelude.{◌≡◌, length};
ghost use Rattle.rules.specs.Page.{fresh_reply, fresh_lines};
ghost use Rattle.refusals.specs.Replies.{reply_of};
ghost use Rattle.fresh_page.specs.Answers.{fresh_values};

use refusals::{Buffer, Refusal};

// The fresh page, whose header is 0, 0, 0: one line record of zeros; nothing else is touched.
pub fn fresh(lines: &mut [u32]) -> Result<(), Refusal>
    ensures result_value { reply_of fresh_values result ≡ fresh_reply (length lines.old) }
    ensures lines_after { lines.new ≡ fresh_lines lines.old }
{
    if lines.len() < records::LINE {
        return Err(Refusal::Short(Buffer::Lines, records::LINE));
    }
    lines[..records::LINE].fill(0);
    Ok(())
}
