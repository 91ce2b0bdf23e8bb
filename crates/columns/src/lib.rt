// The panel column of an offset.
#![tactic(auto)]

ghost use Rattle.std.specs.Prelude.{◌≡◌, ◌≤◌, length};
ghost use Rattle.rules.specs.Column.{column_reply};
ghost use Rattle.columns.specs.Answers.{column_numbers, place_reply, count_after};

// How many scalars a line has after one that begins with this byte: none after an LF, which ends the line.
#[tactic(auto, using(std::proofs::lemmas::Bool::Decides::nat_tests))]
fn count_after(b: u8, count: usize) -> usize
    requires { count ≤ 1_048_576 }
    ensures { result ≡ count_after b count }
{
    if b == b'\n' { 0 } else { count + 1 }
}

// The column of `at`: scalar by scalar from the front, with the scalars of the line that `i` stands in counted. A scalar's own size is the step,
// so no range gives these offsets.
fn column_at(text: &[u8], at: usize) -> Result<usize, refusals::Refusal>
    requires { length text.now ≤ 1_048_576 }
    ensures { column_numbers result ≡ place_reply text.now at }
{
    let mut i: usize = 0;
    let mut count: usize = 0;
    while i < at {
        let size = utf8::scalar_size(text, i);
        if size == 0 {
            return Err(refusals::Refusal::Outside);
        }
        count = count_after(text[i], count);
        i += size;
    }
    if at < i {
        return Err(refusals::Refusal::Outside);
    }
    Ok(count + 1)
}

// The column of `at` in its line, where the text is neither too long nor malformed and a scalar begins there, or the text ends; or the text's
// refusal, 1 or 2; or 6.
#[tactic(auto, using(refusals::proofs::Tests::refused_call, refusals::proofs::Tests::passed_reply, refusals::proofs::Tests::passed_short), unfolding(rules::specs::Column::column_reply, rules::specs::Column::column_tests))]
pub fn panel_column(text: &[u8], at: usize) -> Result<usize, refusals::Refusal>
    ensures { column_numbers result ≡ column_reply text.now at }
{
    refusals::test_text(refusals::barge_limits(), text)?;
    column_at(text, at)
}
