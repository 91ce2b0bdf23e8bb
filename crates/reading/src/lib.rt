// A text read whole: it is counted, then its records are stored.
#![tactic(auto)]

ghost use Rattle.std.specs.Prelude.{◌≡◌, ◌≤◌, length};
ghost use Rattle.rules.specs.Line.{initial};
ghost use Rattle.rules.specs.Reading.{lines_of, read_from};
ghost use Rattle.rules.specs.Limits.{max_levels};
ghost use Rattle.rules.specs.Records.{read_lines, fresh_reading_by};
ghost use Rattle.rules.specs.Read.{filled_by, read_into};
ghost use Rattle.refusals.specs.Limits.{line_limits_of, limits_of};
ghost use Rattle.passes.specs.Passes.{Counted};
ghost use Rattle.reading.specs.Answers.{read_numbers};

use records::{Counts, Nowhere, Written};
use refusals::{Buffer, Limits, LineLimits, Refusal};
use tables::Tables;

// The records of a text that was counted, where both buffers hold them.
#[tactic(auto, using(crate::proofs::Fills::counts_small))]
fn store_records(
    tables: &Tables,
    text: &[u8],
    lines: &mut [u32],
    tokens: &mut [u32],
    limits: LineLimits,
    counts: Counts,
) -> Result<Counts, Refusal>
    requires text_len_bound { length text.now ≤ 1_048_576 }
    requires counted { Counted counts (read_from (line_limits_of limits) initial (lines_of text.now)) }
    ensures result_value { read_numbers result ≡ (filled_by lines.old tokens.old (read_lines (line_limits_of limits) text.now)).reply }
    ensures lines_after { lines.new ≡ (filled_by lines.old tokens.old (read_lines (line_limits_of limits) text.now)).lines }
    ensures tokens_after { tokens.new ≡ (filled_by lines.old tokens.old (read_lines (line_limits_of limits) text.now)).tokens }
{
    let line_words = records::LINE * (counts.lines + 1);
    if lines.len() < line_words {
        return Err(Refusal::Short(Buffer::Lines, line_words));
    }
    let token_words = records::TOKEN * counts.tokens;
    if tokens.len() < token_words {
        return Err(Refusal::Short(Buffer::Tokens, token_words));
    }
    let mut line_sink = Written::new(lines);
    let mut token_sink = Written::new(tokens);
    let _ = passes::pass_lines(tables, text, &mut line_sink, &mut token_sink, limits);
    Ok(counts)
}

// A text that passed tests 1 and 2: it is counted, then its records are stored.
fn read_lines(
    limits: LineLimits,
    text: &[u8],
    lines: &mut [u32],
    tokens: &mut [u32],
) -> Result<Counts, Refusal>
    requires { length text.now ≤ 1_048_576 }
    ensures result_value { read_numbers result ≡ (filled_by lines.old tokens.old (read_lines (line_limits_of limits) text.now)).reply }
    ensures lines_after { lines.new ≡ (filled_by lines.old tokens.old (read_lines (line_limits_of limits) text.now)).lines }
    ensures tokens_after { tokens.new ≡ (filled_by lines.old tokens.old (read_lines (line_limits_of limits) text.now)).tokens }
{
    let tables = Tables::new();
    let counts = passes::pass_lines(&tables, text, &mut Nowhere, &mut Nowhere, limits)?;
    store_records(&tables, text, lines, tokens, limits, counts)
}

// A text by itself, under given limits: its records at the front of the lent buffers, and how many bytes, lines and tokens it has; or a refusal
// that leaves the buffers untouched: why the text does not read, or 5 for one of the two buffers.
#[tactic(auto, using(refusals::proofs::Tests::fresh_refused, refusals::proofs::Tests::fresh_passed, refusals::proofs::Tests::passed_short), unfolding(rules::specs::Read::filled_by))]
pub fn read_within(
    limits: Limits,
    text: &[u8],
    lines: &mut [u32],
    tokens: &mut [u32],
) -> Result<Counts, Refusal>
    requires { (limits.bytes ≤ 1_048_576) × (limits.levels ≤ max_levels) }
    ensures result_value { read_numbers result ≡ (filled_by lines.old tokens.old (fresh_reading_by (limits_of limits) text.now)).reply }
    ensures lines_after { lines.new ≡ (filled_by lines.old tokens.old (fresh_reading_by (limits_of limits) text.now)).lines }
    ensures tokens_after { tokens.new ≡ (filled_by lines.old tokens.old (fresh_reading_by (limits_of limits) text.now)).tokens }
{
    refusals::test_text(limits, text)?;
    read_lines(limits.line(), text, lines, tokens)
}

// The same under the barge's limits.
#[tactic(auto, unfolding(rules::specs::Read::read_into, rules::specs::Records::fresh_reading))]
pub fn read(text: &[u8], lines: &mut [u32], tokens: &mut [u32]) -> Result<Counts, Refusal>
    ensures result_value { read_numbers result ≡ (read_into text.now lines.old tokens.old).reply }
    ensures lines_after { lines.new ≡ (read_into text.now lines.old tokens.old).lines }
    ensures tokens_after { tokens.new ≡ (read_into text.now lines.old tokens.old).tokens }
{
    read_within(refusals::barge_limits(), text, lines, tokens)
}
