// A pass over the lines of a text, which counts them and gives their records to two sinks.
#![tactic(auto)]

ghost use Rattle.std.specs.Prelude.{◌≡◌, true, ◌≤◌, length};
ghost use Rattle.rules.specs.Line.{initial};
ghost use Rattle.rules.specs.Reading.{lines_of, read_from};
ghost use Rattle.rules.specs.Limits.{max_levels};
ghost use Rattle.rules.specs.Records.{read_lines, fresh_reading_by};
ghost use Rattle.records.specs.Sinks.{Fits};
ghost use Rattle.refusals.specs.Limits.{line_limits_of, limits_of};
ghost use Rattle.passes.specs.Passes.{pass_of, line_need_of, token_need_of, TakenIn};

pub use records::Counts;
use records::{Nowhere, Place, RecordSink, State};
use refusals::{Limits, LineLimits, Unread};
use tables::Tables;

// One pass over the lines of a text, whose records go to two sinks.
pub fn pass_lines<S: RecordSink>(
    tables: &Tables,
    text: &[u8],
    lines: &mut S,
    tokens: &mut S,
    limits: LineLimits,
) -> Result<Counts, Unread>
    requires text_bound { length text.now ≤ 1_048_576 }
    requires line_room { Fits (S.room lines.old) (line_need_of (read_from (line_limits_of limits) initial (lines_of text.now))) }
    requires token_room { Fits (S.room tokens.old) (token_need_of (read_from (line_limits_of limits) initial (lines_of text.now))) }
    ensures value { result ≡ pass_of (read_lines (line_limits_of limits) text.now) }
    ensures taken { TakenIn (S.takes lines.old lines.new) (S.takes tokens.old tokens.new) (read_from (line_limits_of limits) initial (lines_of text.now)) }
{
    let mut state = State::initial();
    let first = Place {
        line: 0,
        first: 0,
        start: 0,
    };
    let read = rereading::read_to_end(tables, text, lines, tokens, first, limits, &mut state)?;
    let end = Place {
        line: read.lines,
        first: read.tokens,
        start: text.len() as u32,
    };
    lines::put_end(lines, tokens, end, &state);
    Ok(Counts {
        tokens: read.tokens + state.levels(),
        ..read
    })
}

// What a text gives that is read and not stored: a pass that only counts.
fn count_lines(limits: LineLimits, text: &[u8]) -> Result<Counts, Unread>
    requires { length text.now ≤ 1_048_576 }
    ensures { result ≡ pass_of (read_lines (line_limits_of limits) text.now) }
{
    pass_lines(&Tables::new(), text, &mut Nowhere, &mut Nowhere, limits)
}

// A text by itself, under given limits: 1, 2, then its lines, which are counted.
#[tactic(auto, using(refusals::proofs::Tests::fresh_passed, refusals::proofs::Tests::passed_short, crate::proofs::Passes::refused_pass))]
pub fn open_text(limits: Limits, text: &[u8]) -> Result<Counts, Unread>
    requires { (limits.bytes ≤ 1_048_576) × (limits.levels ≤ max_levels) }
    ensures { result ≡ pass_of (fresh_reading_by (limits_of limits) text.now) }
{
    refusals::test_text(limits, text)?;
    count_lines(limits.line(), text)
}
