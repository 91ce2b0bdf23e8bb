// One line of a text at its place, and its record.
#![tactic(auto)]

ghost use Rattle.std.specs.Prelude.{◌≡◌, true, suc, ◌+◌, ◌-◌, ◌*◌, ◌≤◌, ◌<◌, ltb, length, drop, Some, if◌then◌else◌};
ghost use Rattle.rules.specs.Lists.{run};
ghost use Rattle.rules.specs.Failure.{detail_of, failure_record};
ghost use Rattle.rules.specs.Line.{dedents, read_line};
ghost use Rattle.rules.specs.Reading.{not_lf, line_at, size_at};
ghost use Rattle.rules.specs.Records.{line_size, token_size, line_record, token_words};
ghost use Rattle.literals.specs.Cuts.{failure_of};
ghost use Rattle.records.specs.Sinks.{Fits};
ghost use Rattle.line.specs.LineCuts.{tokens_in, tokens_end, state_left, Taken};
ghost use Rattle.refusals.specs.Limits.{line_limits_of};
ghost use Rattle.refusals.specs.Unreads.{record_in};
ghost use Rattle.lines.specs.Steps.{StepIs};

use line::Halt;
use literals::Failure;
use records::{Place, RecordSink, State};
use refusals::{FailureRecord, LineLimits, Unread};
use tables::Tables;

// Where the line from `at` on ends: at its LF or at the end of the text.
pub fn line_end(text: &[u8], at: usize) -> usize
    requires { at ≤ length text.now }
    ensures { result ≡ at + run not_lf (drop at text.now) }
{
    search::find_byte(text, at, b'\n')
}

// The codes of the details, by number, as the record has them; number 0 is as 1.
const CODES: [u32; 13] = [1, 1, 2, 4, 101, 1, 1, 1, 1, 1, 1, 1, 1];

// The code of a detail; 0 past the last one. A table by number, as the record has the detail by its number.
fn code_of(detail: u32) -> u32
    ensures { result ≡ (detail_of detail).code }
{
    if 12 < detail {
        return 0;
    }
    let codes = CODES;
    codes[detail as usize]
}

// The record of a failure in the line at this place.
pub fn failure_record(f: Failure, place: Place) -> FailureRecord
    requires { (place.start + (f.at + f.size) ≤ 1_048_576) × (place.line ≤ 1_048_576) }
    ensures { result ≡ record_in (failure_record place.start (place.line + 1) (failure_of f)) }
{
    let position = place.start + f.at as u32;
    FailureRecord {
        code: code_of(f.detail),
        detail: f.detail,
        found: f.found,
        position: position,
        line: place.line as u32 + 1,
        column: f.at as u32 + 1,
        from: position,
        to: position + f.size as u32,
    }
}

// Past the LF that stands at `end`, where one does.
pub fn past_lf(text: &[u8], end: usize) -> usize
    ensures { result ≡ (if ltb end (length text.now) then suc end else end) }
{
    if end < text.len() {
        return end + 1;
    }
    end
}

// What a line that reads gives: where the one after it starts, and the number of its tokens.
#[derive(Clone, Copy)]
pub struct Next {
    pub at: usize,
    pub tokens: usize,
}

// The line at `at` of a text, with its place in the whole: its record, its tokens, and the state after it.
pub fn next_line<S: RecordSink>(
    tables: &Tables,
    text: &[u8],
    at: usize,
    lines: &mut S,
    tokens: &mut S,
    place: Place,
    limits: LineLimits,
    state: &mut State,
) -> Result<Next, Unread>
    requires at_in_bounds { (at < length text.now) × ((place.start + (length text.now - at) ≤ 1_048_576) × ((place.line ≤ 1_048_576) × (place.first ≤ 3_000_000))) }
    requires depth_bound { state.old.depth ≤ 4_194_304 }
    requires line_room { Fits (S.room lines.old) (Some (line_size * place.line + line_size)) }
    requires token_room { Fits (S.room tokens.old) (tokens_end place (tokens_in (read_line (line_limits_of limits) state.old (line_at text.now at)))) }
    ensures step_is { StepIs state.new place.start (place.line + 1) (at + size_at text.now at) (read_line (line_limits_of limits) state.old (line_at text.now at)) result }
    ensures left { state.new ≡ state_left (line_limits_of limits) state.old (line_at text.now at) }
    ensures line_taken { S.takes lines.old lines.new (line_size * place.line) (line_record place.start place.first state.old) }
    ensures tokens_taken { Taken (S.takes tokens.old tokens.new) place (tokens_in (read_line (line_limits_of limits) state.old (line_at text.now at))) }
{
    records::put_line(lines, place, state);
    let end = line_end(text, at);
    match line::read_line(tables, &text[at..end], tokens, place, limits, state) {
        Ok(count) => Ok(Next {
            at: past_lf(text, end),
            tokens: count,
        }),
        Err(Halt::Fails(f)) => Err(Unread::Fails(failure_record(f, place))),
        Err(Halt::OverLimit(number)) => Err(Unread::AtLine(number, place.line + 1)),
    }
}

// The end of a text, at this place: its record and its Dedents.
pub fn put_end<S: RecordSink>(lines: &mut S, tokens: &mut S, end: Place, state: &State)
    requires end_bound { (end.start ≤ 1_048_576) × ((end.line ≤ 4_194_304) × (end.first ≤ 4_194_304)) }
    requires line_room { Fits (S.room lines.old) (Some (line_size * end.line + line_size)) }
    requires token_room { Fits (S.room tokens.old) (Some (token_size * (end.first + length state.now.widths))) }
    ensures line_taken { S.takes lines.old lines.new (line_size * end.line) (line_record end.start end.first state.now) }
    ensures tokens_taken { S.takes tokens.old tokens.new (token_size * end.first) (token_words end.start (end.line + 1) (dedents (length state.now.widths))) }
{
    records::put_line(lines, end, state);
    cursor::put_dedents(tokens, end, state.levels());
}
