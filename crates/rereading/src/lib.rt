// Lines read from a state on, up to the stop rule against old line records.
#![tactic(auto)]

ghost use Rattle.std.specs.Prelude.{◌≡◌, true, ◌+◌, ◌-◌, ◌*◌, ◌≤◌, ◌<◌, length};
ghost use Rattle.rules.specs.Reading.{lines_of, read_from};
ghost use Rattle.rules.specs.Limits.{max_levels};
ghost use Rattle.rules.specs.Records.{line_size};
ghost use Rattle.records.specs.Sinks.{Fits};
ghost use Rattle.refusals.specs.Limits.{line_limits_of};
ghost use Rattle.rereading.specs.Words.{old_byte, FirstFrom, stops_at};
ghost use Rattle.rereading.specs.Rereads.{RereadIs};
ghost use Rattle.rereading.specs.Sinks.{line_records_end, token_records_end, Few, AllTaken, AtEnd, EndIs};

use records::{Counts, Place, RecordSink, State};
use refusals::{LineLimits, Unread};
use tables::Tables;

// The stop rule of an edit, by the old records: how many lines they have, the first one to compare with, where the replaced bytes end, and
// where the kept tail begins in the edited text.
#[derive(Clone, Copy)]
pub struct StopRule {
    pub count: usize,
    pub from: usize,
    pub end: usize,
    pub kept: usize,
}

// From record j on, the first of m that starts at the byte `at` or beyond.
fn first_from(lines: &[u32], m: usize, j: usize, at: usize) -> usize
    requires { (j ≤ m) × ((m ≤ 4_294_967_295) × (line_size * (m + 1) ≤ length lines.now)) }
    ensures { FirstFrom lines.now m j at result }
{
    for r in j..m {
        if at <= lines[records::LINE * r] as usize {
            return r;
        }
    }
    m
}

// The byte of the old text that stands at p in the edited one, where p is in the kept tail.
fn old_byte(b: usize, kept: usize, p: usize) -> usize
    requires { (kept ≤ p) × ((b ≤ 4_294_967_295) × (p ≤ 1_048_576)) }
    ensures { result ≡ old_byte b kept p }
{
    b + (p - kept)
}

// The old line to compare with at byte `at` of the edited text: record j up to the kept tail, beyond it the first from j on that starts at
// the same byte of the kept tail or further on.
fn old_line(old: &[u32], stop: StopRule, j: usize, at: usize) -> usize
    requires j_le_count { (j ≤ stop.count) × ((stop.count ≤ 4_294_967_295) × (line_size * (stop.count + 1) ≤ length old.now)) }
    requires end_bound { (stop.end ≤ 4_294_967_295) × (at ≤ 1_048_576) }
    ensures value { (at ≤ stop.kept → result ≡ j) × (stop.kept < at → FirstFrom old.now stop.count j (old_byte stop.end stop.kept at) result) }
    ensures upper_bound { result ≤ stop.count }
{
    if at <= stop.kept {
        return j;
    }
    first_from(old, stop.count, j, old_byte(stop.end, stop.kept, at))
}

// Re-reading stops at byte p in this state, where record j is the one to compare with.
fn stops_at(old: &[u32], stop: StopRule, j: usize, p: usize, state: &State) -> bool
    requires j_in_bounds { (j ≤ 4_294_967_295) × (line_size * (j + 1) ≤ length old.now) }
    requires end_bound { (stop.end ≤ 4_294_967_295) × (p ≤ 1_048_576) }
    ensures { result ≡ stops_at old.now j stop.end stop.kept p state.now }
{
    if p <= stop.kept {
        return false;
    }
    if old[records::LINE * j] as usize != old_byte(stop.end, stop.kept, p) {
        return false;
    }
    records::same_state(old, j, state)
}

// What reading on comes to, after so many bytes, lines and tokens: a stop at an old line, or the end of the text.
#[derive(Clone, Copy)]
pub enum Reached {
    Stop(Counts, usize),
    End(Counts),
}

// The lines of a text whose first line has this place in the whole, read from a state on, up to the stop rule against old line records. A turn
// passes a line, whose length no range gives.
pub fn read_on<S: RecordSink>(
    tables: &Tables,
    text: &[u8],
    old: &[u32],
    stop: StopRule,
    lines: &mut S,
    tokens: &mut S,
    place: Place,
    limits: LineLimits,
    state: &mut State,
) -> Result<Reached, Unread>
    requires text_bound { (place.start + length text.now ≤ 1_048_576) × ((place.line ≤ place.start) × ((stop.from ≤ stop.count) × (stop.end ≤ 4_294_967_295))) }
    requires count_bound { (stop.count ≤ 4_294_967_295) × (line_size * (stop.count + 1) ≤ length old.now) }
    requires state_bound { (state.old.depth ≤ place.start) × (length state.old.widths ≤ max_levels) }
    requires few { Few (read_from (line_limits_of limits) state.old (lines_of text.now)) place.first }
    requires line_room { Fits (S.room lines.old) (line_records_end place (read_from (line_limits_of limits) state.old (lines_of text.now))) }
    requires token_room { Fits (S.room tokens.old) (token_records_end place (read_from (line_limits_of limits) state.old (lines_of text.now))) }
    ensures reread_is { RereadIs (line_limits_of limits) text.now old.now place.start place.line stop.count stop.from stop.end stop.kept state.old state.new result }
    ensures taken { AtEnd (AllTaken (S.takes lines.old lines.new) (S.takes tokens.old tokens.new) place (read_from (line_limits_of limits) state.old (lines_of text.now))) result }
{
    let mut read = Counts {
        bytes: 0,
        lines: 0,
        tokens: 0,
    };
    let mut j = stop.from;
    while read.bytes < text.len() {
        let here = Place {
            line: place.line + read.lines,
            first: place.first + read.tokens,
            start: place.start + read.bytes as u32,
        };
        let at = here.start as usize;
        j = old_line(old, stop, j, at);
        if stops_at(old, stop, j, at, state) {
            return Ok(Reached::Stop(read, j));
        }
        let next = lines::next_line(tables, text, read.bytes, lines, tokens, here, limits, state)?;
        read = Counts {
            bytes: next.at,
            lines: read.lines + 1,
            tokens: read.tokens + next.tokens,
        };
    }
    Ok(Reached::End(read))
}

// All lines of a text whose first line has this place in the whole: no old records are compared with, so there is no stop.
pub fn read_to_end<S: RecordSink>(
    tables: &Tables,
    text: &[u8],
    lines: &mut S,
    tokens: &mut S,
    place: Place,
    limits: LineLimits,
    state: &mut State,
) -> Result<Counts, Unread>
    requires text_bound { (place.start + length text.now ≤ 1_048_576) × (place.line ≤ place.start) }
    requires state_bound { (state.old.depth ≤ place.start) × (length state.old.widths ≤ max_levels) }
    requires few { Few (read_from (line_limits_of limits) state.old (lines_of text.now)) place.first }
    requires line_room { Fits (S.room lines.old) (line_records_end place (read_from (line_limits_of limits) state.old (lines_of text.now))) }
    requires token_room { Fits (S.room tokens.old) (token_records_end place (read_from (line_limits_of limits) state.old (lines_of text.now))) }
    ensures end_is { EndIs (line_limits_of limits) text.now state.old place.start place.line state.new result }
    ensures taken { AllTaken (S.takes lines.old lines.new) (S.takes tokens.old tokens.new) place (read_from (line_limits_of limits) state.old (lines_of text.now)) }
{
    let none = [0; records::LINE];
    let stop = StopRule {
        count: 0,
        from: 0,
        end: 0,
        kept: place.start as usize + text.len(),
    };
    match read_on(
        tables, text, &none, stop, lines, tokens, place, limits, state,
    )? {
        Reached::Stop(read, _) => Ok(read),
        Reached::End(read) => Ok(read),
    }
}
