// One line, read from the state before it.
#![tactic(auto)]

ghost use Rattle.std.specs.Prelude.{◌≡◌, false, ◌&&◌, ◌+◌, ◌≤◌, length, Ok};
ghost use Rattle.rules.specs.Lists.{run};
ghost use Rattle.rules.specs.Line.{moved_by, is_space, cuts_from, read_line};
ghost use Rattle.literals.specs.Cuts.{failure_of};
ghost use Rattle.records.specs.Sinks.{Fits};
ghost use Rattle.refusals.specs.Limits.{line_limits_of};
ghost use Rattle.levels.specs.Levels.{Within};
ghost use Rattle.line.specs.LineCuts.{line_cuts_of, tokens_of, tokens_end, Taken, failure_in, whole_line, whole_of, tokens_in, state_left, counted, counted_of};

use cursor::Cursor;
use cut::Cut;
use levels::{Lead, Misfit};
use literals::{Failure, detail};
use records::{Place, RecordSink, State};
use refusals::LineLimits;
use tables::{Class, Run, Tables, kinds};

// A failure of the rest of a line from `at` on, as one of the line.
fn moved_by(at: usize, f: Failure) -> Failure
    requires { at + f.at ≤ 1_048_576 }
    ensures { result ≡ failure_in (moved_by at (failure_of f)) }
{
    Failure { at: at + f.at, ..f }
}

// What the cuts of a line that reads give: the number of tokens, the depth after them and whether the last one is an arrow.
#[derive(Clone, Copy)]
pub struct Ends {
    pub count: usize,
    pub depth: u32,
    pub arrow: bool,
}

// What the cursor has come to at the end of a line.
fn ends_at(t: Cursor) -> Ends
    ensures { (result.count ≡ t.n) × (result.depth ≡ t.depth) × (result.arrow ≡ t.arrow) }
{
    Ends {
        count: t.n,
        depth: t.depth,
        arrow: t.arrow,
    }
}

// Whether an early end is asked for, and the sink is over.
fn ends_early<S: RecordSink, const EARLY: bool>(tokens: &S) -> bool
    ensures { result ≡ (EARLY && S.over tokens.now) }
{
    EARLY && tokens.is_over()
}

// The tokens of a line that begins with so many spaces. Words, numbers, signs and `#` are told in the loop itself, the others are called
// for. A sink that keeps no records asks for no kinds of words. A turn passes what it cuts, so no range gives the offsets. Where EARLY is asked for
// the cutting ends once the sink is over, with an answer that says nothing; what the sink took holds then too.
fn cut_line<S: RecordSink, const EARLY: bool>(
    tables: &Tables,
    line: &[u8],
    spaces: usize,
    tokens: &mut S,
    place: Place,
    depth: u32,
) -> Result<Ends, Failure>
    requires spaces_value { spaces ≡ run is_space line.now }
    requires line_bound { (place.start + length line.now ≤ 1_048_576) × ((place.line ≤ 4_194_304) × (depth ≤ 4_194_304)) }
    requires room { Fits (S.room tokens.old) (tokens_end place (tokens_of (cuts_from 0 0 line.now))) }
    ensures value { (EARLY && S.over tokens.new) ≡ false → result ≡ line_cuts_of depth (cuts_from 0 0 line.now) }
    ensures taken { Taken (S.takes tokens.old tokens.new) place (tokens_of (cuts_from 0 0 line.now)) }
{
    let named = tokens.asks_kinds();
    let mut t = cursor::cursor_at(spaces, depth);
    while t.at < line.len() {
        if ends_early::<S, EARLY>(tokens) {
            return Ok(ends_at(t));
        }
        let at = t.at;
        match tables.class_of(line[at]) {
            Class::Blank => {
                t = cursor::past_blank(t);
                continue;
            }
            Class::Hash => return Ok(ends_at(t)),
            Class::Letter if !cut::begins_literal(line, at) => {
                let end = runs::run_end(tables, line, at, Run::Word);
                let kind = cut::kind_of_word(tables, line, at, end, named);
                t = cursor::past_token(tokens, place, t, kind, end - at);
                continue;
            }
            Class::Digit => {
                let number = numbers::scan_number(tables, line, at);
                t = cursor::past_token(tokens, place, t, kinds::NUM, number.end);
                continue;
            }
            Class::Sign => {
                let code = signs::sign_code(tables, line, at);
                if 1 < code {
                    t = cursor::past_sign(tokens, place, t, code);
                    continue;
                }
            }
            _ => {}
        }
        match cut::cut_by_class(tables, line, at, named) {
            Ok(Cut::Blank) => t = cursor::past_blank(t),
            Ok(Cut::Comment) => return Ok(ends_at(t)),
            Ok(Cut::Token(kind, size)) => t = cursor::past_token(tokens, place, t, kind, size),
            Ok(Cut::Number(number)) => {
                t = cursor::past_token(tokens, place, t, kinds::NUM, number.end)
            }
            Err(f) => return Err(moved_by(at, f)),
        }
    }
    Ok(ends_at(t))
}

// Why a line does not read: its failure; or a limit's refusal, by its number.
#[derive(Clone, Copy)]
pub enum Halt {
    Fails(Failure),
    OverLimit(u32),
}

impl From<Failure> for Halt {
    ghost use Rattle.line.specs.declared.Halt.TheVariants.{Fails};

    ghost from_gives = { λ f h. h ≡ Fails f };

    fn from(f: Failure) -> Halt {
        Halt::Fails(f)
    }
}

// A line whose levels are known: what stands at its start, its cuts, and the Newline; the number of its tokens.
fn cut_after<S: RecordSink, const EARLY: bool>(
    tables: &Tables,
    line: &[u8],
    spaces: usize,
    tokens: &mut S,
    place: Place,
    lead: Lead,
    state: &mut State,
) -> Result<usize, Failure>
    requires line_bound { (place.start + length line.now ≤ 1_048_576) × ((place.line ≤ 4_194_304) × ((place.first ≤ 3_000_000) × (state.old.depth ≤ 4_194_304))) }
    requires lead_bound { Within (Ok lead) × (spaces ≡ run is_space line.now) }
    requires room { Fits (S.room tokens.old) (tokens_end place (tokens_of (whole_line lead line.now (cuts_from 0 0 line.now)))) }
    ensures value { (EARLY && S.over tokens.new) ≡ false → (result, state.new) ≡ whole_of lead state.old (cuts_from 0 0 line.now) }
    ensures taken { Taken (S.takes tokens.old tokens.new) place (tokens_of (whole_line lead line.now (cuts_from 0 0 line.now))) }
{
    let leading = cursor::put_leading(tokens, place, lead);
    let inner = Place {
        first: place.first + leading,
        ..place
    };
    let end = cut_line::<S, EARLY>(tables, line, spaces, tokens, inner, state.depth())?;
    if ends_early::<S, EARLY>(tokens) {
        return Ok(0);
    }
    let count = leading + end.count;
    let size = line.len() as u32;
    records::put_token(tokens, place, count, kinds::NEWLINE, size, 0);
    state.set_tokens(end.depth, end.arrow);
    Ok(count + 1)
}

// One line from the state before it, to its end, or where EARLY is asked for up to where the sink is over.
fn read_tokens<S: RecordSink, const EARLY: bool>(
    tables: &Tables,
    line: &[u8],
    tokens: &mut S,
    place: Place,
    limits: LineLimits,
    state: &mut State,
) -> Result<usize, Halt>
    requires line_bound { (place.start + length line.now ≤ 1_048_576) × ((place.line ≤ 4_194_304) × ((place.first ≤ 3_000_000) × (state.old.depth ≤ 4_194_304))) }
    requires room { Fits (S.room tokens.old) (tokens_end place (tokens_in (read_line (line_limits_of limits) state.old line.now))) }
    ensures value { (EARLY && S.over tokens.new) ≡ false → counted_of result state.new ≡ counted (read_line (line_limits_of limits) state.old line.now) }
    ensures left { (EARLY && S.over tokens.new) ≡ false → state.new ≡ state_left (line_limits_of limits) state.old line.now }
    ensures taken { Taken (S.takes tokens.old tokens.new) place (tokens_in (read_line (line_limits_of limits) state.old line.now)) }
{
    let spaces = indent::leading_spaces(tables, line);
    match levels::levels_of(limits, line, spaces, state) {
        Ok(lead) => Ok(cut_after::<S, EARLY>(tables, line, spaces, tokens, place, lead, state)?),
        Err(Misfit::Unequal) => Err(Halt::Fails(Failure {
            detail: detail::BAD_INDENT,
            found: 0,
            at: 0,
            size: indent::leading_indent_bytes(line),
        })),
        Err(Misfit::Beyond(number)) => Err(Halt::OverLimit(number)),
    }
}

// One line from the state before it: the number of its tokens, and the state after it.
pub fn read_line<S: RecordSink>(
    tables: &Tables,
    line: &[u8],
    tokens: &mut S,
    place: Place,
    limits: LineLimits,
    state: &mut State,
) -> Result<usize, Halt>
    requires line_bound { (place.start + length line.now ≤ 1_048_576) × ((place.line ≤ 4_194_304) × ((place.first ≤ 3_000_000) × (state.old.depth ≤ 4_194_304))) }
    requires room { Fits (S.room tokens.old) (tokens_end place (tokens_in (read_line (line_limits_of limits) state.old line.now))) }
    ensures value { counted_of result state.new ≡ counted (read_line (line_limits_of limits) state.old line.now) }
    ensures left { state.new ≡ state_left (line_limits_of limits) state.old line.now }
    ensures taken { Taken (S.takes tokens.old tokens.new) place (tokens_in (read_line (line_limits_of limits) state.old line.now)) }
{
    read_tokens::<S, false>(tables, line, tokens, place, limits, state)
}

// The same, but that it ends once the sink is over. The answer and the state left say nothing then; what the sink took holds.
pub fn read_line_until_over<S: RecordSink>(
    tables: &Tables,
    line: &[u8],
    tokens: &mut S,
    place: Place,
    limits: LineLimits,
    state: &mut State,
) -> Result<usize, Halt>
    requires line_bound { (place.start + length line.now ≤ 1_048_576) × ((place.line ≤ 4_194_304) × ((place.first ≤ 3_000_000) × (state.old.depth ≤ 4_194_304))) }
    requires room { Fits (S.room tokens.old) (tokens_end place (tokens_in (read_line (line_limits_of limits) state.old line.now))) }
    ensures value { S.over tokens.new ≡ false → counted_of result state.new ≡ counted (read_line (line_limits_of limits) state.old line.now) }
    ensures left { S.over tokens.new ≡ false → state.new ≡ state_left (line_limits_of limits) state.old line.now }
    ensures taken { Taken (S.takes tokens.old tokens.new) place (tokens_in (read_line (line_limits_of limits) state.old line.now)) }
{
    read_tokens::<S, true>(tables, line, tokens, place, limits, state)
}
