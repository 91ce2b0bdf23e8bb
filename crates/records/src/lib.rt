// The words of a token record and of a line record: given to a sink, loaded and compared.
#![tactic(auto)]

ghost use Rattle.std.specs.Prelude.{◌≡◌, true, ◌+◌, ◌*◌, ◌≤◌, ◌<◌, length, drop, Some};
ghost use Rattle.rules.specs.Lists.{begins, same};
ghost use Rattle.rules.specs.Limits.{max_levels};
ghost use Rattle.rules.specs.Records.{line_size, token_size, state_words, line_record};
ghost use Rattle.records.specs.Sinks.{Fits};
ghost use Rattle.records.specs.Words.{words_at, line_word, state_in, state_from};

pub mod sink;
pub mod state;

pub use sink::{Bounded, Held, Nowhere, RecordSink, Sink, Written};
pub use state::{LEVELS, STATE, State};

// The words of a line record: start, first token, depth, arrow, open levels, then the widths.
pub const LINE: usize = 21;

// The words of a token record: kind, position, length, line, column.
pub const TOKEN: usize = 5;

// Where the records of a line go: the numbers of its line record and of its first token record, and its start.
#[derive(Clone, Copy)]
pub struct Place {
    pub line: usize,
    pub first: usize,
    pub start: u32,
}

// How many bytes, lines and tokens there are, in a text or in the part of it that was read.
#[derive(Clone, Copy)]
pub struct Counts {
    pub bytes: usize,
    pub lines: usize,
    pub tokens: usize,
}

// The line's token n, at this offset of the line: kind, position, length, line, column.
pub fn put_token<S: RecordSink>(
    tokens: &mut S,
    place: Place,
    n: usize,
    kind: u32,
    offset: u32,
    size: u32,
)
    requires offset_bound { (place.start + offset ≤ 1_048_576) × (place.line ≤ 4_194_304) }
    requires fits { Fits (S.room tokens.old) (Some (token_size * (place.first + n) + token_size)) }
    ensures { S.takes tokens.old tokens.new (token_size * (place.first + n)) (words_at place offset kind size) }
{
    let position = place.start + offset;
    let number = place.line as u32 + 1;
    let column = offset + 1;
    tokens.put_record(place.first, n, &[kind, position, size, number, column]);
}

// The words from an index on begin with these.
fn same_words(words: &[u32], at: usize, wanted: &[u32]) -> bool
    ensures { result ≡ begins wanted.now (drop at words.now) }
{
    match words.get(at..) {
        Some(rest) => rest.starts_with(wanted),
        None => wanted.is_empty(),
    }
}

// The words of a line's record: the start, the first token's number, the state.
fn line_words(place: Place, state: &State) -> [u32; LINE]
    requires { place.first ≤ 4_194_304 }
    ensures { result ≡ line_record place.start place.first state.now }
{
    let mut words = [0; LINE];
    words[0] = place.start;
    words[1] = place.first as u32;
    words[2..].copy_from_slice(&state.words());
    words
}

// The line's record.
pub fn put_line<S: RecordSink>(lines: &mut S, place: Place, state: &State)
    requires first_bound { place.first ≤ 4_194_304 }
    requires fits { Fits (S.room lines.old) (Some (line_size * place.line + line_size)) }
    ensures { S.takes lines.old lines.new (line_size * place.line) (line_record place.start place.first state.now) }
{
    lines.put_record(place.line, 0, &line_words(place, state));
}

// The state in line record i.
pub fn load_state(lines: &[u32], i: usize) -> State
    requires i_in_bounds { (i ≤ 1_048_576) × (line_size * (i + 1) ≤ length lines.now) }
    requires few { line_word lines.now i 4 ≤ max_levels }
    ensures { result ≡ state_from lines.now i }
{
    State::load(lines, LINE * i + 2)
}

// The state in line record j is this one.
pub fn same_state(lines: &[u32], j: usize, state: &State) -> bool
    requires { (j ≤ 4_294_967_295) × (line_size * (j + 1) ≤ length lines.now) }
    ensures { result ≡ same (state_in lines.now j) (state_words state.now) }
{
    same_words(lines, LINE * j + 2, &state.words())
}
