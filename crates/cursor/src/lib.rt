// How far a line is cut: past blanks and tokens, which go to a sink; and the tokens at a line's start.
#![tactic(auto)]

ghost use Rattle.std.specs.Prelude.{◌≡◌, true, ◌+◌, ◌*◌, ◌/◌, ◌%◌, ◌≤◌, ◌<◌, length, Some};
ghost use Rattle.rules.specs.Line.{dedents};
ghost use Rattle.rules.specs.Records.{token_size, token_words};
ghost use Rattle.records.specs.Sinks.{Fits};
ghost use Rattle.records.specs.Words.{words_at};
ghost use Rattle.levels.specs.Levels.{leading};
ghost use Rattle.cursor.specs.Cursors.{depth_by, cursor_at, blank_past, token_past};

use levels::Lead;
use records::{Place, RecordSink};
use tables::kinds;

// The depth that a token of this kind leaves.
#[tactic(auto, using(std::proofs::lemmas::Bool::Decides::nat_tests), unfolding(crate::specs::Cursors::depth_by))]
pub fn depth_by(depth: u32, kind: u32) -> u32
    requires { depth ≤ 8_388_608 }
    ensures { result ≡ depth_by depth kind }
{
    if kind == kinds::L_PAREN {
        return depth + 1;
    }
    if kind != kinds::R_PAREN {
        return depth;
    }
    if depth == 0 {
        return 0;
    }
    depth - 1
}

// How far a line is cut: the next byte, the number of tokens so far, the depth after them and whether the last one is an arrow.
#[derive(Clone, Copy)]
pub struct Cursor {
    pub at: usize,
    pub n: usize,
    pub depth: u32,
    pub arrow: bool,
}

// Before the first token of a line.
pub fn cursor_at(at: usize, depth: u32) -> Cursor
    ensures { result ≡ cursor_at at depth }
{
    Cursor {
        at: at,
        n: 0,
        depth,
        arrow: false,
    }
}

// Past a blank byte.
pub fn past_blank(t: Cursor) -> Cursor
    requires { t.at < 1_048_576 }
    ensures { result ≡ blank_past t }
{
    Cursor {
        at: t.at + 1,
        n: t.n,
        depth: t.depth,
        arrow: t.arrow,
    }
}

// Behind a token of this kind and length.
pub fn behind_token(t: Cursor, kind: u32, size: usize) -> Cursor
    requires { (t.at + size ≤ 1_048_576) × ((t.n ≤ 8_388_608) × (t.depth ≤ 8_388_608)) }
    ensures { result ≡ token_past t kind size }
{
    Cursor {
        at: t.at + size,
        n: t.n + 1,
        depth: depth_by(t.depth, kind),
        arrow: kind == kinds::IMPLIES,
    }
}

// Past a token of this kind and length, whose record goes to the sink.
pub fn past_token<S: RecordSink>(
    tokens: &mut S,
    place: Place,
    t: Cursor,
    kind: u32,
    size: usize,
) -> Cursor
    requires size_bound { (place.start + (t.at + size) ≤ 1_048_576) × ((place.line ≤ 4_194_304) × ((t.n ≤ 8_388_608) × (t.depth ≤ 8_388_608))) }
    requires fits { Fits (S.room tokens.old) (Some (token_size * (place.first + t.n) + token_size)) }
    ensures value { result ≡ token_past t kind size }
    ensures taken { S.takes tokens.old tokens.new (token_size * (place.first + t.n)) (words_at place t.at kind size) }
{
    records::put_token(tokens, place, t.n, kind, t.at as u32, size as u32);
    behind_token(t, kind, size)
}

// Past the sign of this code. Most signs have one byte; that length is known without waiting for the code.
pub fn past_sign<S: RecordSink>(tokens: &mut S, place: Place, t: Cursor, code: u32) -> Cursor
    requires code_bound { (place.start + (t.at + (code / 128 + 1)) ≤ 1_048_576) × ((place.line ≤ 4_194_304) × ((t.n ≤ 8_388_608) × (t.depth ≤ 8_388_608))) }
    requires fits { Fits (S.room tokens.old) (Some (token_size * (place.first + t.n) + token_size)) }
    ensures value { result ≡ token_past t (code % 128) (code / 128 + 1) }
    ensures taken { S.takes tokens.old tokens.new (token_size * (place.first + t.n)) (words_at place t.at (code % 128) (code / 128 + 1)) }
{
    if code < 128 {
        return past_token(tokens, place, t, code, 1);
    }
    past_token(tokens, place, t, code % 128, (code / 128) as usize + 1)
}

// So many Dedents as the first tokens of the line.
pub fn put_dedents<S: RecordSink>(tokens: &mut S, place: Place, count: usize)
    requires start_bound { (place.start ≤ 1_048_576) × (place.line ≤ 4_194_304) }
    requires fits { Fits (S.room tokens.old) (Some (token_size * (place.first + count))) }
    ensures { S.takes tokens.old tokens.new (token_size * place.first) (token_words place.start (place.line + 1) (dedents count)) }
{
    for j in 0..count {
        records::put_token(tokens, place, j, kinds::DEDENT, 0, 0);
    }
}

// The Indent or the Dedents at a line's start; how many they are.
pub fn put_leading<S: RecordSink>(tokens: &mut S, place: Place, lead: Lead) -> usize
    requires start_bound { (place.start ≤ 1_048_576) × (place.line ≤ 4_194_304) }
    requires fits { Fits (S.room tokens.old) (Some (token_size * (place.first + length (leading lead)))) }
    ensures value { result ≡ length (leading lead) }
    ensures taken { S.takes tokens.old tokens.new (token_size * place.first) (token_words place.start (place.line + 1) (leading lead)) }
{
    match lead {
        Lead::Indent => {
            records::put_token(tokens, place, 0, kinds::INDENT, 0, 0);
            1
        }
        Lead::Dedents(count) => {
            put_dedents(tokens, place, count);
            count
        }
    }
}
