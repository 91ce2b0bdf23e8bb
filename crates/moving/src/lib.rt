// Records moved within their buffer. A record is SIZE words, and its words A and B are shifted: the one by d, the other by e. These numbers are const
// parameters: a trait would say once that A and B lie in the record, and give each number twice, to the code and to the clauses, for both kinds.
#![tactic(auto)]

ghost use Rattle.std.specs.Prelude.{◌≡◌, ◌+◌, ◌*◌, ◌<◌, ◌≤◌, length};
ghost use Rattle.std.proofs.lemmas.List.Edits.{sets};
ghost use Rattle.rules.specs.Records.{line_size, token_size};
ghost use Rattle.moving.specs.Moved.{distance, moved_record, moved_records, moved_tokens, moved_lines};

use records::{LINE, TOKEN};

// How many records are brought at a time, so that they are shifted while they are in the cache.
const BATCH: usize = 128;

// From the base old to the base new, in the arithmetic of words.
fn distance_of(old: u32, new: u32) -> u32
    ensures { result ≡ distance old new }
{
    new.wrapping_sub(old)
}

// The record at word `at`, where it stands.
fn shift_record<const SIZE: usize, const A: usize, const B: usize>(
    ws: &mut [u32],
    at: usize,
    d: u32,
    e: u32,
)
    requires shifted_in_record { (A < SIZE) × (B < SIZE) }
    requires in_bounds { at + SIZE ≤ length ws.old }
    ensures { ws.new ≡ sets ws.old at (moved_record SIZE A B d e ws.old at) }
{
    let x = ws[at + A].wrapping_add(d);
    let y = ws[at + B].wrapping_add(e);
    ws[at + A] = x;
    ws[at + B] = y;
}

// `count` records where they stand.
fn shift_records<const SIZE: usize, const A: usize, const B: usize>(
    ws: &mut [u32],
    from: usize,
    count: usize,
    d: u32,
    e: u32,
)
    requires shifted_in_record { (A < SIZE) × (B < SIZE) }
    requires in_bounds { SIZE * (from + count) ≤ length ws.old }
    ensures { ws.new ≡ sets ws.old (SIZE * from) (moved_records SIZE A B d e ws.old from count) }
{
    for j in 0..count {
        shift_record::<SIZE, A, B>(ws, SIZE * (from + j), d, e);
    }
}

// `count` records from `from` to `to`, which may overlap: their words are moved, and then they are shifted where they stand.
fn bring_records<const SIZE: usize, const A: usize, const B: usize>(
    ws: &mut [u32],
    from: usize,
    to: usize,
    count: usize,
    d: u32,
    e: u32,
)
    requires shifted_in_record { (A < SIZE) × (B < SIZE) }
    requires in_bounds { (SIZE * (from + count) ≤ length ws.old) × (SIZE * (to + count) ≤ length ws.old) }
    ensures { ws.new ≡ sets ws.old (SIZE * to) (moved_records SIZE A B d e ws.old from count) }
{
    ws.copy_within(SIZE * from..SIZE * (from + count), SIZE * to);
    shift_records::<SIZE, A, B>(ws, to, count, d, e);
}

// `count` records brought down, the first batch first, so that none is written over before it is moved.
fn move_down<const SIZE: usize, const A: usize, const B: usize>(
    ws: &mut [u32],
    from: usize,
    to: usize,
    count: usize,
    d: u32,
    e: u32,
)
    requires shifted_in_record { (A < SIZE) × (B < SIZE) }
    requires downward { to ≤ from }
    requires in_bounds { SIZE * (from + count) ≤ length ws.old }
    ensures { ws.new ≡ sets ws.old (SIZE * to) (moved_records SIZE A B d e ws.old from count) }
{
    for i in 0..count.div_ceil(BATCH) {
        let j = BATCH * i;
        let n = BATCH.min(count - j);
        bring_records::<SIZE, A, B>(ws, from + j, to + j, n, d, e);
    }
}

// `count` records brought up, the last batch first. Up and down stay two: what holds between two batches is that of the records behind in the one,
// and that of the records before in the other.
fn move_up<const SIZE: usize, const A: usize, const B: usize>(
    ws: &mut [u32],
    from: usize,
    to: usize,
    count: usize,
    d: u32,
    e: u32,
)
    requires shifted_in_record { (A < SIZE) × (B < SIZE) }
    requires upward { from ≤ to }
    requires in_bounds { SIZE * (to + count) ≤ length ws.old }
    ensures { ws.new ≡ sets ws.old (SIZE * to) (moved_records SIZE A B d e ws.old from count) }
{
    for i in (0..count.div_ceil(BATCH)).rev() {
        let j = BATCH * i;
        let n = BATCH.min(count - j);
        bring_records::<SIZE, A, B>(ws, from + j, to + j, n, d, e);
    }
}

// `count` records from `from` to `to`, which may overlap. The numbers stay apart: each batch has places and a count of its own, so that a struct
// of them would be made again at each call.
fn move_records<const SIZE: usize, const A: usize, const B: usize>(
    ws: &mut [u32],
    from: usize,
    to: usize,
    count: usize,
    d: u32,
    e: u32,
)
    requires shifted_in_record { (A < SIZE) × (B < SIZE) }
    requires in_bounds { (SIZE * (from + count) ≤ length ws.old) × (SIZE * (to + count) ≤ length ws.old) }
    ensures { ws.new ≡ sets ws.old (SIZE * to) (moved_records SIZE A B d e ws.old from count) }
{
    if from < to {
        move_up::<SIZE, A, B>(ws, from, to, count, d, e);
    } else if to < from {
        move_down::<SIZE, A, B>(ws, from, to, count, d, e);
    } else if d != 0 || e != 0 {
        shift_records::<SIZE, A, B>(ws, from, count, d, e);
    }
}

// `count` token records from `from` to `to`, which may overlap: positions from p to p2, lines from l to l2.
pub fn move_tokens(
    tokens: &mut [u32],
    from: usize,
    to: usize,
    count: usize,
    p: u32,
    p2: u32,
    l: u32,
    l2: u32,
)
    requires { (token_size * (from + count) ≤ length tokens.old) × (token_size * (to + count) ≤ length tokens.old) }
    ensures { tokens.new ≡ sets tokens.old (token_size * to) (moved_tokens p p2 l l2 tokens.old from count) }
{
    move_records::<TOKEN, 1, 3>(
        tokens,
        from,
        to,
        count,
        distance_of(p, p2),
        distance_of(l, l2),
    );
}

// `count` line records from `from` to `to`, which may overlap: starts from p to p2, first tokens from k to k2.
pub fn move_lines(
    lines: &mut [u32],
    from: usize,
    to: usize,
    count: usize,
    p: u32,
    p2: u32,
    k: u32,
    k2: u32,
)
    requires { (line_size * (from + count) ≤ length lines.old) × (line_size * (to + count) ≤ length lines.old) }
    ensures { lines.new ≡ sets lines.old (line_size * to) (moved_lines p p2 k k2 lines.old from count) }
{
    move_records::<LINE, 0, 1>(
        lines,
        from,
        to,
        count,
        distance_of(p, p2),
        distance_of(k, k2),
    );
}
