// UTF-8, by the Unicode Standard, Table 3-7: the scalar at a byte of a text, and the longest well-formed prefix.
#![tactic(auto)]

ghost use Rattle.std.specs.Prelude.{[], ◌∷◌, ◌≡◌, ◌+◌, ◌*◌, ◌%◌, ◌≤◌, ◌<◌, length, drop};
ghost use Rattle.rules.specs.Utf8.{◌to◌, continuation, in_ranges, leading_ones, scalar_size, scalar_value, well_formed_prefix};
ghost use Rattle.utf8.specs.Second.{lowest, highest};
ghost use Rattle.utf8.specs.Value.{low_first};
ghost use Rattle.utf8.specs.Passed.{is_ascii, Passed};

// How many bytes are tested for ASCII at once.
const BLOCK: usize = 32;

// The leading one bits of a byte: the leading zeros of its complement.
fn leading_ones(b: u8) -> u32
    ensures { result ≡ leading_ones b }
{
    u8::leading_zeros(!b)
}

// The lowest and the highest second byte after `first`; the lowest is above every second byte where `first` begins no scalar of two bytes or
// more.
#[tactic(auto, using(std::proofs::lemmas::Bool::Decides::nat_tests), unfolding(crate::specs::Second::lowest, crate::specs::Second::highest))]
fn second_range(first: u8) -> (u8, u8)
    ensures { (result.0 ≡ lowest first) × (result.1 ≡ highest first) }
{
    let lowest = match first {
        0xE0 => 0xA0,
        0xF0 => 0x90,
        0xC2..=0xF4 => 0x80,
        _ => 0xFF,
    };
    let highest = match first {
        0xED => 0x9F,
        0xF4 => 0x8F,
        _ => 0xBF,
    };
    (lowest, highest)
}

// Whether a byte from `lo` to `hi` stands at `at`.
fn in_range(text: &[u8], at: usize, lo: u8, hi: u8) -> bool
    ensures { result ≡ in_ranges (lo to hi ∷ []) (drop at text.now) }
{
    at < text.len() && lo <= text[at] && text[at] <= hi
}

// Whether the second byte of a scalar that begins with `first` stands at `at`.
fn second_at(text: &[u8], at: usize, first: u8) -> bool
    ensures { result ≡ in_ranges (lowest first to highest first ∷ []) (drop at text.now) }
{
    let (lo, hi) = second_range(first);
    in_range(text, at, lo, hi)
}

// Whether a later byte of a scalar stands at `at`.
fn later_at(text: &[u8], at: usize) -> bool
    ensures { result ≡ in_ranges (continuation ∷ []) (drop at text.now) }
{
    in_range(text, at, 0x80, 0xBF)
}

// The length of the scalar that begins at byte `at`; 0 where there is none.
pub fn scalar_size(text: &[u8], at: usize) -> usize
    ensures { result ≡ scalar_size (drop at text.now) }
{
    if text.len() <= at {
        return 0;
    }
    let first = text[at];
    let ones = leading_ones(first);
    if ones == 0 {
        return 1;
    }
    if !second_at(text, at + 1, first) {
        return 0;
    }
    match ones {
        2 => 2,
        3 if later_at(text, at + 2) => 3,
        4 if later_at(text, at + 2) && later_at(text, at + 3) => 4,
        _ => 0,
    }
}

// The bits of a scalar's first byte that belong to its value, by the scalar's length.
#[tactic(auto, using(std::proofs::lemmas::Bool::Decides::nat_tests), unfolding(crate::specs::Value::low_first))]
fn first_bits(size: usize, first: u8) -> u8
    ensures { result ≡ low_first size first }
{
    match size {
        0 | 1 => first,
        2 => first % 32,
        3 => first % 16,
        _ => first % 8,
    }
}

// A value with six bits of a later byte after it.
fn six_more(value: u32, later: u8) -> u32
    requires { value < 0x4000000 }
    ensures { result ≡ value * 64 + later % 64 }
{
    value * 64 + (later % 64) as u32
}

// The value of the scalar that begins at byte `at`.
pub fn scalar_value(text: &[u8], at: usize) -> u32
    ensures { result ≡ scalar_value (drop at text.now) }
{
    if text.len() <= at {
        return 0;
    }
    let size = scalar_size(text, at);
    let one = first_bits(size, text[at]) as u32;
    if size < 2 {
        return one;
    }
    let two = six_more(one, text[at + 1]);
    if size == 2 {
        return two;
    }
    let three = six_more(two, text[at + 2]);
    if size == 3 {
        return three;
    }
    six_more(three, text[at + 3])
}

// Whether the block at `at` is ASCII: no byte of it has its highest bit. The loop has no other way out, so that it is compiled
// to vector instructions.
fn is_ascii_block(text: &[u8], at: usize) -> bool
    requires { at + 32 ≤ length text.now }
    ensures { result ≡ is_ascii text.now at 32 }
{
    let mut bits: u8 = 0;
    for j in 0..BLOCK {
        bits |= text[at + j];
    }
    bits < 128
}

// Passes scalars from `from` on, up to `end` or past it, or to where no scalar begins. A step is as long as its scalar, so no range gives it.
fn pass_scalars(text: &[u8], from: usize, end: usize) -> usize
    requires { from ≤ length text.now }
    ensures { Passed text.now from end result }
{
    let mut i = from;
    while i < end {
        let size = scalar_size(text, i);
        if size == 0 {
            return i;
        }
        i += size;
    }
    i
}

// Passes the scalars that begin in the block at `from`: all of it at once where it is ASCII.
fn pass_block(text: &[u8], from: usize) -> usize
    requires { from + 32 ≤ length text.now }
    ensures { Passed text.now from (from + 32) result }
{
    if is_ascii_block(text, from) {
        return from + BLOCK;
    }
    pass_scalars(text, from, from + BLOCK)
}

// The length of the longest well-formed prefix: a block a turn, and what is left of the last one scalar by scalar. It isn't left to the library's
// `from_utf8`: by the project's rules wrong tests of a block (`bits < 129`) stay refused here.
pub fn well_formed_prefix(text: &[u8]) -> usize
    ensures { result ≡ well_formed_prefix text.now }
{
    let mut i: usize = 0;
    while BLOCK <= text.len() - i {
        let next = pass_block(text, i);
        if next < i + BLOCK {
            return next;
        }
        i = next;
    }
    pass_scalars(text, i, text.len())
}
