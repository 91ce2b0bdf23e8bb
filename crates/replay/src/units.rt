// What buffers hold, bytes or words, and how recorded lists spell it.
ghost use Rattle.std.specs.Prelude.{◌≡◌, ◌<◌, ◌≤◌, ℕ, List, [], ◌∷◌, false, IfOk, OnOk, length};
ghost use Rattle.std.specs.Fmt.{digit_glyph};
ghost use Rattle.std.specs.Int.{to_le_bytes, w32};
ghost use Rattle.replay.specs.Fnv.{fnv};
ghost use Rattle.replay.specs.Units.{SpellsBytes, RecordsBytes, SpellsWord, SpellsAll, SpellsRepeated, SpellsRun, PutsSpelled};

use crate::Failure;
use crate::digests::Digest;
pub use crate::exact::{put_run, put_units};
use crate::fields::number;

// The most bytes or words of a run.
pub(crate) const MOST: u64 = 1_048_577;

// A byte or a word.
pub trait Unit: Copy {
    // The bytes that it is digested by.
    ghost bytes: { Self → List ℕ };

    // A text spells these.
    ghost spells: { List ℕ → List Self → Type 0 };

    // What it is in a buffer before a call.
    const FILL: Self;

    // Those that a text spells, put behind the others.
    fn put(text: &str, units: &mut Vec<Self>) -> Result<(), Failure>
        ensures { OnOk result (PutsSpelled spells text.now units.old.items units.new.items) };

    // A digest with it.
    fn digested(self, digest: Digest) -> Digest
        ensures { result.0 ≡ fnv digest.0 (bytes self) };
}

// A byte or a word as the recorded lists spell it.
pub trait Recorded: Unit {
    // A text of a recorded list spells these.
    ghost recorded: { List ℕ → List Self → Type 0 };

    // The room that one takes at least which is repeated.
    const ROOM: usize;

    // Those that a text of a recorded list spells, put behind the others.
    fn put_text(text: &str, units: &mut Vec<Self>) -> Result<(), Failure>
        ensures { OnOk result (PutsSpelled recorded text.now units.old.items units.new.items) };
}

// The value of a hex digit. The library's digits may also be capitals.
fn hex_digit(b: u8) -> Result<u8, Failure>
    ensures { IfOk result (λ digit. (digit < 16) × (b ≡ digit_glyph false digit)) }
{
    match b {
        b'0'..=b'9' => Ok(b - b'0'),
        b'a'..=b'f' => Ok(b - b'a' + 10),
        _ => Err(Failure::Differs),
    }
}

// Bytes are spelled in hex, two digits each.
impl Unit for u8 {
    ghost bytes = { λ byte. byte ∷ [] };

    ghost spells = { SpellsBytes };

    const FILL: u8 = 0xAA;

    fn put(text: &str, bytes: &mut Vec<u8>) -> Result<(), Failure> {
        let mut rest = text.as_bytes();
        while let [high, low, behind @ ..] = rest {
            bytes.push(16 * hex_digit(*high)? + hex_digit(*low)?)?;
            rest = behind;
        }
        if text.is_empty() || !rest.is_empty() {
            return Err(Failure::Differs);
        }
        Ok(())
    }

    fn digested(self, digest: Digest) -> Digest {
        digest.with_byte(self)
    }
}

// One character spells no bytes.
impl Recorded for u8 {
    ghost recorded = { RecordsBytes };

    const ROOM: usize = 1;

    fn put_text(text: &str, bytes: &mut Vec<u8>) -> Result<(), Failure> {
        if text.len() == 1 {
            return Ok(());
        }
        u8::put(text, bytes)
    }
}

// A word is spelled in decimal, and digested lowest byte first.
impl Unit for u32 {
    ghost bytes = { λ word. to_le_bytes w32 word };

    ghost spells = { SpellsWord };

    const FILL: u32 = 0xAAAA_AAAA;

    fn put(text: &str, words: &mut Vec<u32>) -> Result<(), Failure> {
        let word = u32::try_from(number(text)?).map_err(|_| Failure::Differs)?;
        words.push(word)?;
        Ok(())
    }

    fn digested(self, digest: Digest) -> Digest {
        let [a, b, c, d] = self.to_le_bytes();
        digest.with_byte(a).with_byte(b).with_byte(c).with_byte(d)
    }
}

impl Recorded for u32 {
    ghost recorded = { SpellsWord };

    const ROOM: usize = 0;

    fn put_text(text: &str, words: &mut Vec<u32>) -> Result<(), Failure> {
        u32::put(text, words)
    }
}

// The units that a text of a recorded list spells, put behind the others; `-` spells none.
pub fn put_recorded<T: Recorded>(text: &str, units: &mut Vec<T>) -> Result<(), Failure>
    ensures { OnOk result (PutsSpelled (SpellsAll T.recorded) text.now units.old.items units.new.items) }
{
    if text == "-" {
        return Ok(());
    }
    T::put_text(text, units)
}

// The one unit that a text spells, put behind the others so many times, where `room` holds them all.
fn put_repeated<T: Recorded>(
    text: &str,
    count: u64,
    room: usize,
    units: &mut Vec<T>,
) -> Result<(), Failure>
    ensures spelled { OnOk result (PutsSpelled (SpellsRepeated T.recorded count) text.now units.old.items units.new.items) }
    ensures fits { OnOk result (length units.new.items ≤ room) }
{
    let before = units.len();
    put_recorded(text, units)?;
    if units.len() != before + 1 || MOST < count {
        return Err(Failure::Differs);
    }
    if room < before || room - before < T::ROOM.max(count as usize) {
        return Err(Failure::Differs);
    }
    let unit = units[before];
    units.resize(before + count as usize, unit)?;
    Ok(())
}

// The units of a run of a recorded list, put behind the others, where `room` holds them all: as they are spelled, or one, `*` and how often it stands.
pub fn put_recorded_run<T: Recorded>(
    run: &str,
    room: usize,
    units: &mut Vec<T>,
) -> Result<(), Failure>
    ensures spelled { OnOk result (PutsSpelled (SpellsRun T.recorded) run.now units.old.items units.new.items) }
    ensures fits { OnOk result (length units.new.items ≤ room) }
{
    match run.split_once('*') {
        Some((text, count)) => put_repeated(text, number(count)?, room, units),
        None => {
            put_recorded(run, units)?;
            if room < units.len() {
                return Err(Failure::Differs);
            }
            Ok(())
        }
    }
}
