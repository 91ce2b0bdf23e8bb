// The fields of a line of a recorded list, in the format of oracle/README.md, read one after the other.
ghost use Rattle.std.specs.Prelude.{◌≡◌, ◌↔◌, ◌<◌, ◌≤◌, ◌^◌, ℕ, List, Ok, Some, None, IsTrue, IsOk, IsNone, IfOk, OnOk, Option, MatchOption, MatchResult, length, replicate};
ghost use Rattle.std.specs.Fmt.{decimal};
ghost use Rattle.std.specs.Str.{IsUtf8};
ghost use Rattle.std.specs.Fn.{FnOnceReturnsAtMut};
ghost use Rattle.replay.specs.Fields.{left, next_field, after_field, SpellsNumber, SpellsEach, SpellsGroup, SpellsGroupTo, SpellsFront, SpellsFrontGroup};
ghost use Rattle.replay.specs.Units.{RecordsBytes, SpellsAll, SpellsRun, RecordsBuffer, SpellsDigest, PutsSpelled};

use crate::Failure;
use crate::digests::Digest;
use crate::units::{Recorded, Unit, put_recorded, put_recorded_run};
use itoa::Buffer;
use std::alloc::Global;

// What a word of a reply holds before a call.
pub const FILL: u64 = 0xAAAA_AAAA;

// A word of a reply or of a buffer.
trait Word: Copy {
    // The number that it is.
    ghost value: { Self → ℕ };

    fn value(self) -> u64
        ensures { result ≡ value self };
}

impl Word for u32 {
    ghost value = { λ word. word };

    fn value(self) -> u64 {
        u64::from(self)
    }
}

impl Word for u64 {
    ghost value = { λ word. word };

    fn value(self) -> u64 {
        self
    }
}

// What a call replies: how many words, at the front of all of them.
#[derive(Clone, Copy, Debug, PartialEq, Eq)]
pub struct Reply {
    pub words: [u64; 16],
    pub count: u64,
}

impl Reply {
    // That of this call.
    pub fn of<F: FnOnce(&mut [u64; 16]) -> u64>(call: F) -> Reply
        requires { F.IsAlwaysCallable call }
        ensures { FnOnceReturnsAtMut F.FnOnce call (replicate 16 FILL) result.count result.words }
    {
        let mut words = [FILL; 16];
        let count = call(&mut words);
        Reply { words, count }
    }
}

// A field spells this number in decimal.
fn spelled(field: &str, value: u64) -> bool
    ensures { IsTrue result ↔ (field.now ≡ decimal value) }
{
    let mut digits = Buffer::new();
    field == digits.format(value)
}

// The number that a field spells in decimal.
pub fn number(field: &str) -> Result<u64, Failure>
    ensures spelled { IfOk result (λ value. field.now ≡ decimal value) }
    ensures all_spelled { (value : ℕ) → value < 2 ^ 64 → field.now ≡ decimal value → result ≡ Ok value }
{
    match field.parse::<u64>() {
        Ok(value) if spelled(field, value) => Ok(value),
        _ => Err(Failure::Differs),
    }
}

// What is left of a line; no field where it is read to its end.
#[derive(Drop)]
pub struct Fields<'a> {
    pub rest: Option<&'a str>,
}

impl<'a> Fields<'a> {
    // Those of a line, where it is text.
    pub fn new(line: &'a [u8]) -> Option<Fields<'a>>
        ensures { MatchOption result (¬ (IsUtf8 line.now)) (λ fields. left fields ≡ Some line.now) }
    {
        Some(Fields {
            rest: Some(str::from_utf8(line).ok()?),
        })
    }

    // The next field.
    pub fn next(&mut self) -> Result<&'a str, Failure>
        ensures field { MatchResult result (λ field. next_field (left self.old) ≡ Some field.now) (λ _. next_field (left self.old) ≡ None) }
        ensures rest { left self.new ≡ after_field (left self.old) }
    {
        let rest = self.rest.ok_or(Failure::Differs)?;
        match rest.split_once(' ') {
            Some((field, after)) => {
                self.rest = Some(after);
                Ok(field)
            }
            None => {
                self.rest = None;
                Ok(rest)
            }
        }
    }

    // No field is left.
    pub fn expect_end(&self) -> Result<(), Failure>
        ensures { IsOk result ↔ (left self.now ≡ None) }
    {
        match self.rest {
            Some(_) => Err(Failure::Differs),
            None => Ok(()),
        }
    }

    // The number that the next field spells.
    pub fn number(&mut self) -> Result<u64, Failure>
        ensures spelled { IfOk result (λ value. next_field (left self.old) ≡ Some (decimal value)) }
        ensures all_spelled { (value : ℕ) → value < 2 ^ 64 → next_field (left self.old) ≡ Some (decimal value) → result ≡ Ok value }
        ensures rest { left self.new ≡ after_field (left self.old) }
    {
        number(self.next()?)
    }

    // The next field spells this number.
    pub fn expect_number(&mut self, value: u64) -> Result<(), Failure>
        ensures spelled { IsOk result ↔ (next_field (left self.old) ≡ Some (decimal value)) }
        ensures rest { left self.new ≡ after_field (left self.old) }
    {
        if spelled(self.next()?, value) {
            Ok(())
        } else {
            Err(Failure::Differs)
        }
    }

    // The numbers of a group.
    pub fn numbers(&mut self, alloc: Global) -> Result<Vec<u64>, Failure>
        ensures { IfOk result (λ numbers. SpellsGroup SpellsNumber (left self.old) numbers.items (left self.new)) }
    {
        let mut numbers = Vec::new(alloc);
        for _ in 0..self.number()? {
            numbers.push(self.number()?)?;
        }
        Ok(numbers)
    }

    // The bytes that the next field of a recorded list spells in hex.
    pub fn recorded_bytes(&mut self, alloc: Global) -> Result<Vec<u8>, Failure>
        ensures spelled { IfOk result (λ bytes. (field : List ℕ) × (next_field (left self.old) ≡ Some field) × SpellsAll RecordsBytes field bytes.items) }
        ensures rest { left self.new ≡ after_field (left self.old) }
    {
        let mut bytes = Vec::new(alloc);
        put_recorded(self.next()?, &mut bytes)?;
        Ok(bytes)
    }

    // The bytes or words of the run that the next field of a recorded list spells, put behind the others, where `room` holds them all.
    pub fn recorded_run<T: Recorded>(
        &mut self,
        room: usize,
        units: &mut Vec<T>,
    ) -> Result<(), Failure>
        ensures spelled { OnOk result ((field : List ℕ) × (next_field (left self.old) ≡ Some field) × PutsSpelled (SpellsRun T.recorded) field units.old.items units.new.items) }
        ensures fits { OnOk result (length units.new.items ≤ room) }
        ensures rest { left self.new ≡ after_field (left self.old) }
    {
        put_recorded_run(self.next()?, room, units)
    }

    // The buffer that the next field of a recorded list spells, in runs with commas between, where `room` holds it.
    fn recorded_buffer<T: Recorded>(
        &mut self,
        room: usize,
        alloc: Global,
    ) -> Result<Vec<T>, Failure>
        ensures spelled { IfOk result (λ units. (field : List ℕ) × (next_field (left self.old) ≡ Some field) × RecordsBuffer T.recorded field units.items) }
        ensures fits { IfOk result (λ units. length units.items ≤ room) }
        ensures rest { left self.new ≡ after_field (left self.old) }
    {
        let field = self.next()?;
        let mut units = Vec::new(alloc);
        if field.is_empty() {
            return Ok(units);
        }
        for run in field.strip_suffix(',').unwrap_or(field).split(',') {
            put_recorded_run(run, room, &mut units)?;
        }
        Ok(units)
    }

    // The buffers of a group of a recorded list, at most so many of them, where `room` holds each.
    pub fn recorded_buffers<T: Recorded>(
        &mut self,
        most: u64,
        room: usize,
        alloc: Global,
    ) -> Result<Vec<Vec<T>>, Failure>
        ensures { IfOk result (λ buffers. SpellsGroupTo (λ field units. RecordsBuffer T.recorded field units.items) most (left self.old) buffers.items (left self.new)) }
    {
        let mut buffers = Vec::new(alloc);
        for _ in 0..self.number()?.min(most) {
            buffers.push(self.recorded_buffer(room, alloc)?)?;
        }
        Ok(buffers)
    }

    // The next fields spell the digests of these buffers.
    pub fn expect_digests<T: Unit>(&mut self, buffers: &[Vec<T>]) -> Result<(), Failure>
        ensures spelled { OnOk result (SpellsEach (λ field units. SpellsDigest T.bytes field units.items) (left self.old) buffers.now (left self.new)) }
        ensures all_spelled { (after : Option (List ℕ)) → SpellsEach (λ field units. SpellsDigest T.bytes field units.items) (left self.old) buffers.now after → IsOk result }
    {
        for buffer in buffers {
            self.expect_number(Digest::new().with(buffer.as_slice()).0)?;
        }
        Ok(())
    }

    // The next fields spell the first `count` of these; the others are as they were before the call.
    fn expect_front<T: Word>(&mut self, words: &[T], count: u64) -> Result<(), Failure>
        ensures spelled { OnOk result (SpellsFront T.value (left self.old) count words.now (left self.new)) }
        ensures all_spelled { (after : Option (List ℕ)) → SpellsFront T.value (left self.old) count words.now after → IsOk result }
    {
        let Some((front, others)) = words.split_at_checked(count as usize) else {
            return Err(Failure::Differs);
        };
        for word in front {
            self.expect_number(word.value())?;
        }
        if others.iter().all(|word| word.value() == FILL) {
            Ok(())
        } else {
            Err(Failure::Differs)
        }
    }

    // The next group spells the front of these words.
    pub fn expect_words(&mut self, words: &[u32]) -> Result<(), Failure>
        ensures spelled { OnOk result ((count : ℕ) × SpellsFrontGroup (left self.old) count words.now (left self.new)) }
        ensures all_spelled { (count : ℕ) (after : Option (List ℕ)) → SpellsFrontGroup (left self.old) count words.now after → IsOk result }
    {
        let count = self.number()?;
        self.expect_front(words, count)
    }

    // The next group spells this reply.
    pub fn expect_reply(&mut self, reply: &Reply) -> Result<(), Failure>
        ensures spelled { OnOk result (SpellsFrontGroup (left self.old) reply.now.count reply.now.words (left self.new)) }
        ensures all_spelled { (after : Option (List ℕ)) → SpellsFrontGroup (left self.old) reply.now.count reply.now.words after → IsOk result }
    {
        self.expect_number(reply.count)?;
        self.expect_front(reply.words.as_slice(), reply.count)
    }
}
