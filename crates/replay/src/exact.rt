// Lists, bytes, words, runs and buffers as they are spelled: a list is read to its end, a character alone is no spelling of bytes, no comma stands
// behind the last run, and a buffer is held to no room.
ghost use Rattle.std.specs.Prelude.{◌≡◌, ℕ, List, Some, IfOk, OnOk};
ghost use Rattle.replay.specs.Fields.{left, next_field, after_field, SpellsGroup};
ghost use Rattle.replay.specs.Units.{SpellsBytes, SpellsAll, SpellsRepeated, SpellsRun, SpellsBuffer, PutsSpelled};

use crate::fields::{Fields, number};
use crate::units::{MOST, Unit};
use crate::{Failure, Tally};
use std::alloc::Global;
use std::io::{BufRead, BufReader, Read, Write};
use std::rt::Files;
use std::{fs, io};

// The units that a text spells, put behind the others; `-` spells none.
pub fn put_units<T: Unit>(text: &str, units: &mut Vec<T>) -> Result<(), Failure>
    ensures { OnOk result (PutsSpelled (SpellsAll T.spells) text.now units.old.items units.new.items) }
{
    if text == "-" {
        return Ok(());
    }
    T::put(text, units)
}

// The one unit that a text spells, put behind the others so many times.
fn put_repeated<T: Unit>(text: &str, count: u64, units: &mut Vec<T>) -> Result<(), Failure>
    ensures { OnOk result (PutsSpelled (SpellsRepeated T.spells count) text.now units.old.items units.new.items) }
{
    let before = units.len();
    put_units(text, units)?;
    if units.len() != before + 1 || MOST < count {
        return Err(Failure::Differs);
    }
    let unit = units[before];
    units.resize(before + count as usize, unit)?;
    Ok(())
}

// The units of a run, put behind the others: as they are spelled, or one, `*` and how often it stands.
pub fn put_run<T: Unit>(run: &str, units: &mut Vec<T>) -> Result<(), Failure>
    ensures { OnOk result (PutsSpelled (SpellsRun T.spells) run.now units.old.items units.new.items) }
{
    match run.split_once('*') {
        Some((text, count)) => put_repeated(text, number(count)?, units),
        None => put_units(run, units),
    }
}

impl<'a> Fields<'a> {
    // The bytes that the next field spells in hex.
    pub fn bytes(&mut self, alloc: Global) -> Result<Vec<u8>, Failure>
        ensures spelled { IfOk result (λ bytes. (field : List ℕ) × (next_field (left self.old) ≡ Some field) × SpellsAll SpellsBytes field bytes.items) }
        ensures rest { left self.new ≡ after_field (left self.old) }
    {
        let mut bytes = Vec::new(alloc);
        put_units(self.next()?, &mut bytes)?;
        Ok(bytes)
    }

    // The bytes or words of the run that the next field spells, put behind the others.
    pub fn run<T: Unit>(&mut self, units: &mut Vec<T>) -> Result<(), Failure>
        ensures spelled { OnOk result ((field : List ℕ) × (next_field (left self.old) ≡ Some field) × PutsSpelled (SpellsRun T.spells) field units.old.items units.new.items) }
        ensures rest { left self.new ≡ after_field (left self.old) }
    {
        put_run(self.next()?, units)
    }

    // The buffer that the next field spells, in runs with commas between.
    fn buffer<T: Unit>(&mut self, alloc: Global) -> Result<Vec<T>, Failure>
        ensures spelled { IfOk result (λ units. (field : List ℕ) × (next_field (left self.old) ≡ Some field) × SpellsBuffer T.spells field units.items) }
        ensures rest { left self.new ≡ after_field (left self.old) }
    {
        let mut units = Vec::new(alloc);
        for run in self.next()?.split(',') {
            put_run(run, &mut units)?;
        }
        Ok(units)
    }

    // The buffers of a group.
    pub fn buffers<T: Unit>(&mut self, alloc: Global) -> Result<Vec<Vec<T>>, Failure>
        ensures { IfOk result (λ buffers. SpellsGroup (λ field units. SpellsBuffer T.spells field units.items) (left self.old) buffers.items (left self.new)) }
    {
        let mut buffers = Vec::new(alloc);
        for _ in 0..self.number()? {
            buffers.push(self.buffer(alloc)?)?;
        }
        Ok(buffers)
    }
}

// A case agrees with the code.
fn agrees<F: FnMut(&mut Fields<'_>) -> Result<(), Failure>>(
    line: &[u8],
    test: &mut F,
) -> io::Result<bool>
    requires { (state : F) (x : _) → F.pre state x }
{
    let tested = match Fields::new(line) {
        Some(mut fields) => test(&mut fields),
        None => Err(Failure::Differs),
    };
    match tested {
        Ok(()) => Ok(true),
        Err(Failure::Differs) => Ok(false),
        Err(Failure::OutOfMemory(error)) => Err(io::Error::from(error)),
    }
}

// The tally of a list.
fn tally_of<R: Read + Drop, F: FnMut(&mut Fields<'_>) -> Result<(), Failure>>(
    alloc: Global,
    list: R,
    test: &mut F,
) -> io::Result<Tally>
    requires { (state : F) (x : _) → F.pre state x }
{
    let mut tally = Tally::new();
    for line in BufReader::new(alloc, list)?.split(alloc, b'\n') {
        let line = line?;
        tally = tally.with(agrees(line.as_slice(), test)?);
    }
    Ok(tally)
}

// Holds each case of the lists on standard input, which must agree, and in the file `altered`, where each wrong answer must be found, against a test.
pub fn replay<
    R: Input + Print + Files + AllocGlobal,
    F: FnMut(&mut Fields<'_>) -> Result<(), Failure>,
>(rt: &R, mut test: F) -> io::Result<()>
    requires { (state : F) (x : _) → F.pre state x }
{
    let recorded = tally_of(rt.alloc(), rt.reader(), &mut test)?;
    println!(rt; "{recorded}")?;
    let altered = tally_of(rt.alloc(), fs::open(rt, "altered")?, &mut test)?;
    println!(rt; "{altered}")
}
