// Recorded lists held against the code, a case on each line: how many of them agree.
#![tactic(auto)]

ghost use Rattle.std.specs.Prelude.{◌≡◌, ◌+◌, ◌<◌, ◌^◌, if◌then◌else◌, None, Some};
ghost use Rattle.std.specs.Option.{option_or};
ghost use Rattle.replay.specs.declared.Failure.TheVariants.{OutOfMemory};

pub mod digests;
mod exact;
pub mod fields;
pub mod input;
pub mod units;

use crate::fields::Fields;
pub use exact::replay;
use std::alloc::{AllocError, AllocFailed, Global};
use std::io::{BufRead, BufReader, Read, Write};
use std::rt::Files;
use std::{fmt, fs, io};

// Why a case does not pass: its line cannot be read, or is not what the code answers; or there is no memory to hold it.
#[derive(Clone, Copy, Debug)]
pub enum Failure {
    Differs,
    OutOfMemory(AllocError),
}

impl From<AllocError> for Failure {
    ghost from_gives = { λ e r. r ≡ OutOfMemory e };

    fn from(error: AllocError) -> Failure {
        Failure::OutOfMemory(error)
    }
}

impl<T: Drop> From<AllocFailed<T>> for Failure {
    fn from(error: AllocFailed<T>) -> Failure {
        Failure::OutOfMemory(AllocError::from(error))
    }
}

// How many cases agree, how many do not, and the number of the first that does not.
#[derive(Clone, Copy, Debug, PartialEq, Eq)]
pub struct Tally {
    pub passed: u64,
    pub failed: u64,
    pub first: Option<u64>,
}

impl Tally {
    // Of no cases.
    pub fn new() -> Tally
        ensures { (result.passed ≡ 0) × (result.failed ≡ 0) × (result.first ≡ None) }
    {
        Tally {
            passed: 0,
            failed: 0,
            first: None,
        }
    }

    // With one case more.
    pub fn with(self, agrees: bool) -> Tally
        requires { self.passed + self.failed + 1 < 2 ^ 64 }
        ensures passed { result.passed ≡ (if agrees then self.passed + 1 else self.passed) }
        ensures failed { result.failed ≡ (if agrees then self.failed else self.failed + 1) }
        ensures first { result.first ≡ (if agrees then self.first else option_or self.first (Some (self.passed + self.failed + 1))) }
    {
        if agrees {
            return Tally {
                passed: self.passed + 1,
                ..self
            };
        }
        let number = self.passed + self.failed + 1;
        Tally {
            failed: self.failed + 1,
            first: self.first.or(Some(number)),
            ..self
        }
    }
}

// Its last line is `N passed, M failed`.
impl fmt::Display for Tally {
    fn fmt<W: fmt::Write>(&self, f: &mut fmt::Formatter<W>) -> fmt::Result {
        if let Some(first) = self.first {
            writeln!(f, "first to differ: case {first}")?;
        }
        write!(f, "{} passed, {} failed", self.passed, self.failed)
    }
}

// The most bytes of a list that are read.
const MOST: u64 = 2_097_152;

// A case agrees with the code.
fn agrees<S, F: FnMut(&mut S, &mut Fields<'_>) -> Result<(), Failure>>(
    line: &[u8],
    state: &mut S,
    test: &mut F,
) -> io::Result<bool>
    requires { (test : F) (x : _) (y : _) → F.pre test x y }
{
    let tested = match Fields::new(line) {
        Some(mut fields) => test(state, &mut fields),
        None => Err(Failure::Differs),
    };
    match tested {
        Ok(()) => Ok(true),
        Err(Failure::Differs) => Ok(false),
        Err(Failure::OutOfMemory(error)) => Err(io::Error::from(error)),
    }
}

// The tally of a list, from a state before its first case on. A byte that is no ASCII is as any other that fields do not know.
fn tally_of<R: Read + Drop, S, F: FnMut(&mut S, &mut Fields<'_>) -> Result<(), Failure>>(
    alloc: Global,
    list: R,
    state: &mut S,
    test: &mut F,
) -> io::Result<Tally>
    requires { (test : F) (x : _) (y : _) → F.pre test x y }
{
    let mut tally = Tally::new();
    for line in BufReader::new(alloc, list.take(MOST))?.split(alloc, b'\n') {
        let mut line = line?;
        for byte in line.iter_mut() {
            if !byte.is_ascii() {
                *byte = b'?';
            }
        }
        tally = tally.with(agrees(line.as_slice(), state, test)?);
    }
    Ok(tally)
}

// Holds each case of the lists on standard input, which must agree, and in the file `altered`, where each wrong answer must be found, against a
// test, which goes through a list from this state on.
pub fn replay_lists<
    R: Input + Print + Files + AllocGlobal,
    S: Drop,
    N: Fn() -> S,
    F: FnMut(&mut S, &mut Fields<'_>) -> Result<(), Failure>,
>(rt: &R, start: N, mut test: F) -> io::Result<()>
    requires start { N.IsAlwaysCallable start }
    requires test { (test : F) (x : _) (y : _) → F.pre test x y }
{
    let recorded = tally_of(rt.alloc(), rt.reader(), &mut start(), &mut test)?;
    println!(rt; "{recorded}")?;
    let altered = tally_of(
        rt.alloc(),
        fs::open(rt, "altered")?,
        &mut start(),
        &mut test,
    )?;
    println!(rt; "{altered}")
}

#[cfg(test)]
mod tests {
    use super::*;
    use crate::digests::Digest;
    use crate::fields::{FILL, Reply};

    // Each kind of field is read as what it spells, and what the code answers is found.
    #[test]
    fn fields_are_read(rt: HostRuntime) -> Result<(), Failure> {
        let alloc = rt.alloc();
        let line =
            b"2 7 18446744073709551615 00ff - 61*3 2 6162,63*2 - 1 5*2,4294967295 9625390261332436968 2 5 6 2 0 4";
        let mut fields = Fields::new(line).expect(&rt, "text");
        let numbers = fields.numbers(alloc)?;
        assert_eq!(rt;
            numbers.as_slice(),
            [7, 18_446_744_073_709_551_615].as_slice()
        );
        let bytes = fields.bytes(alloc)?;
        assert_eq!(rt; bytes.as_slice(), [0, 255].as_slice());
        let mut run = fields.bytes(alloc)?;
        assert_eq!(rt; run.len(), 0);
        fields.run(&mut run)?;
        assert_eq!(rt; run.as_slice(), b"aaa".as_slice());
        let texts = fields.buffers::<u8>(alloc)?;
        assert_eq!(rt; texts.len(), 2);
        assert_eq!(rt; texts[0].as_slice(), b"abcc".as_slice());
        assert_eq!(rt; texts[1].len(), 0);
        let words = fields.buffers::<u32>(alloc)?;
        assert_eq!(rt; words.len(), 1);
        assert_eq!(rt; words[0].as_slice(), [5, 5, 4_294_967_295].as_slice());
        let foobar = Digest::new().with(b"foobar".as_slice());
        fields.expect_number(foobar.0)?;
        fields.expect_words(&[5, 6, 0xAAAA_AAAA])?;
        let mut reply = Reply {
            words: [FILL; 16],
            count: 2,
        };
        reply.words[0] = 0;
        reply.words[1] = 4;
        fields.expect_reply(&reply)?;
        fields.expect_end()
    }

    // A list is replayed, and the one that is to be altered is asked for: there is none beside a test.
    #[test]
    fn a_list_is_replayed(rt: HostRuntime) {
        let replayed = replay(&rt, |fields| fields.expect_end());
        assert!(rt; replayed.is_err());
    }

    // The same of a recorded list, whose buffers have room; no character spells nothing, nor does one for bytes, and a comma may stand at the end.
    #[test]
    fn recorded_fields_are_read(rt: HostRuntime) -> Result<(), Failure> {
        let alloc = rt.alloc();
        let line =
            b"2 7 18446744073709551615 00ff - 61*3 2 6162,63*2 - 1 5*2,4294967295 9625390261332436968 2 5 6 2 0 4";
        let mut fields = Fields::new(line).expect(&rt, "text");
        let numbers = fields.numbers(alloc)?;
        assert_eq!(rt;
            numbers.as_slice(),
            [7, 18_446_744_073_709_551_615].as_slice()
        );
        let bytes = fields.recorded_bytes(alloc)?;
        assert_eq!(rt; bytes.as_slice(), [0, 255].as_slice());
        let mut run = fields.recorded_bytes(alloc)?;
        assert_eq!(rt; run.len(), 0);
        fields.recorded_run(3, &mut run)?;
        assert_eq!(rt; run.as_slice(), b"aaa".as_slice());
        let texts = fields.recorded_buffers::<u8>(3, 4, alloc)?;
        assert_eq!(rt; texts.len(), 2);
        assert_eq!(rt; texts[0].as_slice(), b"abcc".as_slice());
        assert_eq!(rt; texts[1].len(), 0);
        let words = fields.recorded_buffers::<u32>(2, 3, alloc)?;
        assert_eq!(rt; words.len(), 1);
        assert_eq!(rt; words[0].as_slice(), [5, 5, 4_294_967_295].as_slice());
        let foobar = Digest::new().with(b"foobar".as_slice());
        fields.expect_number(foobar.0)?;
        fields.expect_words(&[5, 6, 0xAAAA_AAAA])?;
        let mut reply = Reply {
            words: [FILL; 16],
            count: 2,
        };
        reply.words[0] = 0;
        reply.words[1] = 4;
        fields.expect_reply(&reply)?;
        fields.expect_end()?;
        let mut loose = Fields::new(b"x 3 6162, - z 2 5*2, ").expect(&rt, "text");
        assert_eq!(rt; loose.recorded_bytes(alloc)?.len(), 0);
        let texts = loose.recorded_buffers::<u8>(3, 2, alloc)?;
        assert_eq!(rt; texts.len(), 3);
        assert_eq!(rt; texts[0].as_slice(), b"ab".as_slice());
        assert_eq!(rt; texts[1].len() + texts[2].len(), 0);
        let words = loose.recorded_buffers::<u32>(2, 2, alloc)?;
        assert_eq!(rt; words.len(), 2);
        assert_eq!(rt; words[0].as_slice(), [5, 5].as_slice());
        assert_eq!(rt; words[1].len(), 0);
        loose.expect_end()
    }
}
