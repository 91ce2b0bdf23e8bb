// Holds the functions of `lexpage` against recorded calls: a call a line, with its inputs, its reply, and a digest of each buffer afterwards.
#![tactic(auto)]

use replay::Failure;
use replay::fields::{FILL, Fields, Reply};
use replay::units::Unit;
use std::alloc::Global;
use std::io;
use std::str::FromStr;

// The functions of `lexpage`.
#[derive(Clone, Copy)]
enum Function {
    Read,
    PanelColumn,
    ByteValue,
    NumberParts,
    Report,
    TokenText,
    WalkStep,
    Fresh,
    Edit,
    Check,
}

// By their names, without `lexpage_`.
impl FromStr for Function {
    type Err = Failure;

    fn from_str(name: &str) -> Result<Function, Failure> {
        match name {
            "read" => Ok(Function::Read),
            "panel_column" => Ok(Function::PanelColumn),
            "byte_value" => Ok(Function::ByteValue),
            "number_parts" => Ok(Function::NumberParts),
            "report" => Ok(Function::Report),
            "token_text" => Ok(Function::TokenText),
            "walk_step" => Ok(Function::WalkStep),
            "fresh" => Ok(Function::Fresh),
            "edit" => Ok(Function::Edit),
            "check" => Ok(Function::Check),
            _ => Err(Failure::Differs),
        }
    }
}

// How many numbers, buffers of bytes and buffers of words a call has at most, and the room of a buffer.
const NUMBERS: usize = 6;

const BYTES: usize = 3;

const BYTE_ROOM: usize = 1_049_600;

const WORDS: usize = 2;

const WORD_ROOM: usize = 5000;

// The arguments of a call, in the order of `lexpage.h`: numbers, buffers of bytes and buffers of words, each by themselves. What is not given is
// 0 or empty, and so many buffers of each are given.
#[derive(Drop)]
struct Arguments {
    numbers: Vec<u64>,
    bytes: Vec<Vec<u8>>,
    words: Vec<Vec<u32>>,
    bytes_given: usize,
    words_given: usize,
}

// So many buffers, those behind the others empty.
fn filled_up<T: Unit>(
    mut buffers: Vec<Vec<T>>,
    count: usize,
    alloc: Global,
) -> Result<Vec<Vec<T>>, Failure> {
    for _ in buffers.len()..count {
        buffers.push(Vec::new(alloc))?;
    }
    Ok(buffers)
}

impl Arguments {
    // Those that the next fields spell.
    fn read(fields: &mut Fields<'_>, alloc: Global) -> Result<Arguments, Failure> {
        let mut numbers = fields.numbers(alloc)?;
        if NUMBERS < numbers.len() {
            return Err(Failure::Differs);
        }
        numbers.resize(NUMBERS, 0)?;
        let bytes = fields.recorded_buffers(BYTES as u64, BYTE_ROOM, alloc)?;
        let words = fields.recorded_buffers(WORDS as u64, WORD_ROOM, alloc)?;
        let (bytes_given, words_given) = (bytes.len(), words.len());
        Ok(Arguments {
            numbers,
            bytes: filled_up(bytes, BYTES, alloc)?,
            words: filled_up(words, WORDS, alloc)?,
            bytes_given,
            words_given,
        })
    }
}

// The lowest 32 bits.
fn low(number: u64) -> u32 {
    (number % (1 << 32)) as u32
}

// The reply of a function. A match says this plainer than a table of closures: each function has other arguments.
fn call(function: Function, arguments: &mut Arguments) -> Result<Reply, Failure> {
    let numbers = arguments.numbers.as_slice();
    let bytes = arguments.bytes.as_mut_slice();
    let words = arguments.words.as_mut_slice();
    let ([n, m, k, a, b, _], [first, second, third], [left, right]) = (numbers, bytes, words) else {
        return Err(Failure::Differs);
    };
    let i = *n as usize;
    let (n, m, k) = (low(*n), low(*m), low(*k));
    let (a, b) = (*a as usize, *b as usize);
    Ok(match function {
        Function::Read => Reply::of(|reply| lexpage::lexpage_read(first, left, right, reply)),
        Function::PanelColumn => {
            Reply::of(|reply| lexpage::lexpage_panel_column(first, i, reply))
        }
        Function::ByteValue => Reply::of(|reply| lexpage::lexpage_byte_value(first, reply)),
        Function::NumberParts => Reply::of(|reply| lexpage::lexpage_number_parts(first, reply)),
        Function::Report => Reply::of(|reply| lexpage::lexpage_report(first, second, reply)),
        Function::WalkStep => Reply::of(|reply| lexpage::lexpage_walk_step(left, i, reply)),
        Function::Fresh => Reply::of(|reply| lexpage::lexpage_fresh(left, reply)),
        Function::Check => Reply::of(|reply| {
            lexpage::lexpage_check(n, m, k, first, left, right, reply)
        }),
        Function::TokenText => Reply::of(|reply| {
            lexpage::lexpage_token_text(n, m, k, first, left, right, a, second, reply)
        }),
        Function::Edit => Reply::of(|reply| {
            lexpage::lexpage_edit(n, m, k, first, second, left, right, a, b, third, reply)
        }),
    })
}

// What is answered for a function that is unknown: more words than any reply has, each as it was before the call.
fn expect_unknown(fields: &mut Fields<'_>) -> Result<(), Failure> {
    fields.expect_number(99)?;
    for _ in 0..16 {
        fields.expect_number(FILL)?;
    }
    Ok(())
}

// A call agrees with the code.
fn agrees(fields: &mut Fields<'_>, alloc: Global) -> Result<(), Failure> {
    let function = fields.next()?.parse::<Function>();
    let mut arguments = Arguments::read(fields, alloc)?;
    match function {
        Ok(function) => fields.expect_reply(&call(function, &mut arguments)?)?,
        Err(_) => expect_unknown(fields)?,
    }
    let bytes = arguments.bytes.get(..arguments.bytes_given);
    fields.expect_digests(bytes.ok_or(Failure::Differs)?)?;
    let words = arguments.words.get(..arguments.words_given);
    fields.expect_digests(words.ok_or(Failure::Differs)?)?;
    fields.expect_end()
}

fn main(rt: HostRuntime) -> io::Result<()> {
    let alloc = rt.alloc();
    replay::replay_lists(&rt, || (), |_, fields| agrees(fields, alloc))
}
