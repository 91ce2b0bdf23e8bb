// Holds the code against recorded texts, a text with its answers on each line, in the format of oracle/README.md.
#![tactic(auto)]

use replay::Failure;
use replay::fields::{Fields, Reply};
use replay::units::Unit;
use std::alloc::Global;
use std::io;

// More words and bytes than the records and the message of any recorded text need.
const LINES: usize = 2700;

const TOKENS: usize = 2000;

const MESSAGE: usize = 1500;

// The most bytes of a text.
const TEXT: usize = 1024;

// The reply to a reading, which is that of the next groups with its line words and token words.
fn expect_reading(fields: &mut Fields<'_>, text: &[u8]) -> Result<Reply, Failure> {
    let mut lines = [u32::FILL; LINES];
    let mut tokens = [u32::FILL; TOKENS];
    let reply = Reply::of(|reply| lexpage::lexpage_read(text, &mut lines, &mut tokens, reply));
    fields.expect_reply(&reply)?;
    fields.expect_words(&lines)?;
    fields.expect_words(&tokens)?;
    Ok(reply)
}

// A report replies with the size of the message; or, where there is none, as the reading does.
fn tells(report: &Reply, reading: &Reply, size: usize) -> bool {
    match report.words {
        [0, told, ..] => report.count == 2 && told == size as u64,
        _ => report == reading,
    }
}

// The next field spells the message of a text that reads with this reply.
fn expect_message(
    fields: &mut Fields<'_>,
    text: &[u8],
    reading: &Reply,
    alloc: Global,
) -> Result<(), Failure> {
    let mut message = fields.recorded_bytes(alloc)?;
    let size = message.len();
    if MESSAGE < size {
        return Err(Failure::Differs);
    }
    message.resize(MESSAGE, u8::FILL)?;
    let mut out = [u8::FILL; MESSAGE];
    let report = Reply::of(|reply| lexpage::lexpage_report(text, &mut out, reply));
    if message.as_slice() != out.as_slice() || !tells(&report, reading, size) {
        return Err(Failure::Differs);
    }
    Ok(())
}

// The next group spells the value of a byte literal.
fn expect_value(fields: &mut Fields<'_>, text: &[u8]) -> Result<(), Failure> {
    let reply = Reply::of(|reply| lexpage::lexpage_byte_value(text, reply));
    fields.expect_reply(&reply)
}

// The next groups spell the panel columns of the offsets 0 to n + 1.
fn expect_columns(fields: &mut Fields<'_>, text: &[u8]) -> Result<(), Failure> {
    for offset in 0..=text.len().saturating_add(1) {
        let reply = Reply::of(|reply| lexpage::lexpage_panel_column(text, offset, reply));
        fields.expect_reply(&reply)?;
    }
    Ok(())
}

// A text with its answers agrees with the code.
fn agrees(fields: &mut Fields<'_>, alloc: Global) -> Result<(), Failure> {
    let text = fields.recorded_bytes(alloc)?;
    let text = text.as_slice();
    if TEXT < text.len() {
        return Err(Failure::Differs);
    }
    let reading = expect_reading(fields, text)?;
    expect_message(fields, text, &reading, alloc)?;
    expect_value(fields, text)?;
    expect_columns(fields, text)?;
    fields.expect_end()
}

fn main(rt: HostRuntime) -> io::Result<()> {
    let alloc = rt.alloc();
    replay::replay_lists(&rt, || (), |_, fields| agrees(fields, alloc))
}
