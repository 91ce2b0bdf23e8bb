// Holds `history::apply_edits` against recorded lists of edits: a line for a page, then a line for each of its edits. Each edit is replayed with
// all that stand before it, from the fresh page on.
#![tactic(auto)]

use history::Listed;
use replay::Failure;
use replay::digests::Digest;
use replay::fields::{Fields, Reply, number};
use replay::units::Unit;
use std::alloc::Global;
use std::{io, mem};

// A page: the lengths of its buffers, the edits so far with the bytes that they put in, and the header after them.
#[derive(Drop)]
struct Page {
    text: usize,
    spare: usize,
    lines: usize,
    tokens: usize,
    edits: Vec<Listed>,
    bytes: Vec<u8>,
    header: [u64; 3],
}

// The room for a page's buffers, and for the edits of a page and their bytes.
const TEXT: u64 = 1_048_576;

const LINES: u64 = 2100;

const TOKENS: u64 = 2500;

const EDITS: usize = 600;

const BYTES: usize = 1_049_600;

// What a field's digits give; at a character that is none, and at one for which the number has no room, it is 0 again.
fn digits_of(field: &str) -> u64 {
    field.bytes().fold(0_u64, |value, b| match b {
        b'0'..=b'9' if value <= u64::MAX / 10 => {
            value.wrapping_mul(10).wrapping_add(u64::from(b - b'0'))
        }
        _ => 0,
    })
}

// The numbers of the next fields; where a field spells none, what its digits give, and 0 for those behind it.
fn read_lengths(fields: &mut Fields<'_>, lengths: &mut [u64; 4]) -> Result<(), Failure> {
    for length in lengths.iter_mut() {
        let field = fields.next()?;
        *length = digits_of(field);
        number(field)?;
    }
    Ok(())
}

impl Page {
    // With buffers of these lengths, as far as there is room, and no edits.
    fn new([text, spare, lines, tokens]: [u64; 4], alloc: Global) -> Page {
        Page {
            text: text.min(TEXT) as usize,
            spare: spare.min(TEXT) as usize,
            lines: lines.min(LINES) as usize,
            tokens: tokens.min(TOKENS) as usize,
            edits: Vec::new(alloc),
            bytes: Vec::new(alloc),
            header: [0; 3],
        }
    }

    // With the edit that the next fields spell.
    fn with_edit(mut self, fields: &mut Fields<'_>) -> Result<Page, Failure> {
        let a = fields.number()? as usize;
        let b = fields.number()? as usize;
        let start = self.bytes.len();
        fields.recorded_run(BYTES, &mut self.bytes)?;
        if EDITS <= self.edits.len() {
            return Err(Failure::Differs);
        }
        self.edits.push(Listed {
            a,
            b,
            start,
            end: self.bytes.len(),
        })?;
        Ok(self)
    }

    // The reply to the last edit and the digest of all buffers are those of the next fields, and the header follows.
    fn agrees(&mut self, fields: &mut Fields<'_>, alloc: Global) -> Result<(), Failure> {
        let mut text = vec![in alloc; u8::FILL; self.text]?;
        let mut spare = vec![in alloc; u8::FILL; self.spare]?;
        let mut lines = vec![in alloc; u32::FILL; self.lines]?;
        let mut tokens = vec![in alloc; u32::FILL; self.tokens]?;
        let outcome = history::apply_edits(
            &mut text,
            &mut spare,
            &mut lines,
            &mut tokens,
            &self.edits,
            &self.bytes,
        );
        let header = [
            u64::from(outcome.head.n),
            u64::from(outcome.head.m),
            u64::from(outcome.head.k),
        ];
        let before = mem::replace(&mut self.header, header);
        let reply = Reply::of(|reply| page_replies::put_edit(reply, outcome.last));
        fields.expect_reply(&reply)?;
        let digest = Digest::new()
            .with(text.as_slice())
            .with(spare.as_slice())
            .with(lines.as_slice())
            .with(tokens.as_slice());
        fields.expect_number(digest.0)?;
        if header != header_after(&reply, before) {
            return Err(Failure::Differs);
        }
        fields.expect_end()
    }
}

// The header after a reply: that of an acceptance, else the one before.
fn header_after(reply: &Reply, before: [u64; 3]) -> [u64; 3] {
    match reply.words {
        [0, n, m, k, ..] => [n, m, k],
        _ => before,
    }
}

// The line of a page, or of an edit of the page before it; a page is lost where an edit of it cannot be read.
fn agrees(page: &mut Option<Page>, fields: &mut Fields<'_>, alloc: Global) -> Result<(), Failure> {
    match fields.next()? {
        "p" => {
            let mut lengths = [0; 4];
            let read = read_lengths(fields, &mut lengths);
            *page = Some(Page::new(lengths, alloc));
            read?;
            fields.expect_end()
        }
        "e" => {
            let mut edited = page.take().ok_or(Failure::Differs)?.with_edit(fields)?;
            let agreed = edited.agrees(fields, alloc);
            *page = Some(edited);
            agreed
        }
        _ => Err(Failure::Differs),
    }
}

fn main(rt: HostRuntime) -> io::Result<()> {
    let alloc = rt.alloc();
    replay::replay_lists(
        &rt,
        || Some(Page::new([0; 4], alloc)),
        |page, fields| agrees(page, fields, alloc),
    )
}
