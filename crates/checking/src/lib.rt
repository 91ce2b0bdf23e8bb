// A page held against a fresh reading of its text, line by line.
#![tactic(auto)]

ghost use Rattle.std.specs.Prelude.{◌≡◌, ◌&&◌, ◌+◌, ◌*◌, ◌≤◌, ◌<◌, length};
ghost use Rattle.rules.specs.Records.{line_size, token_size, header, read_lines, fresh_reading};
ghost use Rattle.rules.specs.Page.{is_recorded};
ghost use Rattle.rules.specs.Check.{check_reply};
ghost use Rattle.header.specs.Pages.{lent_page};
ghost use Rattle.refusals.specs.Limits.{line_limits_of};
ghost use Rattle.refusals.specs.Replies.{reply_of};
ghost use Rattle.checking.specs.Answers.{check_values};
ghost use Rattle.checking.specs.Held.{NextHeld};

use header::Page;
use lines::Next;
use records::{Held, Place, State};
use refusals::{LineLimits, Refusal};
use tables::Tables;

// Whether all words of lines and all of tokens were the same so far.
fn both_same(lines: &Held, tokens: &Held) -> bool
    ensures { result ≡ (lines.now.same && tokens.now.same) }
{
    lines.same() && tokens.same()
}

// The line at this place, held against the records of a page: where the next one starts; None once a word is another, or where it does not read.
// `next_line` would read it to its end, and say why it does not read.
fn next_held<'p>(
    tables: &Tables,
    text: &[u8],
    lines: &mut Held<'p>,
    tokens: &mut Held<'p>,
    place: Place,
    limits: LineLimits,
    state: &mut State,
) -> Option<Next>
    requires start_in_bounds { (place.start < length text.now) × (length text.now ≤ 1_048_576) }
    requires few { (place.line ≤ 1_048_576) × ((place.first ≤ 3_000_000) × (state.old.depth ≤ 4_194_304)) }
    ensures { NextHeld (line_limits_of limits) text.now place state.old state.new lines.old lines.new tokens.old tokens.new result }
{
    records::put_line(lines, place, state);
    if !lines.same() {
        return None;
    }
    let at = place.start as usize;
    let end = lines::line_end(text, at);
    let Ok(count) = line::read_line_until_over(tables, &text[at..end], tokens, place, limits, state)
    else {
        return None;
    };
    if !both_same(lines, tokens) {
        return None;
    }
    Some(Next {
        at: lines::past_lf(text, end),
        tokens: count,
    })
}

// The lines of a text, held against the records of a page with `count` lines and `total` tokens, up to the first difference: `read_on` would pass
// it. A turn passes a line, whose length no range gives.
fn lines_agree(
    text: &[u8],
    lines: &[u32],
    tokens: &[u32],
    count: usize,
    total: usize,
    limits: LineLimits,
) -> bool
    requires text_bound { length text.now ≤ 1_048_576 }
    requires sizes { (length lines.now ≡ line_size * (count + 1)) × (length tokens.now ≡ token_size * total) }
    ensures { result ≡ is_recorded (record { head = header (length text.now) count total; lines = lines.now; tokens = tokens.now }) (read_lines (line_limits_of limits) text.now) }
{
    let tables = Tables::new();
    let mut line_sink = Held::new(lines);
    let mut token_sink = Held::new(tokens);
    let mut state = State::initial();
    let mut place = Place {
        line: 0,
        first: 0,
        start: 0,
    };
    while (place.start as usize) < text.len() {
        let Some(next) = next_held(
            &tables,
            text,
            &mut line_sink,
            &mut token_sink,
            place,
            limits,
            &mut state,
        ) else {
            return false;
        };
        place = Place {
            line: place.line + 1,
            first: place.first + next.tokens,
            start: next.at as u32,
        };
    }
    if place.line != count {
        return false;
    }
    if place.first + state.levels() != total {
        return false;
    }
    lines::put_end(&mut line_sink, &mut token_sink, place, &state);
    both_same(&line_sink, &token_sink)
}

// A text with as many line and token words as `count` lines and `total` tokens need: they are its fresh reading.
fn is_fresh(text: &[u8], lines: &[u32], tokens: &[u32], count: usize, total: usize) -> bool
    requires { (length lines.now ≡ line_size * (count + 1)) × (length tokens.now ≡ token_size * total) }
    ensures { result ≡ is_recorded (record { head = header (length text.now) count total; lines = lines.now; tokens = tokens.now }) (fresh_reading text.now) }
{
    let limits = refusals::barge_limits();
    match refusals::test_text(limits, text) {
        Ok(()) => lines_agree(text, lines, tokens, count, total, limits.line()),
        Err(_) => false,
    }
}

// A page: refused by its header; otherwise yes exactly if header and records are those of a fresh reading. Nothing is written.
pub fn check(page: Page) -> Result<bool, Refusal>
    ensures { reply_of check_values result ≡ check_reply (lent_page page.entry) }
{
    if !page.fits() {
        return Err(Refusal::Unfit);
    }
    let size = page.head.n as usize;
    let count = page.head.m as usize;
    let total = page.head.k as usize;
    let line_words = records::LINE * (count + 1);
    let token_words = records::TOKEN * total;
    Ok(is_fresh(
        &page.text[..size],
        &page.lines[..line_words],
        &page.tokens[..token_words],
        count,
        total,
    ))
}
