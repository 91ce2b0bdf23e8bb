// The levels that a line opens or closes: its width compared with those of the open levels.
#![tactic(auto)]

ghost use Rattle.std.specs.Prelude.{◌≡◌, ◌≤◌, length, OnErr, IfOk};
ghost use Rattle.rules.specs.Lists.{run};
ghost use Rattle.rules.specs.Line.{is_space, is_compared, compared, levels_of};
ghost use Rattle.refusals.specs.Limits.{line_limits_of};
ghost use Rattle.levels.specs.Levels.{compared_of, with_widths, Within};

use records::State;
use refusals::LineLimits;

// What stands at a line's start: an Indent, or so many Dedents.
#[derive(Clone, Copy)]
pub enum Lead {
    Indent,
    Dedents(usize),
}

// A width that is none of the open ones; or a limit's refusal, by its number.
#[derive(Clone, Copy)]
pub enum Misfit {
    Unequal,
    Beyond(u32),
}

// The line's width compared with the open levels: a wider one opens a level, another closes those that are wider.
#[tactic(auto, using(std::proofs::lemmas::Bool::Decides::nat_tests), unfolding(rules::specs::Line::compared, rules::specs::Line::opened, rules::specs::Line::closed))]
fn compare_levels(limits: LineLimits, width: u32, state: &mut State) -> Result<Lead, Misfit>
    ensures value { compared_of result state.new ≡ compared (line_limits_of limits) width state.old.widths }
    ensures within { Within result }
    ensures after { state.new ≡ with_widths (compared (line_limits_of limits) width state.old.widths) state.old }
{
    let levels = state.levels();
    if state.width_of(levels) < width {
        if limits.levels <= levels {
            return Err(Misfit::Beyond(limits.deep));
        }
        state.open_level(width);
        return Ok(Lead::Indent);
    }
    let left = state.levels_within(width);
    if state.width_of(left) != width {
        return Err(Misfit::Unequal);
    }
    state.close_levels(left);
    Ok(Lead::Dedents(levels - left))
}

// The line's width is compared: it is not blank, no bracket is open and no arrow is carried.
#[tactic(auto, using(std::proofs::lemmas::Bool::Decides::nat_tests), unfolding(rules::specs::Line::is_compared))]
fn is_compared(line: &[u8], spaces: usize, state: &State) -> bool
    requires { spaces ≡ run is_space line.now }
    ensures { result ≡ is_compared state.now line.now }
{
    if state.depth() != 0 {
        return false;
    }
    if state.arrow() {
        return false;
    }
    !indent::line_is_blank_or_comment(line, spaces)
}

// The levels at the start of a line that begins with so many spaces.
#[tactic(auto, unfolding(rules::specs::Line::levels_of))]
pub fn levels_of(
    limits: LineLimits,
    line: &[u8],
    spaces: usize,
    state: &mut State,
) -> Result<Lead, Misfit>
    requires { (length line.now ≤ 1_048_576) × (spaces ≡ run is_space line.now) }
    ensures value { compared_of result state.new ≡ levels_of (line_limits_of limits) state.old line.now }
    ensures within { Within result }
    ensures after { state.new ≡ with_widths (levels_of (line_limits_of limits) state.old line.now) state.old }
{
    if is_compared(line, spaces, state) {
        return compare_levels(limits, indent::compute_indent(line, spaces), state);
    }
    Ok(Lead::Dedents(0))
}
