// The state before a line, and its words in a line record.
ghost use Rattle.std.specs.Prelude.{◌≡◌, true, ◌+◌, ◌≤◌, ◌<◌, ltb, ◌++◌, [], ◌∷◌, length, take, drop};
ghost use Rattle.std.proofs.lemmas.List.Edits.{sets};
ghost use Rattle.rules.specs.Lists.{begins, last_d, trim_end};
ghost use Rattle.rules.specs.Line.{initial};
ghost use Rattle.rules.specs.Limits.{max_levels};
ghost use Rattle.rules.specs.Records.{width_words, state_words};
ghost use Rattle.records.specs.States.{state_levels, state_at};

use std::marker::Model;

// The levels whose widths a line record holds.
pub const LEVELS: usize = 16;

// The words of a state: depth, arrow, open levels, then the widths.
pub const STATE: usize = 19;

// The depth of the open brackets, whether the last token is an arrow, and the widths of the open levels, outermost first; a width past them is 0, as
// in a line record.
#[derive(Clone, Copy)]
pub struct State {
    depth: u32,
    arrow: bool,
    levels: usize,
    widths: [u32; LEVELS],
}

impl Model for State {
    ghost use Rattle.std.specs.Prelude.{ℕ, List, ◌≡◌, ◌≤◌, take, length};
    ghost use Rattle.std.proofs.Common.{ap₂, sym};
    ghost use Rattle.rules.specs.Line as RulesLine;
    ghost use Rattle.rules.specs.Limits.{max_levels};
    ghost use Rattle.rules.specs.Records.{packed};
    ghost use Rattle.records.specs.StateLaws.{levels-kept};

    ghost Value = { RulesLine.State };

    ghost view = { λ s. record { depth = s.depth; arrow = s.arrow; widths = take s.levels s.widths } };

    ghost invariant = { λ s. (s.levels ≤ max_levels) × (s.widths ≡ packed (take s.levels s.widths)) };

    ghost inverse = { λ v. record { depth = v.depth; arrow = v.arrow; levels = length v.widths; widths = packed v.widths } };

    ghost inverse_ok = { λ s h. ap₂ (λ (n : ℕ) (ws : List ℕ). record { depth = s.depth; arrow = s.arrow; levels = n; widths = ws }) (levels-kept s.levels s.widths h.0 h.1) (sym h.1) };
}

impl State {
    // Before the first line.
    pub fn initial() -> State
        ensures { result ≡ initial }
    {
        State {
            depth: 0,
            arrow: false,
            levels: 0,
            widths: [0; LEVELS],
        }
    }

    // The state whose words stand from an index on.
    pub fn load(words: &[u32], at: usize) -> State
        requires at_in_bounds { at + (3 + width_words) ≤ length words.now }
        requires few { state_levels words.now at ≤ max_levels }
        ensures { result ≡ state_at words.now at }
    {
        let levels = words[at + 2] as usize;
        let mut widths = [0; LEVELS];
        widths[..levels].copy_from_slice(&words[at + 3..at + 3 + levels]);
        State {
            depth: words[at],
            arrow: words[at + 1] != 0,
            levels,
            widths,
        }
    }

    // The words of the state, as a line record has them.
    pub fn words(&self) -> [u32; STATE]
        ensures { result ≡ state_words self.now }
    {
        let mut words = [0; STATE];
        words[0] = self.depth;
        words[1] = self.arrow as u32;
        words[2] = self.levels as u32;
        words[3..].copy_from_slice(&self.widths);
        words
    }

    // The depth of the open brackets.
    pub fn depth(&self) -> u32
        ensures { result ≡ self.now.depth }
    {
        self.depth
    }

    // Whether the last token is an arrow.
    pub fn arrow(&self) -> bool
        ensures { result ≡ self.now.arrow }
    {
        self.arrow
    }

    // The number of open levels.
    pub fn levels(&self) -> usize
        ensures value { result ≡ length self.now.widths }
        ensures few { result ≤ max_levels }
    {
        self.levels
    }

    // The innermost width of the first levels, 0 at base.
    pub fn width_of(&self, levels: usize) -> u32
        requires { levels ≤ length self.now.widths }
        ensures { result ≡ last_d (take levels self.now.widths) 0 }
    {
        self.widths[..levels].last().copied().unwrap_or(0)
    }

    // The levels that are left when those wider than this are closed.
    pub fn levels_within(&self, width: u32) -> usize
        ensures bound { result ≤ length self.now.widths }
        ensures left { take result self.now.widths ≡ trim_end (ltb width) self.now.widths }
    {
        for i in (0..self.levels).rev() {
            if self.widths[i] <= width {
                return i + 1;
            }
        }
        0
    }

    // A level of this width is opened.
    pub fn open_level(&mut self, width: u32)
        requires { length self.old.widths < max_levels }
        ensures { self.new ≡ record self.old { widths = self.old.widths ++ width ∷ [] } }
    {
        self.widths[self.levels] = width;
        self.levels += 1;
    }

    // The levels past the first ones are closed.
    pub fn close_levels(&mut self, left: usize)
        requires { left ≤ length self.old.widths }
        ensures { self.new ≡ record self.old { widths = take left self.old.widths } }
    {
        self.levels = left;
        self.widths[left..].fill(0);
    }

    // What a line's tokens leave: this depth, and whether the last one is an arrow.
    pub fn set_tokens(&mut self, depth: u32, arrow: bool)
        ensures { self.new ≡ record self.old { depth = depth; arrow = arrow } }
    {
        self.depth = depth;
        self.arrow = arrow;
    }
}
