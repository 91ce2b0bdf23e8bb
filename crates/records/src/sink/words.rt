// Sinks of words, which take them from an index on.
ghost use Rattle.std.specs.Prelude.{◌≡◌, true, ℕ, Bool, List, ◌+◌, length};
ghost use Rattle.records.specs.Sinks.{SinkLaws};

use super::{Held, Nowhere, Written};

// Where the words of records go.
pub trait Sink {
    // there is room for words before this index
    ghost fits: { Self → ℕ → Type 0 };

    // the sink before and after, and the words that it takes from an index on
    ghost takes: { Self → Self → ℕ → List ℕ → Type 0 };

    // which kind a word has is asked for
    ghost named: { Bool };

    ghost laws: { SinkLaws fits takes named };

    // These words, from an index on.
    fn put(&mut self, at: usize, words: &[u32])
        requires { fits self.old (at + length words.now) }
        ensures { takes self.old self.new at words.now };

    // Whether the kinds of words are asked for.
    fn is_named(&self) -> bool
        ensures { result ≡ named };
}

impl Sink for Nowhere {
    ghost use Rattle.std.specs.Prelude.{false};
    ghost use Rattle.records.specs.Sinks.{nowhere_fits, NowhereTakes};
    ghost use Rattle.records.specs.SinkLaws.{nowhere-laws};

    ghost fits = { nowhere_fits };

    ghost takes = { NowhereTakes };

    ghost named = { false };

    ghost laws = { nowhere-laws };

    fn put(&mut self, _at: usize, _words: &[u32]) {}

    fn is_named(&self) -> bool {
        false
    }
}

impl Sink for Written<'_> {
    ghost use Rattle.std.specs.Prelude.{true};
    ghost use Rattle.records.specs.Sinks.{written_fits, Writes};
    ghost use Rattle.records.specs.SinkLaws.{written-laws};

    ghost fits = { written_fits };

    ghost takes = { Writes };

    ghost named = { true };

    ghost laws = { written-laws };

    fn put(&mut self, at: usize, words: &[u32]) {
        self.words[at..at + words.len()].copy_from_slice(words);
    }

    fn is_named(&self) -> bool {
        true
    }
}

impl Sink for Held<'_> {
    ghost use Rattle.std.specs.Prelude.{true};
    ghost use Rattle.records.specs.Sinks.{held_fits, Compares};
    ghost use Rattle.records.specs.SinkLaws.{held-laws};

    ghost fits = { held_fits };

    ghost takes = { Compares };

    ghost named = { true };

    ghost laws = { held-laws };

    fn put(&mut self, at: usize, words: &[u32]) {
        self.same = self.same && crate::same_words(self.words, at, words);
    }

    fn is_named(&self) -> bool {
        true
    }
}

#[cfg(test)]
mod tests {
    use super::*;

    // Words are written, and compared, from any index on.
    #[test]
    fn words_go_to_an_index(rt: HostRuntime) {
        let mut buffer: [u32; 6] = [0; 6];
        let mut written = Written::new(&mut buffer);
        written.put(1, &[7, 8]);
        written.put(4, &[9]);
        assert!(rt; written.is_named());
        assert_eq!(rt; buffer.as_slice(), [0, 7, 8, 0, 9, 0].as_slice());
        let mut held = Held::new(&buffer);
        held.put(2, &[8, 0, 9]);
        assert!(rt; held.same());
        held.put(5, &[1]);
        held.put(0, &[0]);
        assert!(rt; !held.same() && held.is_named());
        let mut nowhere = Nowhere;
        nowhere.put(99, &[1]);
        assert!(rt; !nowhere.is_named());
    }
}
