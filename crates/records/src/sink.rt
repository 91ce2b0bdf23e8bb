// What becomes of the words of the records that a pass over lines gives.
ghost use Rattle.std.specs.Prelude.{◌≡◌, true, ℕ, Bool, List, ◌+◌, ◌*◌, ◌≤◌, length, Option, Some};
ghost use Rattle.records.specs.Sinks.{Fits, RecordSinkLaws, OverLaw};

pub mod bounded;
pub mod words;

pub use bounded::Bounded;
pub use words::Sink;

// Where records go, by their numbers.
pub trait RecordSink {
    // which kind a word has is asked for
    ghost named: { Bool };

    // for how many words there is room; None, where there is no bound
    ghost room: { Self → Option ℕ };

    // the sink before and after, and the words that it takes from an index on
    ghost takes: { Self → Self → ℕ → List ℕ → Type 0 };

    ghost laws: { RecordSinkLaws room takes named };

    // nothing that it takes changes it any more
    ghost over: { Self → Bool };

    ghost over_law: { OverLaw over takes };

    // The words of the record that is n records behind this one.
    fn put_record(&mut self, first: usize, n: usize, words: &[u32])
        requires some { 1 ≤ length words.now }
        requires fits { Fits (room self.old) (Some (length words.now * (first + n) + length words.now)) }
        ensures { takes self.old self.new (length words.now * (first + n)) words.now };

    // Whether the kinds of words are asked for.
    fn asks_kinds(&self) -> bool
        ensures { result ≡ named };

    // Whether nothing that it takes changes it any more.
    fn is_over(&self) -> bool
        ensures { result ≡ over self.now };
}

// Nothing is kept: the records are only counted.
#[derive(Clone, Copy)]
pub struct Nowhere;

impl RecordSink for Nowhere {
    ghost use Rattle.std.specs.Prelude.{false, None};
    ghost use Rattle.records.specs.Sinks.{NowhereTakes};
    ghost use Rattle.records.specs.SinkLaws.{nowhere-record-laws, never-over};

    ghost named = { false };

    ghost room = { λ s. None };

    ghost takes = { NowhereTakes };

    ghost laws = { nowhere-record-laws };

    ghost over = { λ s. false };

    ghost over_law = { never-over NowhereTakes };

    fn put_record(&mut self, _first: usize, _n: usize, _words: &[u32]) {}

    fn asks_kinds(&self) -> bool {
        false
    }

    fn is_over(&self) -> bool {
        false
    }
}

// The words are written into a buffer that is lent.
#[derive(Drop)]
pub struct Written<'a> {
    words: &'a mut [u32],
}

impl<'a> Written<'a> {
    pub fn new(words: &'a mut [u32]) -> Written<'a>
        ensures same { result.words.ghost_name ≡ words.entry.ghost_name }
        ensures whole { result.words.now ≡ words.old }
    {
        Written { words }
    }
}

impl RecordSink for Written<'_> {
    ghost use Rattle.std.specs.Prelude.{true, false, Some, length};
    ghost use Rattle.records.specs.Sinks.{Writes};
    ghost use Rattle.records.specs.SinkLaws.{written-record-laws, never-over};

    ghost named = { true };

    ghost room = { λ s. Some (length s.words.now) };

    ghost takes = { Writes };

    ghost laws = { written-record-laws };

    ghost over = { λ s. false };

    ghost over_law = { never-over Writes };

    fn put_record(&mut self, first: usize, n: usize, words: &[u32]) {
        let at = words.len() * (first + n);
        self.words[at..at + words.len()].copy_from_slice(words);
    }

    fn asks_kinds(&self) -> bool {
        true
    }

    fn is_over(&self) -> bool {
        false
    }
}

// The words are compared with those of a buffer: whether all were the same so far.
#[derive(Clone, Copy)]
pub struct Held<'a> {
    words: &'a [u32],
    same: bool,
}

impl<'a> Held<'a> {
    pub fn new(words: &'a [u32]) -> Held<'a>
        ensures { (result.words.now ≡ words.now) × (result.same ≡ true) }
    {
        Held { words, same: true }
    }

    // Whether all were the same.
    pub fn same(&self) -> bool
        ensures { result ≡ self.now.same }
    {
        self.same
    }
}

impl RecordSink for Held<'_> {
    ghost use Rattle.std.specs.Prelude.{true, not, None};
    ghost use Rattle.records.specs.Sinks.{Compares};
    ghost use Rattle.records.specs.SinkLaws.{held-record-laws, held-over};

    ghost named = { true };

    ghost room = { λ s. None };

    ghost takes = { Compares };

    ghost laws = { held-record-laws };

    ghost over = { λ s. not s.same };

    ghost over_law = { held-over };

    // An index that is no number is beyond the buffer.
    fn put_record(&mut self, first: usize, n: usize, words: &[u32]) {
        let at = words.len().saturating_mul(first.saturating_add(n));
        self.same = self.same && super::same_words(self.words, at, words);
    }

    fn asks_kinds(&self) -> bool {
        true
    }

    fn is_over(&self) -> bool {
        !self.same
    }
}
