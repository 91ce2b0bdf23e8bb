// A walk over the token records, a step at a time.
#![tactic(auto)]

ghost use Rattle.std.specs.Prelude.{◌≡◌};
ghost use Rattle.rules.specs.Walk.{walk_reply};
ghost use Rattle.token_walk.specs.Steps.{step_numbers};

// A token's record.
#[derive(Clone, Copy)]
pub struct TokenRecord {
    pub kind: u32,
    pub position: u32,
    pub size: u32,
    pub line: u32,
    pub column: u32,
}

// One step over the token words from the token of this number: the next number and a record; or none, and the number kept. It is compared
// by division: 5 · next may be beyond any word.
pub fn walk_step(tokens: &[u32], next: usize) -> (usize, Option<TokenRecord>)
    ensures { step_numbers result ≡ walk_reply tokens.now next }
{
    if tokens.len() / records::TOKEN <= next {
        return (next, None);
    }
    let at = records::TOKEN * next;
    let record = TokenRecord {
        kind: tokens[at],
        position: tokens[at + 1],
        size: tokens[at + 2],
        line: tokens[at + 3],
        column: tokens[at + 4],
    };
    (next + 1, Some(record))
}

// A walk over the token records: it holds the token words and the number of the next token.
#[derive(Drop)]
pub struct TokenWalk<'a> {
    pub words: &'a [u32],
    pub next: usize,
}

impl<'a> TokenWalk<'a> {
    // From the first token on.
    pub fn new(words: &'a [u32]) -> TokenWalk<'a>
        ensures { (result.words ≡ words.entry) × (result.next ≡ 0) }
    {
        TokenWalk { words, next: 0 }
    }

    // One step.
    pub fn step(self) -> (usize, Option<TokenRecord>)
        ensures { step_numbers result ≡ walk_reply self.entry.words.now self.entry.next }
    {
        walk_step(self.words, self.next)
    }

    // The same words, with another number.
    pub fn moved(self, next: usize) -> TokenWalk<'a>
        ensures { (result.words ≡ self.entry.words) × (result.next ≡ next) }
    {
        TokenWalk {
            words: self.words,
            next,
        }
    }
}

// Its items are the records that its steps give, to the end of the walk.
impl<'a> Iterator for TokenWalk<'a> {
    ghost use Rattle.std.specs.Iterator.{at_most};
    ghost use Rattle.token_walk.specs.Steps.{GivesRecord, tokens_left};

    type Item = TokenRecord;

    ghost next_gives = { GivesRecord };

    ghost remaining = { λ w. at_most (tokens_left w) };

    fn next(&mut self) -> Option<TokenRecord> {
        let (next, record) = step_from(self.words, self.next);
        self.next = next;
        record
    }
}

// One step of a walk over these words, begun and moved to the token of this number.
pub fn step_from(words: &[u32], next: usize) -> (usize, Option<TokenRecord>)
    ensures { step_numbers result ≡ walk_reply words.now next }
{
    TokenWalk::new(words).moved(next).step()
}
