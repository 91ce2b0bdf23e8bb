// What a text and its lines are held to, and why a call is refused.
#![tactic(auto)]

ghost use Rattle.std.specs.Prelude.{◌≡◌, ◌≤◌};
ghost use Rattle.rules.specs.Limits.{max_levels, barge};
ghost use Rattle.refusals.specs.Limits.{line_limits_of, line_of, limits_of};
ghost use Rattle.refusals.specs.Unreads.{test_of};
ghost use Rattle.refusals.specs.declared.Refusal.TheVariants.{Reading};

pub mod bounds;

pub use bounds::LineLimits;

// What a text is held to: so many bytes, the number of the refusal of a longer one, and so many open levels before each line, with the number of
// the refusal of one more. The numbers are data, as in the rules: other limits have other numbers.
#[derive(Clone, Copy)]
pub struct Limits {
    pub bytes: usize,
    pub long: u32,
    pub levels: usize,
    pub deep: u32,
}

impl Limits {
    // What the lines of the text are held to.
    pub fn line(self) -> LineLimits
        requires { self.levels ≤ max_levels }
        ensures { line_limits_of result ≡ line_of self }
    {
        LineLimits {
            levels: self.levels,
            deep: self.deep,
        }
    }
}

// The barge's limits.
pub fn barge_limits() -> Limits
    ensures { limits_of result ≡ barge }
{
    Limits {
        bytes: 1_048_576,
        long: 1,
        levels: 16,
        deep: 4,
    }
}

// A failure's record.
#[derive(Clone, Copy)]
pub struct FailureRecord {
    pub code: u32,
    pub detail: u32,
    pub found: u32,
    pub position: u32,
    pub line: u32,
    pub column: u32,
    pub from: u32,
    pub to: u32,
}

// Why a text by itself is refused: it is too long, with the refusal's number and the length; it is not well-formed, with its longest
// well-formed prefix; its first failure; or a line beyond a limit, with the refusal's number and the line's.
#[derive(Clone, Copy)]
pub enum Unread {
    TooLong(u32, usize),
    Malformed(usize),
    Fails(FailureRecord),
    AtLine(u32, usize),
}

// The lent buffers, by their numbers in refusal 5.
#[derive(Clone, Copy)]
pub enum Buffer {
    Text = 1,
    Spare = 2,
    Lines = 3,
    Tokens = 4,
    Out = 5,
    Names = 6,
}

// Why a call is refused: its text by itself; 5, a buffer that is too short, with its least length; 6, a range or a number outside; 7, a page
// whose header or records do not fit.
#[derive(Clone, Copy)]
pub enum Refusal {
    Reading(Unread),
    Short(Buffer, usize),
    Outside,
    Unfit,
}

impl From<Unread> for Refusal {
    ghost from_gives = { λ u r. r ≡ Reading u };

    fn from(u: Unread) -> Refusal {
        Refusal::Reading(u)
    }
}

// The tests 1 and 2 of a text, which come before its lines are read.
#[tactic(auto, using(std::proofs::lemmas::Bool::Decides::nat_tests), unfolding(rules::specs::Replies::is_too_long, rules::specs::Replies::too_long_by, rules::specs::Replies::is_malformed, rules::specs::Replies::malformed_by))]
pub fn test_text(limits: Limits, text: &[u8]) -> Result<(), Unread>
    ensures { result ≡ test_of (limits_of limits) text.now }
{
    let n = text.len();
    if limits.bytes < n {
        return Err(Unread::TooLong(limits.long, n));
    }
    let prefix = utf8::well_formed_prefix(text);
    if prefix < n {
        return Err(Unread::Malformed(prefix));
    }
    Ok(())
}
