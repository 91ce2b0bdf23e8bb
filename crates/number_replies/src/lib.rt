// The answers of calls on the text of a number: the number and the values of each at the front of a reply, and how many words they are.
#![tactic(auto)]

ghost use Rattle.std.specs.Prelude.{◌≡◌, length};
ghost use Rattle.std.proofs.lemmas.List.Edits.{sets};
ghost use Rattle.rules.specs.Numbers.{suffix_number};
ghost use Rattle.numbers.specs.Numbers.{rule_suffix};
ghost use Rattle.number_parts.specs.Answers.{parts_numbers};

use numbers::{Number, Suffix};
use refusals::Unread;
use replies::{put, put_unread};

// The number of a suffix.
#[tactic(auto, unfolding(rules::specs::Numbers::suffix_number))]
fn suffix_number(suffix: Option<Suffix>) -> u64
    ensures { result ≡ suffix_number (rule_suffix suffix) }
{
    match suffix {
        None => 0,
        Some(suffix) => suffix as u64,
    }
}

// The answer of `number_parts`.
#[tactic(auto, unfolding(rules::specs::Numbers::parts_words))]
pub fn put_parts(reply: &mut [u64; 16], r: Result<Option<Number>, Unread>) -> u64
    ensures value { result ≡ length (parts_numbers r) }
    ensures reply_after { reply.new ≡ sets reply.old 0 (parts_numbers r) }
{
    match r {
        Ok(Some(n)) => {
            let suffix = suffix_number(n.suffix);
            put(
                reply,
                [0, 1, n.end as u64, n.base as u64, n.digits as u64, suffix],
            )
        }
        Ok(None) => put(reply, [0, 0]),
        Err(u) => put_unread(reply, u),
    }
}
