// The answers of calls on a page: the number and the values of each at the front of a reply, and how many words they are.
#![tactic(auto)]

ghost use Rattle.std.specs.Prelude.{◌≡◌, length};
ghost use Rattle.std.proofs.lemmas.List.Edits.{sets};
ghost use Rattle.refusals.specs.Replies.{reply_of};
ghost use Rattle.fresh_page.specs.Answers.{fresh_values};
ghost use Rattle.editing.specs.Answers.{edit_numbers};
ghost use Rattle.checking.specs.Answers.{check_values};

use editing::Edited;
use refusals::Refusal;
use replies::{put, put_refusal};

// The answer of `fresh`: the header 0, 0, 0.
#[tactic(auto, unfolding(rules::specs::Replies::numbered))]
pub fn put_fresh(reply: &mut [u64; 16], r: Result<(), Refusal>) -> u64
    ensures value { result ≡ length (reply_of fresh_values r) }
    ensures reply_after { reply.new ≡ sets reply.old 0 (reply_of fresh_values r) }
{
    match r {
        Ok(_) => put(reply, [0, 0, 0, 0]),
        Err(refusal) => put_refusal(reply, refusal),
    }
}

// The answer of `edit`.
#[tactic(auto, unfolding(rules::specs::Replies::numbered))]
pub fn put_edit(reply: &mut [u64; 16], r: Result<Edited, Refusal>) -> u64
    ensures value { result ≡ length (edit_numbers r) }
    ensures reply_after { reply.new ≡ sets reply.old 0 (edit_numbers r) }
{
    match r {
        Ok(e) => put(
            reply,
            [
                0,
                e.bytes as u64,
                e.lines as u64,
                e.tokens as u64,
                e.reread as u64,
            ],
        ),
        Err(refusal) => put_refusal(reply, refusal),
    }
}

// The answer of `check`.
pub fn put_check(reply: &mut [u64; 16], r: Result<bool, Refusal>) -> u64
    ensures value { result ≡ length (reply_of check_values r) }
    ensures reply_after { reply.new ≡ sets reply.old 0 (reply_of check_values r) }
{
    match r {
        Ok(faithful) => put(reply, [0, faithful as u64]),
        Err(refusal) => put_refusal(reply, refusal),
    }
}
