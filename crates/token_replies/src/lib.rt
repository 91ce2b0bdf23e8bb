// The answers of calls on tokens: the number and the values of each at the front of a reply, and how many words they are.
#![tactic(auto)]

ghost use Rattle.std.specs.Prelude.{◌≡◌, length};
ghost use Rattle.std.proofs.lemmas.List.Edits.{sets};
ghost use Rattle.refusals.specs.Replies.{reply_of};
ghost use Rattle.token_text.specs.Answers.{part_values};
ghost use Rattle.token_walk.specs.Steps.{step_numbers};

use refusals::{Buffer, Refusal};
use replies::{put, put_refusal};
use token_text::Part;
use token_walk::TokenRecord;

// The answer of `token_part`.
pub fn put_part(reply: &mut [u64; 16], r: Result<Part, Refusal>) -> u64
    ensures value { result ≡ length (reply_of part_values r) }
    ensures reply_after { reply.new ≡ sets reply.old 0 (reply_of part_values r) }
{
    match r {
        Ok(Part::Text(at, size)) => put(reply, [0, Buffer::Text as u64, at as u64, size as u64]),
        Ok(Part::Names(at, size)) => put(reply, [0, Buffer::Names as u64, at as u64, size as u64]),
        Err(refusal) => put_refusal(reply, refusal),
    }
}

// The answer of `walk_step`.
pub fn put_step(reply: &mut [u64; 16], r: (usize, Option<TokenRecord>)) -> u64
    ensures value { result ≡ length (step_numbers r) }
    ensures reply_after { reply.new ≡ sets reply.old 0 (step_numbers r) }
{
    match r {
        (next, Some(t)) => put(
            reply,
            [
                0,
                1,
                next as u64,
                t.kind as u64,
                t.position as u64,
                t.size as u64,
                t.line as u64,
                t.column as u64,
            ],
        ),
        (number, None) => put(reply, [0, 0, number as u64]),
    }
}
