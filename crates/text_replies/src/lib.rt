// The answers of calls on a text by itself: the number and the values of each at the front of a reply, and how many words they are.
#![tactic(auto)]

ghost use Rattle.std.specs.Prelude.{◌≡◌, [], ◌∷◌, length};
ghost use Rattle.std.proofs.lemmas.List.Edits.{sets};
ghost use Rattle.refusals.specs.Replies.{reply_of};
ghost use Rattle.reading.specs.Answers.{read_numbers};
ghost use Rattle.byte_value.specs.Answers.{value_numbers};

use replies::{put, put_refusal, put_unread};

// The answer of `read`.
pub fn put_read(reply: &mut [u64; 16], r: Result<passes::Counts, refusals::Refusal>) -> u64
    ensures value { result ≡ length (read_numbers r) }
    ensures reply_after { reply.new ≡ sets reply.old 0 (read_numbers r) }
{
    match r {
        Ok(c) => put(reply, [0, c.bytes as u64, c.lines as u64, c.tokens as u64]),
        Err(e) => put_refusal(reply, e),
    }
}

// An answer that is one number: the size of the message that `report` wrote, the column of `panel_column`.
pub fn put_number(reply: &mut [u64; 16], r: Result<usize, refusals::Refusal>) -> u64
    ensures value { result ≡ length (reply_of (λ n. n ∷ []) r) }
    ensures reply_after { reply.new ≡ sets reply.old 0 (reply_of (λ n. n ∷ []) r) }
{
    match r {
        Ok(n) => put(reply, [0, n as u64]),
        Err(e) => put_refusal(reply, e),
    }
}

// The answer of `ascii_byte_literal_value`.
#[tactic(auto, unfolding(rules::specs::ByteValue::value_words))]
pub fn put_value(reply: &mut [u64; 16], r: Result<Option<u32>, refusals::Unread>) -> u64
    ensures value { result ≡ length (value_numbers r) }
    ensures reply_after { reply.new ≡ sets reply.old 0 (value_numbers r) }
{
    match r {
        Ok(Some(v)) => put(reply, [0, 1, v as u64]),
        Ok(None) => put(reply, [0, 0]),
        Err(u) => put_unread(reply, u),
    }
}
