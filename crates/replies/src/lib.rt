// Words at the front of a reply, and how many they are.
#![tactic(auto)]

ghost use Rattle.std.specs.Prelude.{◌≡◌, ◌≤◌, length};
ghost use Rattle.std.proofs.lemmas.List.Edits.{sets};
ghost use Rattle.rules.specs.Replies.{numbered, numbered_unread};
ghost use Rattle.refusals.specs.Unreads.{refusal_of, unread_of};

// These words.
pub fn put<const N: usize>(reply: &mut [u64; 16], words: [u64; N]) -> u64
    requires { N ≤ 16 }
    ensures value { result ≡ N }
    ensures reply_after { reply.new ≡ sets reply.old 0 words.entry }
{
    reply[..N].copy_from_slice(&words);
    N as u64
}

// Why a text by itself is refused.
#[tactic(auto, unfolding(rules::specs::Replies::numbered_unread, rules::specs::Replies::failure_words))]
pub fn put_unread(reply: &mut [u64; 16], u: refusals::Unread) -> u64
    ensures value { result ≡ length (numbered_unread (unread_of u)) }
    ensures reply_after { reply.new ≡ sets reply.old 0 (numbered_unread (unread_of u)) }
{
    match u {
        refusals::Unread::TooLong(number, n) => put(reply, [number as u64, n as u64]),
        refusals::Unread::Malformed(n) => put(reply, [2, n as u64]),
        refusals::Unread::Fails(f) => put(
            reply,
            [
                3,
                f.code as u64,
                f.detail as u64,
                f.found as u64,
                f.position as u64,
                f.line as u64,
                f.column as u64,
                f.from as u64,
                f.to as u64,
            ],
        ),
        refusals::Unread::AtLine(number, l) => put(reply, [number as u64, l as u64]),
    }
}

// Why a call is refused.
#[tactic(auto, unfolding(rules::specs::Replies::numbered))]
pub fn put_refusal(reply: &mut [u64; 16], r: refusals::Refusal) -> u64
    ensures value { result ≡ length (numbered (refusal_of r)) }
    ensures reply_after { reply.new ≡ sets reply.old 0 (numbered (refusal_of r)) }
{
    match r {
        refusals::Refusal::Reading(u) => put_unread(reply, u),
        refusals::Refusal::Short(b, n) => put(reply, [5, b as u64, n as u64]),
        refusals::Refusal::Outside => put(reply, [6]),
        refusals::Refusal::Unfit => put(reply, [7]),
    }
}
