// The number at the front of a text, with digits and suffix told apart.
#![tactic(auto)]

ghost use Rattle.std.specs.Prelude.{◌≡◌};
ghost use Rattle.rules.specs.Numbers.{number_parts, parts_reply};
ghost use Rattle.number_parts.specs.Answers.{number_in, parts_numbers};

use numbers::Number;
use refusals::Unread;
use tables::Tables;

// The number at the front of any bytes.
#[tactic(auto, using(crate::proofs::Fronts::no_bytes, crate::proofs::Fronts::no_digit, crate::proofs::Fronts::a_digit))]
fn parts_of(text: &[u8]) -> Option<Number>
    ensures { number_in result ≡ number_parts text.now }
{
    match text {
        [first, ..] if numbers::is_digit(*first) => {
            Some(numbers::scan_number(&Tables::new(), text, 0))
        }
        _ => None,
    }
}

// The number at the front of a text, or none, where the text is neither too long nor malformed.
#[tactic(auto, using(refusals::proofs::Tests::refused_reply, refusals::proofs::Tests::passed_alone), unfolding(rules::specs::Numbers::parts_reply))]
pub fn number_parts(text: &[u8]) -> Result<Option<Number>, Unread>
    ensures { parts_numbers result ≡ parts_reply text.now }
{
    refusals::test_text(refusals::barge_limits(), text)?;
    Ok(parts_of(text))
}
