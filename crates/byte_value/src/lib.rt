// The value of a byte literal.
#![tactic(auto)]

ghost use Rattle.std.specs.Prelude.{◌≡◌, ◌<◌, IfSome};
ghost use Rattle.refusals.specs.Replies.{option_of};
ghost use Rattle.rules.specs.ByteValue.{ascii_value, escape_value, hex_pair, inner_value, literal_value, value_reply};
ghost use Rattle.byte_value.specs.Answers.{value_numbers, digit_value};

// The value of a hex digit.
#[tactic(auto, using(std::proofs::lemmas::Bool::Decides::nat_tests), unfolding(crate::specs::Answers::digit_value, rules::specs::Tables::is_hex_digit, rules::specs::Tables::is_digit, rules::specs::ByteValue::hex_value))]
fn hex_digit(b: u8) -> Option<u32>
    ensures value { option_of result ≡ digit_value b }
    ensures below { IfSome result (λ v. v < 16) }
{
    let d = b as u32;
    match b {
        b'0'..=b'9' => Some(d - 48),
        b'A'..=b'F' => Some(d - 55),
        b'a'..=b'f' => Some(d - 87),
        _ => None,
    }
}

// The value of `\x` with these two bytes: two hex digits up to 7F, or `+` and a hex digit.
#[tactic(auto, using(std::proofs::lemmas::Bool::Decides::nat_tests), unfolding(rules::specs::ByteValue::hex_pair, rules::specs::ByteValue::ascii_value, crate::specs::Answers::digit_value))]
fn hex_pair(high: u8, low: u8) -> Option<u32>
    ensures { option_of result ≡ hex_pair high low }
{
    let l = hex_digit(low)?;
    match hex_digit(high) {
        Some(h) if h < 8 => Some(16 * h + l),
        None if high == b'+' => Some(l),
        _ => None,
    }
}

// The value of a backslash with this byte.
#[tactic(auto, using(std::proofs::lemmas::Bool::Decides::nat_tests), unfolding(rules::specs::ByteValue::escape_value, rules::specs::Lists::elem, rules::specs::Lists::any))]
fn escape_value(b: u8) -> Option<u32>
    ensures { option_of result ≡ escape_value b }
{
    match b {
        b'0' => Some(0),
        b't' => Some(9),
        b'n' => Some(10),
        b'r' => Some(13),
        b'\'' | b'\\' | b'"' => Some(b as u32),
        _ => None,
    }
}

// The value of a byte that stands for itself.
#[tactic(auto, using(std::proofs::lemmas::Bool::Decides::nat_tests), unfolding(rules::specs::ByteValue::ascii_value))]
fn ascii_value(b: u8) -> Option<u32>
    ensures { option_of result ≡ ascii_value b }
{
    if b < 128 { Some(b as u32) } else { None }
}

// The value of what stands between the quotes.
#[tactic(auto, using(std::proofs::lemmas::Bool::Decides::nat_tests), unfolding(rules::specs::ByteValue::inner_value, rules::specs::Lists::begins))]
fn inner_value(inner: &[u8]) -> Option<u32>
    ensures { option_of result ≡ inner_value inner.now }
{
    match inner {
        [c] => ascii_value(*c),
        [b'\\', e] => escape_value(*e),
        [b'\\', b'x', high, low] => hex_pair(*high, *low),
        _ => None,
    }
}

// The value of a text that is a byte literal.
#[tactic(auto, using(std::proofs::lemmas::Bool::Decides::nat_tests, crate::proofs::Literals::literal_short, crate::proofs::Literals::literal_long))]
fn literal_value(text: &[u8]) -> Option<u32>
    ensures { option_of result ≡ literal_value text.now }
{
    match text {
        [b'b', b'\'', inner @ .., b'\''] => inner_value(inner),
        _ => None,
    }
}

// The value of a text that is a byte literal, or none, where it is neither too long nor malformed.
#[tactic(auto, using(refusals::proofs::Tests::refused_reply, refusals::proofs::Tests::passed_alone), unfolding(rules::specs::ByteValue::value_reply))]
pub fn ascii_byte_literal_value(text: &[u8]) -> Result<Option<u32>, refusals::Unread>
    ensures { value_numbers result ≡ value_reply text.now }
{
    refusals::test_text(refusals::barge_limits(), text)?;
    Ok(literal_value(text))
}
