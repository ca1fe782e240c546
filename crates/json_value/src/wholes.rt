ghost use Rattle.std.specs.Prelude.{◌≡◌, ◌↔◌, ◌<◌, ◌≤◌, ℕ, length, slice_index, IsTrue, MatchOption};
ghost use Rattle.std.specs.Str.Parse.{digits_value};
ghost use Rattle.json_value.specs.Numbers as numbers;
ghost use Rattle.json_value.specs.Numbers.{AreDigits};
ghost use Rattle.json_value.specs.Wholes.{IsWholeNumber, IsWholeText};

use crate::tree::Json;

fn is_digit(byte: u8) -> bool
    ensures { result ≡ numbers.is_digit byte }
{
    byte >= b'0' && byte <= b'9'
}

fn digits_number(digits: &[u8]) -> Option<u64>
    requires { length digits.now ≤ 15 }
    ensures { MatchOption result (AreDigits digits.now → ⊥)
        (λ n. AreDigits digits.now × (n ≡ digits_value 10 digits.now)) }
{
    let mut number = 0u64;
    for i in 0..digits.len() {
        let digit = digits[i];
        if !is_digit(digit) {
            return None;
        }
        number = number * 10 + u64::from(digit - b'0');
    }
    Some(number)
}

fn has_leading_zero(text: &[u8]) -> bool
    requires { 0 < length text.now }
    ensures { IsTrue result ↔ ((slice_index text.now 0 ≡ 48) × (1 < length text.now)) }
{
    text[0] == b'0' && text.len() > 1
}

fn text_number(text: &[u8]) -> Option<u64>
    ensures { MatchOption result ((n : ℕ) → IsWholeText text.now n → ⊥) (IsWholeText text.now) }
{
    if text.is_empty() {
        return None;
    }
    if text.len() > 15 || has_leading_zero(text) {
        return None;
    }
    digits_number(text)
}

/// The number that is written by 1 to 15 digits, with no sign and no leading zero but in `0`; None of every other value.
pub fn whole(value: &Json) -> Option<u64>
    ensures { MatchOption result
        ((n : ℕ) → IsWholeNumber value.now n → ⊥) (IsWholeNumber value.now) }
{
    match value {
        Json::Number(text) => text_number(text.as_str().as_bytes()),
        _ => None,
    }
}
