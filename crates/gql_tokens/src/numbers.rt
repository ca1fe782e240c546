//! One byte of a number.

ghost use Rattle.std.specs.Prelude.{◌≡◌};
ghost use Rattle.gql_tokens.specs.Scanning as spec;

/// What was read last of a number.
#[derive(Clone, Copy, Debug, PartialEq, Eq)]
pub enum Digit {
    Minus,
    Zero,
    Whole,
    Dot,
    Fraction,
    E,
    Sign,
    Exponent,
}

/// What the first byte of a number is (sections 2.9.1 and 2.9.2).
pub fn number_start(byte: u8) -> Option<Digit>
    ensures { result ≡ spec.number_start byte }
{
    match byte {
        b'-' => Some(Digit::Minus),
        b'0' => Some(Digit::Zero),
        b'1'..=b'9' => Some(Digit::Whole),
        _ => None,
    }
}

/// What the next byte of a number is, after what was read last; None where it belongs to none.
pub fn number_next(part: Digit, byte: u8) -> Option<Digit>
    ensures { result ≡ spec.number_next part byte }
{
    match (part, byte) {
        (Digit::Minus, b'0') => Some(Digit::Zero),
        (Digit::Minus | Digit::Whole, b'0'..=b'9') => Some(Digit::Whole),
        (Digit::Zero | Digit::Whole, b'.') => Some(Digit::Dot),
        (Digit::Dot | Digit::Fraction, b'0'..=b'9') => Some(Digit::Fraction),
        (Digit::Zero | Digit::Whole | Digit::Fraction, b'e' | b'E') => Some(Digit::E),
        (Digit::E, b'+' | b'-') => Some(Digit::Sign),
        (Digit::E | Digit::Sign | Digit::Exponent, b'0'..=b'9') => Some(Digit::Exponent),
        _ => None,
    }
}

/// Whether the number may end here.
pub fn may_end(part: Digit) -> bool
    ensures { result ≡ spec.may_end part }
{
    matches!(
        part,
        Digit::Zero | Digit::Whole | Digit::Fraction | Digit::Exponent
    )
}
