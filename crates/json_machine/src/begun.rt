//! What is begun: a word, a number, or a character of several bytes.

#[derive(Clone, Copy, Debug, PartialEq, Eq)]
pub enum Word {
    Null,
    True,
    False,
}

/// What was read last of a number.
#[derive(Clone, Copy, Debug, PartialEq, Eq)]
pub enum Digit {
    Minus,
    Zero,
    Whole,
    Dot,
    Fraction,
    E,
    Sign,
    Exponent,
}

/// So many bytes of a sequence, and the bounds of the first of them.
#[derive(Clone, Copy, Debug, PartialEq, Eq)]
pub enum Tail {
    One(u8, u8),
    Two(u8, u8),
    Three(u8, u8),
}
