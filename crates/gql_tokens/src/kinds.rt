//! What a token is to the grammar.

ghost use Rattle.std.specs.Prelude.{◌≡◌};
ghost use Rattle.gql_tokens.specs.KindTests as spec;

/// What a token is to the grammar. A name that is no word of the grammar is a `Name`; every word is a name as well.
#[derive(Clone, Copy, Debug, PartialEq, Eq)]
pub enum Kind {
    Bang,
    Dollar,
    Amp,
    OpenParen,
    CloseParen,
    Dots,
    Colon,
    Equals,
    At,
    OpenBracket,
    CloseBracket,
    OpenBrace,
    Bar,
    CloseBrace,
    Query,
    Mutation,
    Subscription,
    Fragment,
    On,
    True,
    False,
    Null,
    Name,
    Number,
    Str,
    Block,
    /// No token of any text. While faults are looked for, it stands for a selection set that is one level too deep.
    Gap,
}

fn code(kind: Kind) -> u8
    ensures { result ≡ spec.code kind }
{
    match kind {
        Kind::Bang => 0,
        Kind::Dollar => 1,
        Kind::Amp => 2,
        Kind::OpenParen => 3,
        Kind::CloseParen => 4,
        Kind::Dots => 5,
        Kind::Colon => 6,
        Kind::Equals => 7,
        Kind::At => 8,
        Kind::OpenBracket => 9,
        Kind::CloseBracket => 10,
        Kind::OpenBrace => 11,
        Kind::Bar => 12,
        Kind::CloseBrace => 13,
        Kind::Query => 14,
        Kind::Mutation => 15,
        Kind::Subscription => 16,
        Kind::Fragment => 17,
        Kind::On => 18,
        Kind::True => 19,
        Kind::False => 20,
        Kind::Null => 21,
        Kind::Name => 22,
        Kind::Number => 23,
        Kind::Str => 24,
        Kind::Block => 25,
        Kind::Gap => 26,
    }
}

/// Whether the two kinds are the same.
pub fn same_kind(a: Kind, b: Kind) -> bool
    ensures { result ≡ spec.same_kind a b }
{
    code(a) == code(b)
}

/// Whether it is a Name (section 2.1.9); each word of the grammar is one too.
pub fn is_name(kind: Kind) -> bool
    ensures { result ≡ spec.is_name kind }
{
    matches!(
        kind,
        Kind::Query
            | Kind::Mutation
            | Kind::Subscription
            | Kind::Fragment
            | Kind::On
            | Kind::True
            | Kind::False
            | Kind::Null
            | Kind::Name
    )
}

/// Whether it is a FragmentName: a Name but not `on` (section 2.8).
pub fn is_fragment_name(kind: Kind) -> bool
    ensures { result ≡ spec.is_fragment_name kind }
{
    !matches!(kind, Kind::On) && is_name(kind)
}
