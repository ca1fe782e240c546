//! The words of the grammar of schemas.

ghost use Rattle.std.specs.Prelude.{◌≡◌};
ghost use Rattle.gql_schema.specs.Words as spec;

use gql_tokens::{Kind, Token};

/// A name that the grammar of schemas knows. Each is a name as well; the names that documents know have kinds of their
/// own (`query`, `mutation`, `on`, `true`, `false`, `null`).
#[derive(Clone, Copy, Debug, PartialEq, Eq)]
pub enum Word {
    Schema,
    Scalar,
    Type,
    Interface,
    Union,
    Enum,
    Input,
    Directive,
    Implements,
    Repeatable,
    /// `Query`, the type of the root of queries.
    QueryRoot,
    /// `Mutation`, the type of the root of mutations.
    MutationRoot,
    /// A DirectiveLocation (section 3.13).
    Location,
    /// Any other name, and every token that is no name.
    Other,
}

/// What a token is to the grammar of schemas.
#[derive(Clone, Copy, Debug, PartialEq, Eq)]
pub struct Mark {
    pub kind: Kind,
    pub word: Word,
}

fn code(word: Word) -> u8
    ensures { result ≡ spec.code word }
{
    match word {
        Word::Schema => 0,
        Word::Scalar => 1,
        Word::Type => 2,
        Word::Interface => 3,
        Word::Union => 4,
        Word::Enum => 5,
        Word::Input => 6,
        Word::Directive => 7,
        Word::Implements => 8,
        Word::Repeatable => 9,
        Word::QueryRoot => 10,
        Word::MutationRoot => 11,
        Word::Location => 12,
        Word::Other => 13,
    }
}

pub fn same_word(a: Word, b: Word) -> bool
    ensures { result ≡ spec.same_word a b }
{
    code(a) == code(b)
}

fn keyword(text: &str) -> Word
    ensures { result ≡ spec.word_among spec.keywords text.now }
{
    match text {
        "schema" => Word::Schema,
        "scalar" => Word::Scalar,
        "type" => Word::Type,
        "interface" => Word::Interface,
        "union" => Word::Union,
        "enum" => Word::Enum,
        "input" => Word::Input,
        "directive" => Word::Directive,
        "implements" => Word::Implements,
        "repeatable" => Word::Repeatable,
        "Query" => Word::QueryRoot,
        "Mutation" => Word::MutationRoot,
        _ => Word::Other,
    }
}

fn location(text: &str) -> Word
    ensures { result ≡ spec.word_among spec.locations text.now }
{
    match text {
        "QUERY" => Word::Location,
        "MUTATION" => Word::Location,
        "SUBSCRIPTION" => Word::Location,
        "FIELD" => Word::Location,
        "FRAGMENT_DEFINITION" => Word::Location,
        "FRAGMENT_SPREAD" => Word::Location,
        "INLINE_FRAGMENT" => Word::Location,
        "VARIABLE_DEFINITION" => Word::Location,
        "SCHEMA" => Word::Location,
        "SCALAR" => Word::Location,
        "OBJECT" => Word::Location,
        "FIELD_DEFINITION" => Word::Location,
        "ARGUMENT_DEFINITION" => Word::Location,
        "INTERFACE" => Word::Location,
        "UNION" => Word::Location,
        "ENUM" => Word::Location,
        "ENUM_VALUE" => Word::Location,
        "INPUT_OBJECT" => Word::Location,
        "INPUT_FIELD_DEFINITION" => Word::Location,
        _ => Word::Other,
    }
}

/// The word that a name is.
#[tactic(auto, unfolding(crate::specs::Words::word_of))]
fn word_of(text: &str) -> Word
    ensures { result ≡ spec.word_of text.now }
{
    match keyword(text) {
        Word::Other => location(text),
        word => word,
    }
}

/// What a token is to the grammar of schemas.
pub fn mark_of(token: &Token<'_>) -> Mark
    ensures { result ≡ spec.mark_of token.now }
{
    let word = match token.kind() {
        Kind::Name => word_of(token.text()),
        _ => Word::Other,
    };
    Mark {
        kind: token.kind(),
        word,
    }
}
