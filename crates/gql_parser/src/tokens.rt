//! The tokens that are left.

ghost use Rattle.std.specs.Prelude.{◌≡◌, length};
ghost use Rattle.token_read.specs.Parse as parse;
ghost use Rattle.token_read.specs.Productions as productions;
ghost use Rattle.gql_tokens.specs.KindTests as kinds;
ghost use Rattle.gql_terms.specs.Grammar as grammar;
ghost use Rattle.gql_terms.specs.declared.faults.Refusal.TheVariants.{Unexpected};
ghost use Rattle.gql_parser.specs.Reading as spec;
ghost use Rattle.gql_parser.specs.Reads.{Reads};
ghost use Rattle.gql_parser.specs.Reads as reads;

use flow_base::{Memory, Text};
use gql_terms::Refusal;
use gql_tokens::{Kind, Token, is_fragment_name, is_name, same_kind};
use std::alloc::{AllocError, Global};
use std::marker::Model;

/// What is asked of the next token.
#[derive(Clone, Copy, Debug, PartialEq, Eq)]
pub enum Test {
    Is(Kind),
    Name,
    FragmentName,
    Leaf(bool),
    BeginsValue(bool),
    BeginsSelection,
    BeginsSet,
    Operation,
    BeginsDefinition,
}

/// Why reading stops.
#[derive(Debug, Drop)]
pub enum Stop {
    Memory,
    Refused(Refusal),
}

impl From<AllocError> for Stop {
    ghost use Rattle.gql_parser.specs.declared.tokens.Stop.TheVariants as stops;

    ghost from_gives = { λ _ e. e ≡ stops.Memory };

    fn from(_: AllocError) -> Stop {
        Stop::Memory
    }
}

impl From<Memory> for Stop {
    ghost use Rattle.gql_parser.specs.declared.tokens.Stop.TheVariants as stops;

    ghost from_gives = { λ _ e. e ≡ stops.Memory };

    fn from(_: Memory) -> Stop {
        Stop::Memory
    }
}

fn is_leaf(constant: bool, kind: Kind) -> bool
    ensures { result ≡ spec.is_leaf constant kind }
{
    match kind {
        Kind::Number | Kind::Str => true,
        Kind::Block => !constant,
        _ => is_name(kind),
    }
}

fn begins_value(constant: bool, kind: Kind) -> bool
    ensures { result ≡ spec.begins_value constant kind }
{
    match kind {
        Kind::Dollar => !constant,
        Kind::OpenBracket | Kind::OpenBrace => true,
        _ => is_leaf(constant, kind),
    }
}

fn is_operation(kind: Kind) -> bool
    ensures { result ≡ grammar.is_operation kind }
{
    matches!(kind, Kind::Query | Kind::Mutation | Kind::Subscription)
}

fn begins_definition(kind: Kind) -> bool
    ensures { result ≡ spec.begins_definition kind }
{
    match kind {
        Kind::OpenBrace | Kind::Gap | Kind::Fragment => true,
        _ => is_operation(kind),
    }
}

fn begins_selection(kind: Kind) -> bool
    ensures { result ≡ spec.begins_selection kind }
{
    match kind {
        Kind::Dots => true,
        _ => is_name(kind),
    }
}

fn passes(test: Test, kind: Kind) -> bool
    ensures { result ≡ reads.passes test kind }
{
    match test {
        Test::Is(wanted) => same_kind(wanted, kind),
        Test::Name => is_name(kind),
        Test::FragmentName => is_fragment_name(kind),
        Test::Leaf(constant) => is_leaf(constant, kind),
        Test::BeginsValue(constant) => begins_value(constant, kind),
        Test::BeginsSelection => begins_selection(kind),
        Test::BeginsSet => matches!(kind, Kind::OpenBrace | Kind::Gap),
        Test::Operation => is_operation(kind),
        Test::BeginsDefinition => begins_definition(kind),
    }
}

/// The tokens that are left.
#[derive(Drop)]
pub struct Tokens<'t, 'a> {
    rest: &'t [Token<'a>],
}

impl<'t, 'a> Model for Tokens<'t, 'a> {
    ghost use Rattle.std.specs.Prelude.{List};
    ghost use Rattle.token_read.specs.Lexeme.{Lexeme};
    ghost use Rattle.gql_tokens.specs.declared.kinds.Kind.{Kind};

    ghost Value = { List (Lexeme Kind) };

    ghost view = { λ t. t.rest.now };
}

impl<'t, 'a> Tokens<'t, 'a> {
    /// All these tokens.
    pub fn new(rest: &'t [Token<'a>]) -> Tokens<'t, 'a>
        ensures { result ≡ rest.now }
    {
        Tokens { rest }
    }

    /// How many are left.
    pub fn len(&self) -> usize
        ensures { result ≡ length self.now }
    {
        self.rest.len()
    }

    /// Whether the next token passes the test.
    pub fn sees(&self, test: Test) -> bool
        ensures { result ≡ parse.sees (reads.passes test) self.now }
    {
        match self.rest {
            [] => false,
            [next, ..] => passes(test, next.kind()),
        }
    }

    /// The next token, which passes the test.
    pub fn one(&mut self, test: Test) -> Result<Token<'a>, Stop>
        ensures { Reads (parse.one Unexpected (reads.passes test) self.old) result self.new }
    {
        match self.rest {
            [next, rest @ ..] if passes(test, next.kind()) => {
                self.rest = rest;
                Ok(next.copy())
            }
            _ => Err(Stop::Refused(Refusal::Unexpected)),
        }
    }

    /// The text of the next token, which passes the test.
    pub fn text(&mut self, alloc: Global, test: Test) -> Result<Text, Stop>
        ensures { Reads (productions.text Unexpected (reads.passes test) self.old) result self.new }
    {
        let token = self.one(test)?;
        Ok(Text::of(alloc, token.text())?)
    }
}
