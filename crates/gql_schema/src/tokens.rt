//! The tokens that are left, as the grammar of schemas sees them.

ghost use Rattle.std.specs.Prelude.{◌≡◌, ◌≤◌, ◌-◌, true, length, drop};
ghost use Rattle.token_read.specs.Parse as parse;
ghost use Rattle.token_read.specs.Productions as productions;
ghost use Rattle.gql_terms.specs.Grammar.{strict};
ghost use Rattle.gql_terms.specs.declared.faults.Refusal.TheVariants.{Unexpected};
ghost use Rattle.gql_parser.specs.Reading as document;
ghost use Rattle.gql_schema.specs.Words.{marked};
ghost use Rattle.gql_schema.specs.Grammar as grammar;
ghost use Rattle.gql_schema.specs.Reading as spec;
ghost use Rattle.gql_schema.specs.Reads.{Reads};
ghost use Rattle.gql_schema.specs.Reads as reads;

use crate::words::{Mark, Word, mark_of, same_word};
use flow_base::Text;
use gql_parser::directives::ROOM;
use gql_parser::{Stop, Tokens};
use gql_terms::{Directive, Refusal, TypeRef, Value};
use gql_tokens::{Kind, Token, is_name, same_kind};
use std::alloc::Global;
use std::marker::Model;
use tree_items::Items;

/// What is asked of the next token.
#[derive(Clone, Copy, Debug, PartialEq, Eq)]
pub enum Test {
    Is(Kind),
    Word(Word),
    Name,
    Value,
    Description,
    BeginsItem,
    BeginsValue,
    BeginsDefinition,
}

fn is_value(mark: Mark) -> bool
    ensures { result ≡ grammar.is_value mark }
{
    match mark.kind {
        Kind::True | Kind::False | Kind::Null => false,
        kind => is_name(kind),
    }
}

fn is_description(mark: Mark) -> bool
    ensures { result ≡ grammar.is_description mark }
{
    same_kind(Kind::Str, mark.kind) || same_kind(Kind::Block, mark.kind)
}

fn is_word(word: Word, mark: Mark) -> bool
    ensures { result ≡ grammar.is_word word mark }
{
    same_kind(Kind::Name, mark.kind) && same_word(word, mark.word)
}

fn begins_definition(mark: Mark) -> bool
    ensures { result ≡ spec.begins_definition mark }
{
    is_description(mark)
        || (is_word(Word::Schema, mark)
            || (is_word(Word::Directive, mark)
                || (is_word(Word::Scalar, mark)
                    || (is_word(Word::Type, mark)
                        || (is_word(Word::Interface, mark)
                            || (is_word(Word::Union, mark)
                                || (is_word(Word::Enum, mark) || is_word(Word::Input, mark))))))))
}

fn passes(test: Test, mark: Mark) -> bool
    ensures { result ≡ reads.passes test mark }
{
    match test {
        Test::Is(kind) => same_kind(kind, mark.kind),
        Test::Word(word) => is_word(word, mark),
        Test::Name => is_name(mark.kind),
        Test::Value => is_value(mark),
        Test::Description => is_description(mark),
        Test::BeginsItem => is_name(mark.kind) || is_description(mark),
        Test::BeginsValue => is_value(mark) || is_description(mark),
        Test::BeginsDefinition => begins_definition(mark),
    }
}

fn last<'t, 'a>(tokens: &'t [Token<'a>], count: usize) -> &'t [Token<'a>]
    requires { count ≤ length tokens.now }
    ensures { result.now ≡ drop (length tokens.now - count) tokens.now }
{
    &tokens[tokens.len() - count..]
}

/// The tokens that are left.
#[derive(Drop)]
pub struct Left<'t, 'a> {
    rest: &'t [Token<'a>],
}

impl<'t, 'a> Model for Left<'t, 'a> {
    ghost use Rattle.std.specs.Prelude.{List, map};
    ghost use Rattle.token_read.specs.Lexeme.{Lexeme};
    ghost use Rattle.gql_schema.specs.declared.words.Mark.{Mark};
    ghost use Rattle.gql_schema.specs.Words.{marked};

    ghost Value = { List (Lexeme Mark) };

    ghost view = { λ t. map marked t.rest.now };
}

impl<'t, 'a> Left<'t, 'a> {
    ghost use Rattle.std.specs.Prelude.{map};

    /// All these tokens.
    pub fn new(rest: &'t [Token<'a>]) -> Left<'t, 'a>
        ensures { result ≡ map marked rest.now }
    {
        Left { rest }
    }

    /// How many are left.
    pub fn len(&self) -> usize
        ensures { result ≡ length self.now }
    {
        self.rest.len()
    }

    /// Whether the next token passes the test.
    pub fn sees(&self, test: Test) -> bool
        ensures { result ≡ parse.sees (reads.passes test) self.now }
    {
        match self.rest {
            [] => false,
            [next, ..] => passes(test, mark_of(next)),
        }
    }

    /// The next token, which passes the test.
    pub fn one(&mut self, test: Test) -> Result<Token<'a>, Stop>
        ensures { Reads (parse.one Unexpected (reads.passes test) self.old)
            (reads.with_mark result) self.new }
    {
        match self.rest {
            [next, rest @ ..] if passes(test, mark_of(next)) => {
                self.rest = rest;
                Ok(next.copy())
            }
            _ => Err(Stop::Refused(Refusal::Unexpected)),
        }
    }

    /// The text of the next token, which passes the test.
    pub fn text(&mut self, alloc: Global, test: Test) -> Result<Text, Stop>
        ensures { Reads (productions.text Unexpected (reads.passes test) self.old) result self.new }
    {
        let token = self.one(test)?;
        Ok(Text::of(alloc, token.text())?)
    }

    /// The last tokens, so many.
    #[tactic(auto, using(crate::proofs::Over::kept))]
    fn keep(&mut self, count: usize)
        requires { count ≤ length self.old }
        ensures { self.new ≡ drop (length self.old - count) self.old }
    {
        self.rest = last(self.rest, count);
    }

    /// A type (section 2.11).
    #[tactic(auto, unfolding(crate::specs::Reading::type_ref))]
    pub fn type_ref(&mut self, alloc: Global) -> Result<TypeRef, Stop>
        ensures { Reads (spec.type_ref self.old) result self.new }
    {
        let mut tokens = Tokens::new(self.rest);
        match gql_parser::types::type_ref(alloc, &mut tokens, ROOM) {
            Err(Stop::Memory) => Err(Stop::Memory),
            Err(Stop::Refused(why)) => {
                self.keep(tokens.len());
                Err(Stop::Refused(why))
            }
            Ok(of) => {
                self.keep(tokens.len());
                Ok(of)
            }
        }
    }

    /// A constant value (section 2.9).
    pub fn value(&mut self, alloc: Global) -> Result<Value, Stop>
        ensures { Reads (spec.over (document.value true strict.values) self.old) result self.new }
    {
        let mut tokens = Tokens::new(self.rest);
        match gql_parser::values::value(alloc, &mut tokens, true, ROOM) {
            Err(Stop::Memory) => Err(Stop::Memory),
            Err(Stop::Refused(why)) => {
                self.keep(tokens.len());
                Err(Stop::Refused(why))
            }
            Ok(value) => {
                self.keep(tokens.len());
                Ok(value)
            }
        }
    }

    /// As many directives as there are (section 2.12).
    #[tactic(auto, unfolding(crate::specs::Reading::directives))]
    pub fn directives(&mut self, alloc: Global) -> Result<Items<Directive>, Stop>
        ensures { Reads (spec.directives self.old) result self.new }
    {
        let mut tokens = Tokens::new(self.rest);
        match gql_parser::directives::directives(alloc, &mut tokens) {
            Err(Stop::Memory) => Err(Stop::Memory),
            Err(Stop::Refused(why)) => {
                self.keep(tokens.len());
                Err(Stop::Refused(why))
            }
            Ok(found) => {
                self.keep(tokens.len());
                Ok(found)
            }
        }
    }
}
