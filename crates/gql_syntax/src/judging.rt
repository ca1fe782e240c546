//! What the tokens of a text and its end say of the text.

ghost use Rattle.std.specs.Prelude.{◌≡◌, ◌<◌, ◌≤◌, ◌-◌, length, slice_index};
ghost use Rattle.gql_tokens.specs.Lexing.{IsLexed};
ghost use Rattle.gql_tokens.specs.declared.lexer.Last.TheVariants as lasts;
ghost use Rattle.gql_terms.specs.Grammar.{strict};
ghost use Rattle.gql_parser.specs.Reading as parser;
ghost use Rattle.gql_parser.specs.Judging.{Judged};
ghost use Rattle.gql_syntax.specs.Readings.{IsReading, IsWhole, IsCut};

use gql_parser::{Stop, Tokens, all, cut_off, placed, whole};
use gql_terms::{Document, GqlFault, Refusal};
use gql_tokens::{Kind, Last, Lexed, Token};
use std::alloc::Global;

/// What reading the tokens gave: the document, or a refusal with the number of tokens that are left.
#[derive(Debug, Drop)]
pub enum Reading {
    Read(Document),
    Refused(Refusal, usize),
    Memory,
}

pub fn read(alloc: Global, tokens: &Vec<Token<'_>>) -> Reading
    ensures { IsReading (parser.all strict tokens.now.items) result }
{
    let mut left = Tokens::new(tokens.as_slice());
    match all(alloc, &mut left) {
        Ok(document) => Reading::Read(document),
        Err(Stop::Refused(why)) => Reading::Refused(why, left.len()),
        Err(Stop::Memory) => Reading::Memory,
    }
}

fn count(tokens: &Vec<Token<'_>>) -> usize
    ensures { result ≡ length tokens.now.items }
{
    tokens.as_slice().len()
}

/// The place of the token from which on so many are left.
fn place_of(tokens: &Vec<Token<'_>>, places: &Vec<usize>, left: usize) -> usize
    requires { (left ≤ length tokens.now.items)
        × (length tokens.now.items - left < length places.now.items) }
    ensures { result ≡ slice_index places.now.items (length tokens.now.items - left) }
{
    let index = count(tokens) - left;
    places[index]
}

/// A text that ends between tokens.
fn of_settled(
    text: &[u8],
    tokens: Vec<Token<'_>>,
    places: Vec<usize>,
    reading: Reading,
) -> Result<Document, GqlFault>
    requires lexed { IsLexed text.now tokens.items places.items lasts.Settled }
    requires reading { IsReading (parser.all strict tokens.items) reading }
    ensures { Judged text.now result }
{
    match reading {
        Reading::Memory => Err(GqlFault::Memory),
        Reading::Read(document) => Ok(document),
        Reading::Refused(why, left) => {
            if left == 0 {
                return Err(GqlFault::Ended);
            }
            let place = place_of(&tokens, &places, left);
            Err(placed(why, place))
        }
    }
}

/// A text that ends with a token which may still grow.
fn of_whole(
    alloc: Global,
    text: &[u8],
    tokens: Vec<Token<'_>>,
    places: Vec<usize>,
    kinds: Vec<Kind>,
    reading: Reading,
) -> Result<Document, GqlFault>
    requires lexed { IsWhole text.now tokens.items places.items kinds.items }
    requires reading { IsReading (parser.all strict tokens.items) reading }
    ensures { Judged text.now result }
{
    match reading {
        Reading::Memory => Err(GqlFault::Memory),
        Reading::Read(document) => Ok(document),
        Reading::Refused(why, left) => {
            if left == 0 {
                return Err(GqlFault::Ended);
            }
            let place = place_of(&tokens, &places, left);
            if left > 1 {
                return Err(placed(why, place));
            }
            whole(alloc, text, tokens, kinds, place, why)
        }
    }
}

/// A text that ends within something that is no token.
fn of_cut(
    alloc: Global,
    text: &[u8],
    tokens: Vec<Token<'_>>,
    places: Vec<usize>,
    kinds: Vec<Kind>,
    reading: Reading,
) -> Result<Document, GqlFault>
    requires lexed { IsCut text.now tokens.items places.items kinds.items }
    requires reading { IsReading (parser.all strict tokens.items) reading }
    ensures { Judged text.now result }
{
    match reading {
        Reading::Memory => Err(GqlFault::Memory),
        Reading::Read(_) => {
            let end = place_of(&tokens, &places, 0);
            cut_off(alloc, text, tokens, kinds, end)
        }
        Reading::Refused(why, left) => {
            let place = place_of(&tokens, &places, left);
            if left > 0 {
                return Err(placed(why, place));
            }
            cut_off(alloc, text, tokens, kinds, place)
        }
    }
}

/// The document that these tokens are, or the first fault of their text.
pub fn judge(alloc: Global, text: &[u8], lexed: Lexed<'_>) -> Result<Document, GqlFault>
    requires { IsLexed text.now lexed.tokens.items lexed.places.items lexed.last }
    ensures { Judged text.now result }
{
    let Lexed {
        tokens,
        places,
        last,
    } = lexed;
    let reading = read(alloc, &tokens);
    match last {
        Last::Settled => of_settled(text, tokens, places, reading),
        Last::Whole(kinds) => of_whole(alloc, text, tokens, places, kinds, reading),
        Last::Cut(kinds) => of_cut(alloc, text, tokens, places, kinds, reading),
    }
}
