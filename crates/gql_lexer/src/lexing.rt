//! The loop over the tokens of a text.

ghost use Rattle.std.specs.Prelude.{◌≡◌, ◌<◌, ◌++◌, ◌∷◌, [], Some, IfOk, length, take, drop};
ghost use Rattle.std.specs.Str.{IsCharBoundary};
ghost use Rattle.gql_tokens.specs.declared.scanner.Class.{Class as Class_};
ghost use Rattle.gql_tokens.specs.Lexical as grammar;
ghost use Rattle.gql_tokens.specs.Lexing.{IsLexed};
ghost use Rattle.gql_lexer.specs.Endings as spec;
ghost use Rattle.gql_lexer.specs.Fronts.{IsFront};

use crate::words::{finish, growths, token_of};
use flow_base::Memory;
use gql_tokens::{Class, Last, Lexed, Scan, State, Token, ignored_length, token_at};
use std::alloc::Global;

/// What stands at the front of a text.
#[derive(Clone, Copy, Debug, PartialEq, Eq)]
pub enum Front {
    /// So many bytes that are ignored.
    Ignored(usize),
    /// A token of so many bytes.
    Found(Class, usize),
    /// What was read up to the end of the text, where a token may still grow.
    End(State),
    /// What begins no token.
    Bad,
}

fn at_front(text: &str) -> Front
    requires { 0 < length text.now }
    ensures { IsFront text.now result }
{
    let bytes = text.as_bytes();
    let skipped = ignored_length(bytes);
    if skipped > 0 {
        return Front::Ignored(skipped);
    }
    match token_at(bytes) {
        Scan::Found(class, length) => Front::Found(class, length),
        Scan::End(state) => Front::End(state),
        Scan::Bad => Front::Bad,
    }
}

fn rest_from<'a>(text: &'a str, at: usize) -> &'a str
    requires { IsCharBoundary text.now at }
    ensures { result.now ≡ drop at text.now }
{
    &text[at..]
}

fn part<'a>(text: &'a str, end: usize) -> &'a str
    requires { IsCharBoundary text.now end }
    ensures { result.now ≡ take end text.now }
{
    &text[..end]
}

fn add_place(places: &mut Vec<usize>, place: usize) -> Result<(), Memory>
    ensures { IfOk result (λ _. places.new.items ≡ places.old.items ++ place ∷ []) }
{
    places.push(place)?;
    Ok(())
}

fn add<'a>(
    tokens: &mut Vec<Token<'a>>,
    places: &mut Vec<usize>,
    token: Token<'a>,
    place: usize,
) -> Result<(), Memory>
    ensures token { IfOk result (λ _. tokens.new.items ≡ tokens.old.items ++ token.entry ∷ []) }
    ensures place { IfOk result (λ _. places.new.items ≡ places.old.items ++ place ∷ []) }
{
    tokens.push(token)?;
    add_place(places, place)?;
    Ok(())
}

/// What a text is that ends within this.
fn end_within<'a>(
    alloc: Global,
    tokens: Vec<Token<'a>>,
    places: Vec<usize>,
    state: State,
    rest: &'a str,
) -> Result<Lexed<'a>, Memory>
    requires { (class : Class_) → spec.finish state ≡ Some class → grammar.IsLexeme class rest.now }
    ensures { IfOk result (λ l. spec.EndsWithin tokens.entry.items places.items state rest.now
        l.tokens.items l.places.items l.last) }
{
    let mut tokens = tokens;
    let kinds = growths(alloc, state, rest)?;
    match finish(state) {
        Some(class) => {
            tokens.push(token_of(class, rest))?;
            Ok(Lexed {
                tokens,
                places,
                last: Last::Whole(kinds),
            })
        }
        None => Ok(Lexed {
            tokens,
            places,
            last: Last::Cut(kinds),
        }),
    }
}

/// The tokens of a text, their places, and how the text ends. Fails only for want of memory.
pub fn lex<'a>(alloc: Global, text: &'a str) -> Result<Lexed<'a>, Memory>
    ensures { IfOk result (λ l. IsLexed text.now l.tokens.items l.places.items l.last) }
{
    let mut tokens = Vec::new(alloc);
    let mut places = Vec::new(alloc);
    let mut at = 0;
    let bytes = text.as_bytes();
    while at < bytes.len() {
        let rest = rest_from(text, at);
        match at_front(rest) {
            Front::Ignored(length) => at += length,
            Front::Found(class, length) => {
                add(
                    &mut tokens,
                    &mut places,
                    token_of(class, part(rest, length)),
                    at,
                )?;
                at += length;
            }
            Front::End(state) => {
                add_place(&mut places, at)?;
                let lexed = end_within(alloc, tokens, places, state, rest)?;
                return Ok(lexed);
            }
            Front::Bad => {
                add_place(&mut places, at)?;
                return Ok(Lexed {
                    tokens,
                    places,
                    last: Last::Cut(Vec::new(alloc)),
                });
            }
        }
    }
    Ok(Lexed {
        tokens,
        places,
        last: Last::Settled,
    })
}
