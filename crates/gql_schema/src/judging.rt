//! What the tokens of a text and its end say of the text.

ghost use Rattle.std.specs.Prelude.{◌≡◌, ◌<◌, ◌≤◌, ◌-◌, [], ◌∷◌, ◌++◌, IfOk, length, slice_index, drop, map};
ghost use Rattle.std.specs.Str.{IsUtf8};
ghost use Rattle.gql_tokens.specs.Lexing.{IsLexed, Placed};
ghost use Rattle.gql_tokens.specs.Lexical as lexical;
ghost use Rattle.token_read.specs.Texts.{Settled as Settled_};
ghost use Rattle.gql_parser.specs.Judging.{TellsWhether};
ghost use Rattle.gql_schema.specs.Words.{marked};
ghost use Rattle.gql_schema.specs.Reading as spec;
ghost use Rattle.gql_schema.specs.Judging as judging;
ghost use Rattle.gql_schema.specs.Judging.{Judged, IsReading, IsWhole, IsCut, RefusedLast, CutAt, CanGoOn};

use crate::definitions::all;
use crate::fault::SdlFault;
use crate::growing::growths;
use crate::terms::Part;
use crate::tokens::Left;
use flow_base::Memory;
use gql_parser::Stop;
use gql_tokens::{Last, Lexed, Scan, Token, token_at};
use std::alloc::Global;
use tree_items::Items;

/// What reading the tokens gave: definitions, or a refusal with the number of tokens that are left.
#[derive(Debug, Drop)]
pub enum Reading {
    Read(Items<Part>),
    Refused(usize),
    Memory,
}

fn read(alloc: Global, tokens: &Vec<Token<'_>>) -> Reading
    ensures { IsReading (spec.all (map marked tokens.now.items)) result }
{
    let mut left = Left::new(tokens.as_slice());
    match all(alloc, &mut left) {
        Ok(parts) => Reading::Read(parts),
        Err(Stop::Refused(_)) => Reading::Refused(left.len()),
        Err(Stop::Memory) => Reading::Memory,
    }
}

/// Whether some schema begins with the tokens.
fn consumes(alloc: Global, tokens: &[Token<'_>]) -> Result<bool, Memory>
    ensures { IfOk result (λ b. TellsWhether b (judging.BeginsSchema tokens.now)) }
{
    let mut left = Left::new(tokens);
    match all(alloc, &mut left) {
        Err(Stop::Memory) => Err(Memory),
        Ok(_) => Ok(left.len() == 0),
        Err(Stop::Refused(_)) => Ok(left.len() == 0),
    }
}

/// Whether some schema begins with the tokens and this one. They are left as they were.
fn consumes_with<'a>(
    alloc: Global,
    tokens: &mut Vec<Token<'a>>,
    next: &Token<'a>,
) -> Result<bool, Memory>
    ensures tells { IfOk result
        (λ b. TellsWhether b (judging.BeginsSchema (tokens.old.items ++ next.now ∷ []))) }
    ensures same { IfOk result (λ b. tokens.new.items ≡ tokens.old.items) }
{
    tokens.push(next.copy())?;
    let consumed = consumes(alloc, tokens.as_slice())?;
    let _ = tokens.pop();
    Ok(consumed)
}

/// Whether some schema begins with the tokens and one of those.
fn can_go_on<'a>(
    alloc: Global,
    tokens: &mut Vec<Token<'a>>,
    next: &[Token<'a>],
) -> Result<bool, Memory>
    ensures { IfOk result (λ b. TellsWhether b (CanGoOn tokens.old.items next.now)) }
{
    for i in 0..next.len() {
        if consumes_with(alloc, tokens, &next[i])? {
            return Ok(true);
        }
    }
    Ok(false)
}

fn scanned(rest: &[u8]) -> Scan
    requires { 0 < length rest.now }
    ensures { result ≡ judging.scanned rest.now }
{
    token_at(rest)
}

/// A token for each mark that the last token may grow to, which begins the rest of the text.
fn last_next<'a>(alloc: Global, rest: &[u8], last: Token<'a>) -> Result<Vec<Token<'a>>, Memory>
    requires { 0 < length rest.now }
    ensures { IfOk result (λ next. next.items
        ≡ judging.last_next (judging.scanned rest.now) rest.now last.entry) }
{
    match scanned(rest) {
        Scan::End(state) => growths(alloc, state, rest),
        _ => {
            let mut next = Vec::new(alloc);
            next.push(last)?;
            Ok(next)
        }
    }
}

/// A token for each mark that the rest of the text may grow to, which begins with no token.
fn cut_next<'a>(alloc: Global, rest: &[u8]) -> Result<Vec<Token<'a>>, Memory>
    requires { 0 < length rest.now }
    ensures { IfOk result (λ next. next.items
        ≡ judging.cut_next (judging.scanned rest.now) rest.now) }
{
    match scanned(rest) {
        Scan::End(state) => growths(alloc, state, rest),
        _ => Ok(Vec::new(alloc)),
    }
}

fn rest_from(text: &[u8], place: usize) -> &[u8]
    requires { place ≤ length text.now }
    ensures { result.now ≡ drop place text.now }
{
    &text[place..]
}

fn take_last<'a>(tokens: &mut Vec<Token<'a>>) -> Token<'a>
    requires { 0 < length tokens.old.items }
    ensures { tokens.old.items ≡ tokens.new.items ++ result ∷ [] }
{
    tokens.pop().unwrap()
}

/// A text whose last token may grow, where that token is refused.
fn refused_last(
    alloc: Global,
    text: &[u8],
    tokens: Vec<Token<'_>>,
    place: usize,
) -> Result<Items<Part>, SdlFault>
    requires { RefusedLast text.now tokens.items place }
    ensures { Judged text.now result }
{
    let mut tokens = tokens;
    let last = take_last(&mut tokens);
    let next = last_next(alloc, rest_from(text, place), last)?;
    if can_go_on(alloc, &mut tokens, next.as_slice())? {
        return Err(SdlFault::Syntax(text.len() as u64));
    }
    Err(SdlFault::Syntax(place as u64))
}

/// A text that ends within something that is no token, where some schema begins with the tokens before it.
fn cut_off(
    alloc: Global,
    text: &[u8],
    tokens: Vec<Token<'_>>,
    place: usize,
) -> Result<Items<Part>, SdlFault>
    requires utf8 { IsUtf8 text.now }
    requires cut { CutAt text.now tokens.items place }
    ensures { Judged text.now result }
{
    let mut tokens = tokens;
    let next = cut_next(alloc, rest_from(text, place))?;
    if can_go_on(alloc, &mut tokens, next.as_slice())? {
        return Err(SdlFault::Syntax(text.len() as u64));
    }
    Err(SdlFault::Syntax(place as u64))
}

fn count(tokens: &Vec<Token<'_>>) -> usize
    ensures { result ≡ length tokens.now.items }
{
    tokens.as_slice().len()
}

/// The place of the token from which on so many are left.
fn place_of(tokens: &Vec<Token<'_>>, places: &Vec<usize>, left: usize) -> usize
    requires { (left ≤ length tokens.now.items)
        × (length tokens.now.items - left < length places.now.items) }
    ensures { result ≡ slice_index places.now.items (length tokens.now.items - left) }
{
    let index = count(tokens) - left;
    places[index]
}

/// A text that ends between tokens.
fn of_settled(
    text: &[u8],
    tokens: Vec<Token<'_>>,
    places: Vec<usize>,
    reading: Reading,
) -> Result<Items<Part>, SdlFault>
    requires placed { Placed text.now tokens.items places.items }
    requires counted { length places.items ≡ length tokens.items }
    requires lexes { lexical.Lexes tokens.items text.now }
    requires settled { Settled_ lexical.IsReal lexical.Lexes text.now tokens.items }
    requires reading { IsReading (spec.all (map marked tokens.items)) reading }
    ensures { Judged text.now result }
{
    match reading {
        Reading::Memory => Err(SdlFault::Memory),
        Reading::Read(parts) => Ok(parts),
        Reading::Refused(left) => {
            if left == 0 {
                return Err(SdlFault::Syntax(text.len() as u64));
            }
            Err(SdlFault::Syntax(place_of(&tokens, &places, left) as u64))
        }
    }
}

/// A text that ends with a token which may still grow.
fn of_whole(
    alloc: Global,
    text: &[u8],
    tokens: Vec<Token<'_>>,
    places: Vec<usize>,
    reading: Reading,
) -> Result<Items<Part>, SdlFault>
    requires lexed { IsWhole text.now tokens.items places.items }
    requires reading { IsReading (spec.all (map marked tokens.items)) reading }
    ensures { Judged text.now result }
{
    match reading {
        Reading::Memory => Err(SdlFault::Memory),
        Reading::Read(parts) => Ok(parts),
        Reading::Refused(left) => {
            if left == 0 {
                return Err(SdlFault::Syntax(text.len() as u64));
            }
            let place = place_of(&tokens, &places, left);
            if left > 1 {
                return Err(SdlFault::Syntax(place as u64));
            }
            refused_last(alloc, text, tokens, place)
        }
    }
}

/// A text that ends within something that is no token.
fn of_cut(
    alloc: Global,
    text: &[u8],
    tokens: Vec<Token<'_>>,
    places: Vec<usize>,
    reading: Reading,
) -> Result<Items<Part>, SdlFault>
    requires utf8 { IsUtf8 text.now }
    requires lexed { IsCut text.now tokens.items places.items }
    requires reading { IsReading (spec.all (map marked tokens.items)) reading }
    ensures { Judged text.now result }
{
    match reading {
        Reading::Memory => Err(SdlFault::Memory),
        Reading::Read(_) => {
            let end = place_of(&tokens, &places, 0);
            cut_off(alloc, text, tokens, end)
        }
        Reading::Refused(left) => {
            let place = place_of(&tokens, &places, left);
            if left > 0 {
                return Err(SdlFault::Syntax(place as u64));
            }
            cut_off(alloc, text, tokens, place)
        }
    }
}

/// The definitions that these tokens are, or the place of their text's first fault.
pub fn judge(alloc: Global, text: &[u8], lexed: Lexed<'_>) -> Result<Items<Part>, SdlFault>
    requires utf8 { IsUtf8 text.now }
    requires lexed { IsLexed text.now lexed.tokens.items lexed.places.items lexed.last }
    ensures { Judged text.now result }
{
    let Lexed {
        tokens,
        places,
        last,
    } = lexed;
    let reading = read(alloc, &tokens);
    match last {
        Last::Settled => of_settled(text, tokens, places, reading),
        Last::Whole(_) => of_whole(alloc, text, tokens, places, reading),
        Last::Cut(_) => of_cut(alloc, text, tokens, places, reading),
    }
}
