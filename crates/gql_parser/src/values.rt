//! Values, by recursive descent: one call deeper for each level of lists and objects.

ghost use Rattle.std.specs.Prelude.{◌≡◌, IfOk};
ghost use Rattle.token_read.specs.Parse as parse;
ghost use Rattle.gql_tokens.specs.KindTests as kinds;
ghost use Rattle.gql_parser.specs.Reading as spec;
ghost use Rattle.gql_parser.specs.Reads.{Reads, prefixed};

use crate::lists::fitted;
use crate::tokens::{Stop, Test, Tokens};
use flow_base::{Memory, Text};
use gql_terms::{Refusal, Value};
use gql_tokens::Kind;
use std::alloc::Global;
use tree_items::Items;

fn leaf_of(alloc: Global, kind: Kind, text: &str) -> Result<Value, Memory>
    ensures { IfOk result (λ v. v ≡ spec.leaf_of kind text.now) }
{
    match kind {
        Kind::Number => Ok(Value::Number(Text::of(alloc, text)?)),
        Kind::Str => Ok(Value::Str(Text::of(alloc, text)?)),
        Kind::Block => Ok(Value::Block(Text::of(alloc, text)?)),
        Kind::True => Ok(Value::Bool(true)),
        Kind::False => Ok(Value::Bool(false)),
        Kind::Null => Ok(Value::Null),
        _ => Ok(Value::EnumName(Text::of(alloc, text)?)),
    }
}

fn leaf(alloc: Global, tokens: &mut Tokens<'_, '_>, constant: bool) -> Result<Value, Stop>
    ensures { Reads (spec.leaf constant tokens.old) result tokens.new }
{
    let token = tokens.one(Test::Leaf(constant))?;
    Ok(leaf_of(alloc, token.kind(), token.text())?)
}

fn variable(alloc: Global, tokens: &mut Tokens<'_, '_>) -> Result<Value, Stop>
    ensures { Reads (spec.variable tokens.old) result tokens.new }
{
    tokens.one(Test::Is(Kind::Dollar))?;
    let name = tokens.text(alloc, Test::Name)?;
    Ok(Value::Variable(name))
}

fn simple(alloc: Global, tokens: &mut Tokens<'_, '_>, constant: bool) -> Result<Value, Stop>
    ensures { Reads (spec.simple constant tokens.old) result tokens.new }
{
    if constant {
        return leaf(alloc, tokens, true);
    }
    if tokens.sees(Test::Is(Kind::Dollar)) {
        return variable(alloc, tokens);
    }
    leaf(alloc, tokens, false)
}

#[cycle(value)]
pub fn pair(
    alloc: Global,
    tokens: &mut Tokens<'_, '_>,
    constant: bool,
    room: usize,
) -> Result<(Text, Value), Stop>
    ensures { Reads (spec.pair (spec.value constant room) tokens.old) result tokens.new }
{
    let name = tokens.text(alloc, Test::Name)?;
    tokens.one(Test::Is(Kind::Colon))?;
    let given = value(alloc, tokens, constant, room)?;
    Ok((name, given))
}

#[cycle(value)]
pub fn pairs(
    alloc: Global,
    tokens: &mut Tokens<'_, '_>,
    constant: bool,
    room: usize,
    found: Items<(Text, Value)>,
) -> Result<Items<(Text, Value)>, Stop>
    ensures { Reads (prefixed found
        (parse.many kinds.is_name (spec.pair (spec.value constant room)) tokens.old)) result
        tokens.new }
{
    let mut found = found;
    for _ in 0..tokens.len() {
        if !tokens.sees(Test::Name) {
            return Ok(found);
        }
        found.push(pair(alloc, tokens, constant, room)?)?;
    }
    Ok(found)
}

#[cycle(value)]
fn values(
    alloc: Global,
    tokens: &mut Tokens<'_, '_>,
    constant: bool,
    room: usize,
) -> Result<Items<Value>, Stop>
    ensures { Reads (parse.many (spec.begins_value constant) (spec.value constant room) tokens.old)
        result tokens.new }
{
    let mut found = Items::new(alloc);
    for _ in 0..tokens.len() {
        if !tokens.sees(Test::BeginsValue(constant)) {
            return Ok(found);
        }
        found.push(value(alloc, tokens, constant, room)?)?;
    }
    Ok(found)
}

#[cycle(value)]
fn list_of(
    alloc: Global,
    tokens: &mut Tokens<'_, '_>,
    constant: bool,
    room: usize,
) -> Result<Value, Stop>
    ensures { Reads (spec.list_of constant (spec.value constant room) tokens.old)
        result tokens.new }
{
    tokens.one(Test::Is(Kind::OpenBracket))?;
    let found = values(alloc, tokens, constant, room)?;
    tokens.one(Test::Is(Kind::CloseBracket))?;
    Ok(Value::List(fitted(found)))
}

#[cycle(value)]
fn object_of(
    alloc: Global,
    tokens: &mut Tokens<'_, '_>,
    constant: bool,
    room: usize,
) -> Result<Value, Stop>
    ensures { Reads (spec.object_of (spec.value constant room) tokens.old) result tokens.new }
{
    tokens.one(Test::Is(Kind::OpenBrace))?;
    let found = pairs(alloc, tokens, constant, room, Items::new(alloc))?;
    tokens.one(Test::Is(Kind::CloseBrace))?;
    Ok(Value::Object(fitted(found)))
}

/// A value, with room for so many more levels.
#[cycle(value)]
pub fn value(
    alloc: Global,
    tokens: &mut Tokens<'_, '_>,
    constant: bool,
    room: usize,
) -> Result<Value, Stop>
    ensures { Reads (spec.value constant room tokens.old) result tokens.new }
{
    if tokens.sees(Test::Is(Kind::OpenBracket)) {
        if room == 0 {
            return Err(Stop::Refused(Refusal::Deep));
        }
        return list_of(alloc, tokens, constant, room - 1);
    }
    if tokens.sees(Test::Is(Kind::OpenBrace)) {
        if room == 0 {
            return Err(Stop::Refused(Refusal::Deep));
        }
        return object_of(alloc, tokens, constant, room - 1);
    }
    simple(alloc, tokens, constant)
}
