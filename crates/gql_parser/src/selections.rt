//! Selections, one call deeper for each selection set.

ghost use Rattle.std.specs.Prelude.{◌≡◌, []};
ghost use Rattle.token_read.specs.Parse as parse;
ghost use Rattle.token_read.specs.Productions as productions;
ghost use Rattle.gql_terms.specs.Grammar.{strict};
ghost use Rattle.gql_terms.specs.declared.faults.Refusal.TheVariants.{Unexpected};
ghost use Rattle.gql_parser.specs.Reading as spec;
ghost use Rattle.gql_parser.specs.Reads.{Reads, prefixed};

use crate::directives::{arguments, directives};
use crate::lists::fitted;
use crate::tokens::{Stop, Test, Tokens};
use flow_base::Text;
use gql_terms::{Refusal, Selection};
use gql_tokens::Kind;
use std::alloc::Global;
use tree_items::Items;

#[tactic(auto, unfolding(crate::specs::Reading::alias_and_name))]
fn alias_and_name(alloc: Global, tokens: &mut Tokens<'_, '_>) -> Result<(Option<Text>, Text), Stop>
    ensures { Reads (spec.alias_and_name tokens.old) result tokens.new }
{
    let first = tokens.text(alloc, Test::Name)?;
    if !tokens.sees(Test::Is(Kind::Colon)) {
        return Ok((None, first));
    }
    tokens.one(Test::Is(Kind::Colon))?;
    let name = tokens.text(alloc, Test::Name)?;
    Ok((Some(first), name))
}

#[tactic(auto, unfolding(crate::specs::Reading::may_condition))]
fn may_condition(alloc: Global, tokens: &mut Tokens<'_, '_>) -> Result<Option<Text>, Stop>
    ensures { Reads (spec.may_condition tokens.old) result tokens.new }
{
    if !tokens.sees(Test::Is(Kind::On)) {
        return Ok(None);
    }
    tokens.one(Test::Is(Kind::On))?;
    Ok(Some(tokens.text(alloc, Test::Name)?))
}

fn spread(alloc: Global, tokens: &mut Tokens<'_, '_>) -> Result<Selection, Stop>
    ensures { Reads (spec.spread strict tokens.old) result tokens.new }
{
    let name = tokens.text(alloc, Test::FragmentName)?;
    let directives = directives(alloc, tokens)?;
    Ok(Selection::Spread { name, directives })
}

/// No token is a gap.
fn gap(alloc: Global, tokens: &mut Tokens<'_, '_>) -> Result<Items<Selection>, Stop>
    ensures { Reads (spec.gap tokens.old) result tokens.new }
{
    tokens.one(Test::Is(Kind::Gap))?;
    Ok(Items::new(alloc))
}

#[cycle(set)]
fn inline(alloc: Global, tokens: &mut Tokens<'_, '_>, room: usize) -> Result<Selection, Stop>
    ensures { Reads (spec.inline strict (spec.set strict room) tokens.old) result tokens.new }
{
    let on = may_condition(alloc, tokens)?;
    let directives = directives(alloc, tokens)?;
    let selections = set(alloc, tokens, room)?;
    Ok(Selection::Inline {
        on,
        directives,
        selections,
    })
}

#[cycle(set)]
fn may_set(
    alloc: Global,
    tokens: &mut Tokens<'_, '_>,
    room: usize,
) -> Result<Items<Selection>, Stop>
    ensures { Reads (productions.optional spec.begins_set (spec.set strict room) [] tokens.old)
        result tokens.new }
{
    if !tokens.sees(Test::BeginsSet) {
        return Ok(Items::new(alloc));
    }
    set(alloc, tokens, room)
}

#[cycle(set)]
fn field(alloc: Global, tokens: &mut Tokens<'_, '_>, room: usize) -> Result<Selection, Stop>
    ensures { Reads (spec.field strict
        (productions.optional spec.begins_set (spec.set strict room) []) tokens.old) result
        tokens.new }
{
    let (alias, name) = alias_and_name(alloc, tokens)?;
    let arguments = arguments(alloc, tokens)?;
    let directives = directives(alloc, tokens)?;
    let selections = may_set(alloc, tokens, room)?;
    Ok(Selection::Field {
        alias,
        name,
        arguments,
        directives,
        selections,
    })
}

#[cycle(set)]
fn after_dots(alloc: Global, tokens: &mut Tokens<'_, '_>, room: usize) -> Result<Selection, Stop>
    ensures { Reads (spec.after_dots strict (spec.set strict room) tokens.old) result tokens.new }
{
    tokens.one(Test::Is(Kind::Dots))?;
    if tokens.sees(Test::FragmentName) {
        return spread(alloc, tokens);
    }
    inline(alloc, tokens, room)
}

#[cycle(set)]
fn selection(alloc: Global, tokens: &mut Tokens<'_, '_>, room: usize) -> Result<Selection, Stop>
    ensures { Reads (spec.selection strict (spec.set strict room) tokens.old) result tokens.new }
{
    if tokens.sees(Test::Name) {
        return field(alloc, tokens, room);
    }
    after_dots(alloc, tokens, room)
}

#[cycle(set)]
fn more_selections(
    alloc: Global,
    tokens: &mut Tokens<'_, '_>,
    room: usize,
    found: Items<Selection>,
) -> Result<Items<Selection>, Stop>
    ensures { Reads (prefixed found
        (parse.many spec.begins_selection
        (spec.selection strict (spec.set strict room)) tokens.old)) result tokens.new }
{
    let mut found = found;
    for _ in 0..tokens.len() {
        if !tokens.sees(Test::BeginsSelection) {
            return Ok(found);
        }
        found.push(selection(alloc, tokens, room)?)?;
    }
    Ok(found)
}

#[cycle(set)]
fn braced(alloc: Global, tokens: &mut Tokens<'_, '_>, room: usize) -> Result<Items<Selection>, Stop>
    ensures { Reads (spec.braced strict (spec.set strict room) tokens.old) result tokens.new }
{
    tokens.one(Test::Is(Kind::OpenBrace))?;
    let mut found = Items::new(alloc);
    found.push(selection(alloc, tokens, room)?)?;
    let found = more_selections(alloc, tokens, room, found)?;
    tokens.one(Test::Is(Kind::CloseBrace))?;
    Ok(fitted(found))
}

/// A selection set, with room for so many more levels.
#[cycle(set)]
pub fn set(
    alloc: Global,
    tokens: &mut Tokens<'_, '_>,
    room: usize,
) -> Result<Items<Selection>, Stop>
    ensures { Reads (spec.set strict room tokens.old) result tokens.new }
{
    if tokens.sees(Test::Is(Kind::OpenBrace)) {
        if room == 0 {
            return Err(Stop::Refused(Refusal::Deep));
        }
        return braced(alloc, tokens, room - 1);
    }
    gap(alloc, tokens)
}
