//! Variable definitions.

ghost use Rattle.std.specs.Prelude.{◌≡◌};
ghost use Rattle.token_read.specs.Parse as parse;
ghost use Rattle.gql_tokens.specs.declared.kinds.Kind.TheVariants as k;
ghost use Rattle.gql_terms.specs.Grammar.{strict, is};
ghost use Rattle.gql_parser.specs.Reading as spec;
ghost use Rattle.gql_parser.specs.Reads.{Reads, prefixed};

use crate::directives::{ROOM, directives};
use crate::lists::fitted;
use crate::tokens::{Stop, Test, Tokens};
use crate::types::type_ref;
use crate::values::value;
use gql_terms::{Value, VarDef};
use gql_tokens::Kind;
use std::alloc::Global;
use tree_items::Items;

#[tactic(auto, unfolding(crate::specs::Reading::default))]
fn default(alloc: Global, tokens: &mut Tokens<'_, '_>) -> Result<Option<Value>, Stop>
    ensures { Reads (spec.default strict tokens.old) result tokens.new }
{
    if !tokens.sees(Test::Is(Kind::Equals)) {
        return Ok(None);
    }
    tokens.one(Test::Is(Kind::Equals))?;
    Ok(Some(value(alloc, tokens, true, ROOM)?))
}

#[tactic(auto, unfolding(crate::specs::Reading::variable_definition))]
fn variable_definition(alloc: Global, tokens: &mut Tokens<'_, '_>) -> Result<VarDef, Stop>
    ensures { Reads (spec.variable_definition strict tokens.old) result tokens.new }
{
    tokens.one(Test::Is(Kind::Dollar))?;
    let name = tokens.text(alloc, Test::Name)?;
    tokens.one(Test::Is(Kind::Colon))?;
    let of = type_ref(alloc, tokens, ROOM)?;
    let default = default(alloc, tokens)?;
    let directives = directives(alloc, tokens)?;
    Ok(VarDef {
        name,
        of,
        default,
        directives,
    })
}

fn more_variables(
    alloc: Global,
    tokens: &mut Tokens<'_, '_>,
    found: Items<VarDef>,
) -> Result<Items<VarDef>, Stop>
    ensures { Reads (prefixed found
        (parse.many (is k.Dollar) (spec.variable_definition strict) tokens.old)) result tokens.new }
{
    let mut found = found;
    for _ in 0..tokens.len() {
        if !tokens.sees(Test::Is(Kind::Dollar)) {
            return Ok(found);
        }
        found.push(variable_definition(alloc, tokens)?)?;
    }
    Ok(found)
}

#[tactic(auto, unfolding(crate::specs::Reading::variables))]
pub fn variables(alloc: Global, tokens: &mut Tokens<'_, '_>) -> Result<Items<VarDef>, Stop>
    ensures { Reads (spec.variables strict tokens.old) result tokens.new }
{
    let mut found = Items::new(alloc);
    if !tokens.sees(Test::Is(Kind::OpenParen)) {
        return Ok(found);
    }
    tokens.one(Test::Is(Kind::OpenParen))?;
    found.push(variable_definition(alloc, tokens)?)?;
    let found = more_variables(alloc, tokens, found)?;
    tokens.one(Test::Is(Kind::CloseParen))?;
    Ok(fitted(found))
}
