//! Arguments and directives.

ghost use Rattle.std.specs.Prelude.{◌≡◌};
ghost use Rattle.gql_terms.specs.Grammar.{strict};
ghost use Rattle.gql_parser.specs.Reading as spec;
ghost use Rattle.gql_parser.specs.Reads.{Reads};

use crate::lists::fitted;
use crate::tokens::{Stop, Test, Tokens};
use crate::values::{pair, pairs};
use flow_base::Text;
use gql_terms::{Directive, Value};
use gql_tokens::Kind;
use std::alloc::Global;
use tree_items::Items;

/// How deep selection sets, list and object values, and list types nest, each counted apart.
pub const ROOM: usize = 64;

/// Arguments in brackets, or none (section 2.6).
#[tactic(auto, unfolding(crate::specs::Reading::arguments))]
pub fn arguments(alloc: Global, tokens: &mut Tokens<'_, '_>) -> Result<Items<(Text, Value)>, Stop>
    ensures { Reads (spec.arguments strict tokens.old) result tokens.new }
{
    let mut found = Items::new(alloc);
    if !tokens.sees(Test::Is(Kind::OpenParen)) {
        return Ok(found);
    }
    tokens.one(Test::Is(Kind::OpenParen))?;
    found.push(pair(alloc, tokens, false, ROOM)?)?;
    let found = pairs(alloc, tokens, false, ROOM, found)?;
    tokens.one(Test::Is(Kind::CloseParen))?;
    Ok(fitted(found))
}

#[tactic(auto, unfolding(crate::specs::Reading::directive))]
fn directive(alloc: Global, tokens: &mut Tokens<'_, '_>) -> Result<Directive, Stop>
    ensures { Reads (spec.directive strict tokens.old) result tokens.new }
{
    tokens.one(Test::Is(Kind::At))?;
    let name = tokens.text(alloc, Test::Name)?;
    let arguments = arguments(alloc, tokens)?;
    Ok(Directive { name, arguments })
}

/// As many directives as there are (section 2.12).
pub fn directives(alloc: Global, tokens: &mut Tokens<'_, '_>) -> Result<Items<Directive>, Stop>
    ensures { Reads (spec.directives strict tokens.old) result tokens.new }
{
    let mut found = Items::new(alloc);
    for _ in 0..tokens.len() {
        if !tokens.sees(Test::Is(Kind::At)) {
            return Ok(fitted(found));
        }
        found.push(directive(alloc, tokens)?)?;
    }
    Ok(found)
}
