//! Definitions and documents.

ghost use Rattle.std.specs.Prelude.{◌≡◌};
ghost use Rattle.token_read.specs.Parse as parse;
ghost use Rattle.gql_terms.specs.Grammar as grammar;
ghost use Rattle.gql_terms.specs.Grammar.{strict};
ghost use Rattle.gql_parser.specs.Reading as spec;
ghost use Rattle.gql_parser.specs.Reads as reads;
ghost use Rattle.gql_parser.specs.Reads.{Reads};

use crate::directives::{ROOM, directives};
use crate::selections::set;
use crate::tokens::{Stop, Test, Tokens};
use crate::variables::variables;
use flow_base::Text;
use gql_terms::{Document, Fragment, OpKind, Operation, Refusal};
use gql_tokens::Kind;
use std::alloc::Global;
use tree_items::Items;

fn operation_kind(kind: Kind) -> OpKind
    ensures { result ≡ grammar.operation_kind kind }
{
    match kind {
        Kind::Mutation => OpKind::Mutation,
        Kind::Subscription => OpKind::Subscription,
        _ => OpKind::Query,
    }
}

#[tactic(auto, unfolding(crate::specs::Reading::may_name))]
fn may_name(alloc: Global, tokens: &mut Tokens<'_, '_>) -> Result<Option<Text>, Stop>
    ensures { Reads (spec.may_name tokens.old) result tokens.new }
{
    if !tokens.sees(Test::Name) {
        return Ok(None);
    }
    Ok(Some(tokens.text(alloc, Test::Name)?))
}

fn with_keyword(alloc: Global, tokens: &mut Tokens<'_, '_>) -> Result<Operation, Stop>
    ensures { Reads (spec.with_keyword strict tokens.old) result tokens.new }
{
    let token = tokens.one(Test::Operation)?;
    let name = may_name(alloc, tokens)?;
    let variables = variables(alloc, tokens)?;
    let directives = directives(alloc, tokens)?;
    let selections = set(alloc, tokens, ROOM)?;
    Ok(Operation {
        kind: operation_kind(token.kind()),
        name,
        variables,
        directives,
        selections,
    })
}

fn shorthand(alloc: Global, tokens: &mut Tokens<'_, '_>) -> Result<Operation, Stop>
    ensures { Reads (spec.shorthand strict tokens.old) result tokens.new }
{
    let selections = set(alloc, tokens, ROOM)?;
    Ok(Operation {
        kind: OpKind::Query,
        name: None,
        variables: Items::new(alloc),
        directives: Items::new(alloc),
        selections,
    })
}

#[tactic(auto, unfolding(crate::specs::Reading::operation_definition))]
fn operation(alloc: Global, tokens: &mut Tokens<'_, '_>) -> Result<Operation, Stop>
    ensures { Reads (spec.operation_definition strict tokens.old) result tokens.new }
{
    if tokens.sees(Test::BeginsSet) {
        return shorthand(alloc, tokens);
    }
    with_keyword(alloc, tokens)
}

#[tactic(auto, unfolding(crate::specs::Reading::fragment_definition))]
fn fragment(alloc: Global, tokens: &mut Tokens<'_, '_>) -> Result<Fragment, Stop>
    ensures { Reads (spec.fragment_definition strict tokens.old) result tokens.new }
{
    tokens.one(Test::Is(Kind::Fragment))?;
    let name = tokens.text(alloc, Test::FragmentName)?;
    tokens.one(Test::Is(Kind::On))?;
    let on = tokens.text(alloc, Test::Name)?;
    let directives = directives(alloc, tokens)?;
    let selections = set(alloc, tokens, ROOM)?;
    Ok(Fragment {
        name,
        on,
        directives,
        selections,
    })
}

/// One more definition, after those of a document.
fn definition(
    alloc: Global,
    tokens: &mut Tokens<'_, '_>,
    document: &mut Document,
) -> Result<(), Stop>
    ensures { reads.AddsDefinition (spec.definition strict tokens.old) result document.old
        document.new tokens.new }
{
    if tokens.sees(Test::Is(Kind::Fragment)) {
        let found = fragment(alloc, tokens)?;
        document.fragments.push(found)?;
    } else {
        let found = operation(alloc, tokens)?;
        document.operations.push(found)?;
    }
    Ok(())
}

fn more_definitions(
    alloc: Global,
    tokens: &mut Tokens<'_, '_>,
    document: &mut Document,
) -> Result<(), Stop>
    ensures { reads.AddsAll (parse.many spec.begins_definition (spec.definition strict) tokens.old)
        result document.old document.new tokens.new }
{
    for _ in 0..tokens.len() {
        if !tokens.sees(Test::BeginsDefinition) {
            return Ok(());
        }
        definition(alloc, tokens, document)?;
    }
    Ok(())
}

fn document(alloc: Global, tokens: &mut Tokens<'_, '_>) -> Result<Document, Stop>
    ensures { Reads (spec.document strict tokens.old) result tokens.new }
{
    let mut found = Document {
        operations: Items::new(alloc),
        fragments: Items::new(alloc),
    };
    definition(alloc, tokens, &mut found)?;
    more_definitions(alloc, tokens, &mut found)?;
    Ok(found)
}

/// The document that these tokens are.
pub fn all(alloc: Global, tokens: &mut Tokens<'_, '_>) -> Result<Document, Stop>
    ensures { Reads (spec.all strict tokens.old) result tokens.new }
{
    let found = document(alloc, tokens)?;
    if tokens.len() != 0 {
        return Err(Stop::Refused(Refusal::Unexpected));
    }
    Ok(found)
}
