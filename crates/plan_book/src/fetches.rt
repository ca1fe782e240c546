//! A fetch and a Flatten by their members.

ghost use Rattle.std.specs.Prelude.{◌≡◌, ◌≢◌, IfOk, true};
ghost use Rattle.std.specs.Option.{option_copied};
ghost use Rattle.plan_book.specs.declared.fault.PlanFault.TheVariants as faults;
ghost use Rattle.plan_book.specs.Asking.{StandsIn, OrMemory, IsAnswered};
ghost use Rattle.plan_book.specs.Fetches as spec;

use crate::fault::PlanFault;
use crate::forms::{children, kind, object_member, path, text_member, variables};
use crate::kinds::{Kind, Standing};
use crate::needs::requires_member;
use flow_base::{Memory, Text};
use gql_print::canonical;
use gql_syntax::parse;
use gql_terms::{Document, GqlFault, OpKind, Operation};
use json_paths::Requires;
use json_value::Json;
use plan_tree::Fetch;
use std::alloc::Global;
use tree_items::Items;

/// The fault of a member of this name, or that no memory was found for the name.
pub fn bad_member(alloc: Global, entry: u64, name: &str) -> PlanFault
    ensures { result ≢ faults.Memory → result ≡ faults.Field entry name.now }
{
    match Text::of(alloc, name) {
        Ok(name) => PlanFault::Field(entry, name),
        Err(Memory) => PlanFault::Memory,
    }
}

/// The document that the text is, where there is a text and it is one.
pub fn document(alloc: Global, text: Option<&Text>) -> Result<Option<Document>, Memory>
    ensures { IfOk result (StandsIn (option_copied text.entry)) }
{
    let Some(text) = text else {
        return Ok(None);
    };
    match parse(alloc, text) {
        Ok(document) => Ok(Some(document)),
        Err(GqlFault::Memory) => Err(Memory),
        Err(_) => Ok(None),
    }
}

fn is_mutation(kind: OpKind) -> Option<bool>
    ensures { result ≡ spec.is_mutation kind }
{
    match kind {
        OpKind::Query => Some(false),
        OpKind::Mutation => Some(true),
        OpKind::Subscription => None,
    }
}

/// Of exactly one operation, a query or mutation: whether it is a mutation.
pub fn only_one(operations: &[Operation]) -> Option<bool>
    ensures { result ≡ spec.only_one operations.now }
{
    match operations {
        [operation] => is_mutation(operation.kind),
        _ => None,
    }
}

/// The operation of a fetch: whether it is a mutation, and its canonical text.
fn operation_of(alloc: Global, document: Option<Document>) -> Result<Option<(bool, Text)>, Memory>
    ensures { IfOk result (λ o. o ≡ spec.operation_of document) }
{
    let Some(document) = document else {
        return Ok(None);
    };
    if !document.fragments.is_empty() {
        return Ok(None);
    }
    match only_one(document.operations.as_slice()) {
        Some(mutation) => Ok(Some((mutation, canonical(alloc, &document)?))),
        None => Ok(None),
    }
}

fn has_needs(needs: &Option<Requires>) -> bool
    ensures { result ≡ spec.has_needs needs.now }
{
    needs.is_some()
}

fn may_stand(of_query: bool, in_flatten: bool, entity: bool, mutation: bool) -> bool
    ensures { result ≡ spec.may_stand of_query in_flatten entity mutation }
{
    in_flatten == entity && !(entity && mutation) && !(mutation && of_query)
}

/// The node with this number, a Fetch.
pub fn fetch(
    alloc: Global,
    value: &Json,
    standing: Standing,
    in_flatten: bool,
    number: u64,
) -> Result<Fetch, PlanFault>
    ensures { OrMemory (IsAnswered (spec.fetch standing in_flatten number value.now)) result }
{
    let entry = standing.entry;
    let Some(sub) = text_member(value, "subgraph") else {
        return Err(bad_member(alloc, entry, "subgraph"));
    };
    let document = document(alloc, text_member(value, "operation"))?;
    let Some((mutation, sel)) = operation_of(alloc, document)? else {
        return Err(bad_member(alloc, entry, "operation"));
    };
    let Some(variables) = variables(alloc, value)? else {
        return Err(bad_member(alloc, entry, "variables"));
    };
    let Some(needs) = requires_member(alloc, value)? else {
        return Err(bad_member(alloc, entry, "requires"));
    };
    if !may_stand(standing.of_query, in_flatten, has_needs(&needs), mutation) {
        return Err(PlanFault::Nesting(entry, number));
    }
    Ok(Fetch {
        sub: sub.copy()?,
        mutation,
        sel,
        needs,
        variables,
    })
}

/// The fault of a Flatten that stands in a Flatten.
fn flatten_in_flatten(alloc: Global, value: &Json, entry: u64, number: u64) -> PlanFault
    ensures { result ≢ faults.Memory
        → IsAnswered (spec.nested_flatten entry number value.now) (Err result) }
{
    match path(alloc, value) {
        Ok(Some(_)) => {}
        Ok(None) => return bad_member(alloc, entry, "path"),
        Err(Memory) => return PlanFault::Memory,
    }
    if object_member(value, "node").is_none() {
        return bad_member(alloc, entry, "node");
    }
    PlanFault::Nesting(entry, number)
}

/// The fault of a Sequence or Parallel that stands in a Flatten.
fn many_in_flatten(alloc: Global, value: &Json, entry: u64, number: u64) -> PlanFault
    ensures { result ≢ faults.Memory →
        IsAnswered (spec.nested_many entry number value.now) (Err result) }
{
    match children(value) {
        Some(_) => PlanFault::Nesting(entry, number),
        None => bad_member(alloc, entry, "nodes"),
    }
}

/// The node in a Flatten, which has this number and has to be an entity fetch.
pub fn entity(
    alloc: Global,
    value: &Json,
    standing: Standing,
    number: u64,
) -> Result<Fetch, PlanFault>
    ensures { OrMemory (IsAnswered (spec.entity standing number value.now)) result }
{
    match kind(value) {
        Some(Kind::Fetch) => fetch(alloc, value, standing, true, number),
        Some(Kind::Flatten) => Err(flatten_in_flatten(alloc, value, standing.entry, number)),
        Some(Kind::Sequence) => Err(many_in_flatten(alloc, value, standing.entry, number)),
        Some(Kind::Parallel) => Err(many_in_flatten(alloc, value, standing.entry, number)),
        None => Err(PlanFault::Kind(standing.entry, number)),
    }
}
