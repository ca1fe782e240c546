ghost use Rattle.std.specs.Prelude.{◌≡◌, ◌↔◌, ◌++◌, [], IsOk, IfErr, map};
ghost use Rattle.std.specs.Option.{option_copied};
ghost use Rattle.std.specs.List.{flat_map};
ghost use Rattle.router_config.specs.Rules.{is_ruled};
ghost use Rattle.router_config.specs.Faults as spec;
ghost use Rattle.router_config.specs.Faults.{IsFirstFault};

use crate::config::SubRule;
use crate::fault::SiteFault;
use crate::inputs::{innermost, is_input};
use flow_base::Text;
use gql_terms::{Operation, VarDef};
use gql_types::Schema;
use plan_book::Entry;
use plan_tree::Fetch;

/// Whether one of the rules has this name. Takes time in the number of rules.
fn is_ruled(rules: &[SubRule], name: &Text) -> bool
    ensures { result ≡ is_ruled rules.now name.now }
{
    rules.iter().any(|rule| rule.name.as_str() == name.as_str())
}

/// The first subgraph asked that has no rule.
fn first_unruled<'a>(rules: &[SubRule], fetches: &'a [Fetch]) -> Option<&'a Text>
    ensures { option_copied result
        ≡ spec.first (spec.unruled rules.now (map spec.sub_of fetches.now)) }
{
    for i in 0..fetches.len() {
        if !is_ruled(rules, &fetches[i].sub) {
            return Some(&fetches[i].sub);
        }
    }
    None
}

/// The first innermost type of a variable that is no input type.
fn first_variable<'a>(schema: &Schema, variables: &'a [VarDef]) -> Option<&'a Text>
    ensures { option_copied result
        ≡ spec.first (spec.not_inputs schema.now (map spec.type_of variables.now)) }
{
    for i in 0..variables.len() {
        let name = innermost(&variables[i].of);
        if !is_input(schema, name) {
            return Some(name);
        }
    }
    None
}

/// The same of the variables of several operations.
fn first_not_input<'a>(schema: &Schema, operations: &'a [Operation]) -> Option<&'a Text>
    ensures { option_copied result ≡ spec.first (spec.not_inputs schema.now
        (map spec.type_of (flat_map spec.variables_of operations.now))) }
{
    for i in 0..operations.len() {
        if let Some(name) = first_variable(schema, operations[i].variables.as_slice()) {
            return Some(name);
        }
    }
    None
}

fn unknown_subgraph(number: u64, name: &Text) -> SiteFault
    ensures { spec.IsFaultOrMemory (spec.unknown_subgraph number name.now) result }
{
    match name.copy() {
        Ok(name) => SiteFault::UnknownSubgraph(number, name),
        Err(_) => SiteFault::Memory,
    }
}

fn unknown_type(number: u64, name: &Text) -> SiteFault
    ensures { spec.IsFaultOrMemory (spec.unknown_type number name.now) result }
{
    match name.copy() {
        Ok(name) => SiteFault::UnknownType(number, name),
        Err(_) => SiteFault::Memory,
    }
}

/// Looks at the entry with this number: at its fetches, then at its variables.
fn check_entry(
    rules: &[SubRule],
    schema: &Schema,
    number: u64,
    entry: &Entry,
) -> Result<(), SiteFault>
    ensures ok { IsOk result ↔ (spec.entry_faults rules.now schema.now number entry.now ≡ []) }
    ensures fault { IfErr result
        (IsFirstFault (spec.entry_faults rules.now schema.now number entry.now)) }
{
    if let Some(name) = first_unruled(rules, entry.plan.fetches.as_slice()) {
        return Err(unknown_subgraph(number, name));
    }
    if let Some(name) = first_not_input(schema, entry.document.operations.as_slice()) {
        return Err(unknown_type(number, name));
    }
    Ok(())
}

/// Looks at the entries in their order. Memory is taken for the name in a fault alone.
pub fn check_entries(rules: &[SubRule], schema: &Schema, entries: &[Entry]) -> Result<(), SiteFault>
    ensures ok { IsOk result ↔ (spec.faults_of rules.now schema.now entries.now ≡ []) }
    ensures fault { IfErr result (IsFirstFault (spec.faults_of rules.now schema.now entries.now)) }
{
    for i in 0..entries.len() {
        match check_entry(rules, schema, i as u64, &entries[i]) {
            Ok(()) => {}
            Err(fault) => return Err(fault),
        }
    }
    Ok(())
}
