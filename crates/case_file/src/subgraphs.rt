//! The subgraphs of a case.

ghost use Rattle.std.specs.Prelude.{◌≡◌, IfOk, IfSome, IsTrue, map, codes};
ghost use Rattle.std.specs.List.{list_any};
ghost use Rattle.std.specs.Str.{bytes_eq};
ghost use Rattle.json_value.specs.Members as by_name;
ghost use Rattle.plan_tree.specs.Lawful as lawful;
ghost use Rattle.router_config.specs.Rules.{names};
ghost use Rattle.case_file.specs.Forms as forms;
ghost use Rattle.case_file.specs.Subgraphs as spec;

use crate::forms::{flag_member, list_member, text_member};
use flow_base::{Memory, Text};
use json_value::Json;
use router_config::SubRule;
use std::alloc::Global;
use tree_items::Items;

/// The rule of a subgraph, which has neither address nor path; None where a member has another form.
fn rule_of(alloc: Global, value: &Json) -> Result<Option<SubRule>, Memory>
    ensures { IfOk result (λ o. o ≡ spec.rule_of value.now) }
{
    let Some(name) = text_member(value, "name") else {
        return Ok(None);
    };
    let Some(cached) = flag_member(value, "cached") else {
        return Ok(None);
    };
    Ok(Some(SubRule {
        name: name.copy()?,
        address: Text::of(alloc, "")?,
        path: Text::of(alloc, "")?,
        cached,
    }))
}

fn rules_of(alloc: Global, values: &[Json]) -> Result<Option<Items<SubRule>>, Memory>
    ensures { IfOk result (λ o. o ≡ forms.all_of (map spec.rule_of values.now)) }
{
    let mut made = Items::new(alloc);
    for value in values {
        let Some(rule) = rule_of(alloc, value)? else {
            return Ok(None);
        };
        made.push(rule)?;
    }
    Ok(Some(made))
}

fn has_name(rules: &[SubRule], name: &str) -> bool
    ensures { result ≡ list_any (bytes_eq name.now) (names rules.now) }
{
    for i in 0..rules.len() {
        if name == rules[i].name.as_str() {
            return true;
        }
    }
    false
}

/// Whether no two have one name. Takes time in the square of their number.
fn differ(rules: &[SubRule]) -> bool
    ensures { result ≡ lawful.differ (names rules.now) }
{
    for i in 0..rules.len() {
        if has_name(&rules[i + 1..], rules[i].name.as_str()) {
            return false;
        }
    }
    true
}

fn are_rules(rules: &[SubRule]) -> bool
    ensures { result ≡ spec.are_rules rules.now }
{
    !rules.is_empty() && differ(rules)
}

/// The subgraphs of a case, from its member `subgraphs`: at least one, no two with one name. None where it has another form.
pub fn subgraphs(alloc: Global, value: &Json) -> Result<Option<Items<SubRule>>, Memory>
    ensures subgraphs { IfOk result
        (λ o. o ≡ spec.subgraphs_in (by_name.member value.now (codes "subgraphs"))) }
    ensures distinct { IfOk result
        (λ o. IfSome o (λ subs. IsTrue (lawful.differ (names subs)))) }
{
    let Some(values) = list_member(value, "subgraphs") else {
        return Ok(None);
    };
    match rules_of(alloc, values)? {
        Some(rules) => {
            if are_rules(rules.as_slice()) {
                Ok(Some(rules))
            } else {
                Ok(None)
            }
        }
        None => Ok(None),
    }
}
