//! The requests of a case.

ghost use Rattle.std.specs.Prelude.{◌≡◌, IfOk, map, codes};
ghost use Rattle.json_value.specs.Members as by_name;
ghost use Rattle.case_file.specs.Forms as forms;
ghost use Rattle.case_file.specs.Requests as spec;

use crate::content::Timed;
use crate::forms::{list_member, number_member, object_member, text_member, text_or_null_member};
use flow_base::Memory;
use json_value::{Json, copy};
use router_config::Request;
use std::alloc::Global;
use tree_items::Items;

/// A request, which names no operation; None where a member has another form.
fn timed_of(alloc: Global, value: &Json) -> Result<Option<Timed>, Memory>
    ensures { IfOk result (λ o. o ≡ spec.timed_of value.now) }
{
    let Some(moment) = number_member(value, "now") else {
        return Ok(None);
    };
    let Some(id) = text_or_null_member(value, "id")? else {
        return Ok(None);
    };
    let Some(query) = text_member(value, "query") else {
        return Ok(None);
    };
    let Some(variables) = object_member(value, "variables") else {
        return Ok(None);
    };
    let request = Request {
        query: query.copy()?,
        operation_name: None,
        variables: copy(alloc, variables)?,
        id,
    };
    Ok(Some(Timed { moment, request }))
}

fn all_timed(alloc: Global, values: &[Json]) -> Result<Option<Items<Timed>>, Memory>
    ensures { IfOk result (λ o. o ≡ forms.all_of (map spec.timed_of values.now)) }
{
    let mut made = Items::new(alloc);
    for value in values {
        let Some(timed) = timed_of(alloc, value)? else {
            return Ok(None);
        };
        made.push(timed)?;
    }
    Ok(Some(made))
}

/// The requests of a case, from its member `requests`; None where it has another form.
pub fn requests(alloc: Global, value: &Json) -> Result<Option<Items<Timed>>, Memory>
    ensures { IfOk result
        (λ o. o ≡ spec.requests_in (by_name.member value.now (codes "requests"))) }
{
    match list_member(value, "requests") {
        Some(values) => all_timed(alloc, values),
        None => Ok(None),
    }
}
