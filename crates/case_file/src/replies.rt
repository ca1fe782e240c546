//! The replies of a case.

ghost use Rattle.std.specs.Prelude.{◌≡◌, IfOk, map, codes};
ghost use Rattle.std.specs.Option.{option_copied};
ghost use Rattle.json_value.specs.Members as by_name;
ghost use Rattle.router_config.specs.Rules as names;
ghost use Rattle.case_file.specs.Forms as forms;
ghost use Rattle.case_file.specs.Replies as spec;

use crate::forms::{flag_member, list_member, number_within, text_member, text_or_null_member};
use cache_terms::Reply;
use flow_base::{Bytes, Memory, Text};
use json_print::print;
use json_value::{Json, member};
use line_base::Scripted;
use router_config::SubRule;
use std::alloc::Global;
use tree_items::Items;

/// The number of the first rule with this name.
fn number_in(subs: &[SubRule], name: &Text) -> Option<u64>
    ensures { result ≡ names.number_of subs.now name.now }
{
    for i in 0..subs.len() {
        if subs[i].name.as_str() == name.as_str() {
            return Some(i as u64);
        }
    }
    None
}

/// The number of the subgraph that a reply names.
fn subgraph_of(subs: &[SubRule], value: &Json) -> Option<u64>
    ensures { result ≡ spec.subgraph_of subs.now value.now }
{
    match text_member(value, "subgraph") {
        Some(name) => number_in(subs, name),
        None => None,
    }
}

/// The bytes of a reply: its `body` as it is printed, or else its `text` as it stands.
fn body_of(alloc: Global, value: &Json) -> Result<Option<Bytes>, Memory>
    ensures { IfOk result (λ o. o ≡ spec.body_of value.now) }
{
    if let Some(body) = member(value, "body") {
        let text = print(alloc, body)?;
        return Ok(Some(Bytes::of(alloc, text.as_str().as_bytes())?));
    }
    match text_member(value, "text") {
        Some(text) => Ok(Some(Bytes::of(alloc, text.as_str().as_bytes())?)),
        None => Ok(None),
    }
}

/// A reply that does not fail; None where a member has another form.
fn reply_of(alloc: Global, value: &Json) -> Result<Option<Reply>, Memory>
    ensures { IfOk result (λ o. o ≡ spec.reply_of value.now) }
{
    let Some(status) = number_within(value, "status", 0, 65_535) else {
        return Ok(None);
    };
    let Some(cache_control) = text_or_null_member(value, "cacheControl")? else {
        return Ok(None);
    };
    let Some(age) = text_or_null_member(value, "age")? else {
        return Ok(None);
    };
    let Some(body) = body_of(alloc, value)? else {
        return Ok(None);
    };
    Ok(Some(Reply {
        status: status as u16,
        cache_control,
        age,
        body,
    }))
}

/// Whether its member `fail` is `true`.
fn fails(value: &Json) -> bool
    ensures { result ≡ spec.fails value.now }
{
    match flag_member(value, "fail") {
        Some(flag) => flag,
        None => false,
    }
}

fn scripted_of(alloc: Global, subs: &[SubRule], value: &Json) -> Result<Option<Scripted>, Memory>
    ensures { IfOk result (λ o. o ≡ spec.scripted_of subs.now value.now) }
{
    let Some(sub) = subgraph_of(subs, value) else {
        return Ok(None);
    };
    if fails(value) {
        return Ok(Some(Scripted { sub, reply: None }));
    }
    match reply_of(alloc, value)? {
        Some(reply) => Ok(Some(Scripted {
            sub,
            reply: Some(reply),
        })),
        None => Ok(None),
    }
}

fn all_scripted(
    alloc: Global,
    subs: &[SubRule],
    values: &[Json],
) -> Result<Option<Items<Scripted>>, Memory>
    ensures { IfOk result (λ o. o ≡ forms.all_of (map (spec.scripted_of subs.now) values.now)) }
{
    let mut made = Items::new(alloc);
    for value in values {
        let Some(scripted) = scripted_of(alloc, subs, value)? else {
            return Ok(None);
        };
        made.push(scripted)?;
    }
    Ok(Some(made))
}

/// The replies of a case, from its member `replies`, each for one of the subgraphs; None where it has another form.
pub fn replies(
    alloc: Global,
    subs: &[SubRule],
    value: &Json,
) -> Result<Option<Items<Scripted>>, Memory>
    ensures { IfOk result
        (λ o. o ≡ spec.replies_in subs.now (by_name.member value.now (codes "replies"))) }
{
    match list_member(value, "replies") {
        Some(values) => all_scripted(alloc, subs, values),
        None => Ok(None),
    }
}
