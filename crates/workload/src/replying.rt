//! What the shop replies to a call.

ghost use Rattle.std.specs.Prelude.{◌≡◌, ◌++◌, ◌≢◌, map, codes, Some, None, IfOk, OnOk, string_bytes};
ghost use Rattle.json_value.specs.Members as by_name;
ghost use Rattle.json_value.specs.declared.fault.JsonFault.TheVariants as faults;
ghost use Rattle.piece_fetch.specs.Between.{after_commas};
ghost use Rattle.case_file.specs.Forms as forms;
ghost use Rattle.workload.specs.Replying as spec;
ghost use Rattle.workload.specs.Replying.{form_text, forms_text, IsReplied};

use crate::form::Form;
use crate::site::item_of;
use cache_terms::Reply;
use case_file::{list_member, number_member, text_member};
use flow_base::{Bytes, Memory, Text};
use json_read::read;
use json_value::{Json, JsonFault, member};
use line_base::Call;
use script_lines::number;
use std::alloc::Global;
use tree_items::Items;

// ---- the texts of a reply

fn put_form(alloc: Global, text: &mut String, form: Form, item: u64) -> Result<(), Memory>
    ensures { OnOk result (string_bytes text.new ≡ string_bytes text.old ++ form_text form item) }
{
    let part = match form {
        Form::Item => format!(in alloc; r#"{{"__typename":"Item","id":"{item}"}}"#)?,
        Form::Stars => {
            let stars = item % 5;
            format!(in alloc; r#"{{"stars":{stars}}}"#)?
        }
        Form::Tag => format!(in alloc; r#"["p{item}"]"#)?,
    };
    text.push_str(&part)?;
    Ok(())
}

/// Appends what is written of each of these items, with a comma before it.
fn put_behind(alloc: Global, text: &mut String, form: Form, items: &[u64]) -> Result<(), Memory>
    ensures { OnOk result (string_bytes text.new
        ≡ string_bytes text.old ++ after_commas (map (form_text form) items.now)) }
{
    for item in items {
        text.push(',')?;
        put_form(alloc, text, form, *item)?;
    }
    Ok(())
}

/// Appends what is written of each of these items, with commas between them.
fn put_forms(alloc: Global, text: &mut String, form: Form, items: &[u64]) -> Result<(), Memory>
    ensures { OnOk result (string_bytes text.new
        ≡ string_bytes text.old ++ forms_text form items.now) }
{
    match items.split_first() {
        None => Ok(()),
        Some((first, others)) => {
            put_form(alloc, text, form, *first)?;
            put_behind(alloc, text, form, others)
        }
    }
}

fn shop_reply(alloc: Global, body: String) -> Result<Reply, Memory>
    ensures { IfOk result (λ r. r ≡ spec.shop_reply (string_bytes body)) }
{
    Ok(Reply {
        status: 200,
        cache_control: Some(Text::of(alloc, "max-age=60")?),
        age: None,
        body: Bytes::of(alloc, body.as_bytes())?,
    })
}

/// The five items from this one on.
fn five_from(from: u64) -> [u64; 5]
    ensures { result ≡ spec.five_from from }
{
    let first = item_of(from);
    [
        first,
        item_of(first + 1),
        item_of(first + 2),
        item_of(first + 3),
        item_of(first + 4),
    ]
}

fn items_reply(alloc: Global, from: u64) -> Result<Reply, Memory>
    ensures { IfOk result (λ r. r ≡ spec.shop_reply (spec.items_body from)) }
{
    let items = five_from(from);
    let mut body = String::from_str(alloc, r#"{"data":{"items":["#)?;
    put_forms(alloc, &mut body, Form::Item, &items)?;
    body.push_str("]}}")?;
    shop_reply(alloc, body)
}

/// The stars of these items, each with its tag.
fn stars_reply(alloc: Global, items: &[u64]) -> Result<Reply, Memory>
    ensures { IfOk result (λ r. r ≡ spec.shop_reply (spec.stars_body items.now)) }
{
    let mut body = String::from_str(alloc, r#"{"data":{"_entities":["#)?;
    put_forms(alloc, &mut body, Form::Stars, items)?;
    body.push_str(r#"]},"extensions":{"entityCacheTags":["#)?;
    put_forms(alloc, &mut body, Form::Tag, items)?;
    body.push_str("]}}")?;
    shop_reply(alloc, body)
}

// ---- what a call asks for

fn number_printed(text: &Text) -> Option<u64>
    ensures { result ≡ spec.number_printed text.now }
{
    number(text.as_str())
}

fn id_of(value: &Json) -> Option<u64>
    ensures { result ≡ spec.id_of value.now }
{
    match text_member(value, "id") {
        Some(text) => number_printed(text),
        None => None,
    }
}

fn ids_of(alloc: Global, values: &[Json]) -> Result<Option<Items<u64>>, Memory>
    ensures { IfOk result (λ o. o ≡ forms.all_of (map spec.id_of values.now)) }
{
    let mut ids = Items::new(alloc);
    for value in values {
        let Some(id) = id_of(value) else {
            return Ok(None);
        };
        ids.push(id)?;
    }
    Ok(Some(ids))
}

fn catalog_reply(alloc: Global, variables: &Json) -> Result<Option<Reply>, Memory>
    ensures { IfOk result (λ o. o ≡ spec.items_reply (spec.from_in (Some variables.now))) }
{
    match number_member(variables, "from") {
        Some(from) => Ok(Some(items_reply(alloc, from)?)),
        None => Ok(None),
    }
}

fn reviews_reply(alloc: Global, variables: &Json) -> Result<Option<Reply>, Memory>
    ensures { IfOk result (λ o. o ≡ spec.stars_reply (spec.ids_in (Some variables.now))) }
{
    let Some(values) = list_member(variables, "representations") else {
        return Ok(None);
    };
    match ids_of(alloc, values)? {
        Some(ids) => Ok(Some(stars_reply(alloc, ids.as_slice())?)),
        None => Ok(None),
    }
}

fn reply_by(alloc: Global, name: &str, value: &Json) -> Result<Option<Reply>, Memory>
    ensures { IfOk result (λ o. o
        ≡ spec.reply_to name.now (by_name.member value.now (codes "variables"))) }
{
    let Some(variables) = member(value, "variables") else {
        return Ok(None);
    };
    if name == "catalog" {
        return catalog_reply(alloc, variables);
    }
    if name == "reviews" {
        return reviews_reply(alloc, variables);
    }
    Ok(None)
}

/// No reply, but for want of memory.
fn no_reply(fault: &JsonFault) -> Result<Option<Reply>, Memory>
    ensures { IfOk result (λ o. (o ≡ None) × (fault.now ≢ faults.Memory)) }
{
    match fault {
        JsonFault::Memory => Err(Memory),
        _ => Ok(None),
    }
}

/// What the shop replies to a call, if it does.
pub fn reply_to(alloc: Global, call: &Call) -> Result<Option<Reply>, Memory>
    ensures { IfOk result (λ o. IsReplied call.now o) }
{
    match read(alloc, call.body.as_str().as_bytes()) {
        Ok(value) => reply_by(alloc, call.name.as_str(), &value),
        Err(fault) => no_reply(&fault),
    }
}
