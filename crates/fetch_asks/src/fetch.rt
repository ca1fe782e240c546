ghost use Rattle.std.specs.Prelude.{◌≡◌, ◌∷◌, ◌++◌, false, length, All, IfOk, string_bytes};
ghost use Rattle.json_value.specs.declared.tree.Json.{Json};
ghost use Rattle.cache_terms.specs.declared.keys.Key.{Key};
ghost use Rattle.fetch_asks.specs.Asks.{HasBodies, picked, type_of};
ghost use Rattle.fetch_asks.specs.Asks as spec;
ghost use Rattle.fetch_asks.specs.Texts.{members_text};

use crate::Ask;
use crate::front::front_of;
use crate::members::picked_text;
use cache_terms::Key;
use flow_base::{Memory, Text};
use json_print::print;
use json_value::Json;
use plan_exec::Asked;
use plan_tree::Fetch;
use std::alloc::Global;

/// What a fetch asks of its subgraph, which is number `sub` of the site, and the key of each of its pieces: one for a root
/// fetch, one for each distinct representation of an entity fetch. Of the variables those are sent that the fetch names.
/// Fails only for want of memory. Copies what all keys have once for each of them.
pub fn ask_of(
    alloc: Global,
    sub: u64,
    uncached: bool,
    fetch: &Fetch,
    asked: &Asked,
    variables: &Json,
) -> Result<(Ask, Vec<Key>), Memory>
    ensures keys { IfOk result (λ r. r.1.items ≡ spec.keys_of fetch.now asked.now variables.now) }
    ensures ask { IfOk result
        (λ r. r.0 ≡ spec.ask_of sub uncached fetch.now asked.now variables.now) }

    // The call for some of the pieces has the text of a JSON object as its body.
    ensures bodies { IfOk result (λ r. HasBodies r.0 fetch.now asked.now variables.now) }

    // All keys are of the ask's subgraph, and a fetch of no entities has one key.
    ensures named { IfOk result (λ r. All (λ key. key.sub ≡ r.0.name) r.1.items) }
    ensures one { IfOk result (λ r. r.0.entities ≡ false → length r.1.items ≡ 1) }
{
    let members = picked_text(alloc, fetch.variables.as_slice(), variables)?;
    let sel = sel_of(alloc, fetch, members.as_str())?;
    let keys = keys_of(alloc, fetch, asked, &sel)?;
    let ask = Ask {
        sub,
        name: fetch.sub.copy()?,
        front: front_of(alloc, fetch, asked, members)?,
        back: back_of(alloc, asked)?,
        entities: are_entities(asked),
        mutation: fetch.mutation,
        uncached,
    };
    Ok((ask, keys))
}

fn back_of(alloc: Global, asked: &Asked) -> Result<Text, Memory>
    ensures { IfOk result (λ t. t ≡ spec.back_of asked.now) }
{
    match asked {
        Asked::Root => Text::of(alloc, ""),
        Asked::Entities { .. } => Text::of(alloc, "]}}"),
    }
}

fn are_entities(asked: &Asked) -> bool
    ensures { result ≡ spec.are_entities asked.now }
{
    match asked {
        Asked::Root => false,
        Asked::Entities { .. } => true,
    }
}

/// The operation and its variables, as all keys of the fetch have them.
fn sel_of(alloc: Global, fetch: &Fetch, members: &str) -> Result<Text, Memory>
    ensures { (variables : Json)
        → members.now ≡ members_text (picked fetch.now.variables variables) →
        IfOk result (λ t. t ≡ spec.sel_of fetch.now variables) }
{
    let mut out = String::from_str(alloc, fetch.sel.as_str())?;
    out.push_str("\n{")?;
    out.push_str(members)?;
    out.push_str("}")?;
    Text::from_string(out)
}

/// The key of each piece.
fn keys_of(alloc: Global, fetch: &Fetch, asked: &Asked, sel: &Text) -> Result<Vec<Key>, Memory>
    ensures { (variables : Json) → sel.now ≡ spec.sel_of fetch.now variables →
        IfOk result (λ keys. keys.items ≡ spec.keys_of fetch.now asked.now variables) }
{
    let type_name = type_of(fetch, asked);
    let Asked::Entities { distinct, .. } = asked else {
        let key = key_of(alloc, fetch, type_name, Text::of(alloc, "")?, sel)?;
        let mut keys = Vec::with_capacity(alloc, 1)?;
        keys.push(key)?;
        return Ok(keys);
    };
    let mut keys = Vec::with_capacity(alloc, distinct.len())?;
    for rep in distinct.as_slice() {
        let rep = print(alloc, rep)?;
        keys.push(key_of(alloc, fetch, type_name, rep, sel)?)?;
    }
    Ok(keys)
}

/// The type of the pieces: the root type of the operation, or the type that is required of the entities.
fn type_of<'a>(fetch: &'a Fetch, asked: &Asked) -> &'a str
    ensures { result.now ≡ type_of fetch.now asked.now }
{
    match asked {
        Asked::Root if fetch.mutation => "Mutation",
        Asked::Root => "Query",
        Asked::Entities { .. } => match &fetch.needs {
            Some(needs) => needs.type_name.as_str(),
            None => "",
        },
    }
}

fn key_of(
    alloc: Global,
    fetch: &Fetch,
    type_name: &str,
    rep: Text,
    sel: &Text,
) -> Result<Key, Memory>
    ensures { IfOk result (λ key. key
        ≡ record { sub = fetch.now.sub; type_name = type_name.now; rep = rep; sel = sel.now }) }
{
    Ok(Key {
        sub: fetch.sub.copy()?,
        type_name: Text::of(alloc, type_name)?,
        rep,
        sel: sel.copy()?,
    })
}
