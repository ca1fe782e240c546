//! A plan file, entry by entry.

ghost use Rattle.std.specs.Prelude.{◌≡◌, ◌≢◌, ◌++◌, ◌∷◌, [], map, Ok, Err, IfOk, IfErr, OnOk};
ghost use Rattle.plan_book.specs.declared.book.Entry as books;
ghost use Rattle.plan_book.specs.declared.fault.PlanFault.TheVariants as faults;
ghost use Rattle.plan_book.specs.Book.{AreLawful, text_of};
ghost use Rattle.plan_book.specs.Asking.{OrMemory, IsAnswered};
ghost use Rattle.plan_book.specs.PlanFile as spec;
ghost use Rattle.plan_book.specs.PlanFile.{IsEntry, IsNextEntry, AreEntries, IsPlanFile};

use crate::book::{Entry, PlanBook};
use crate::fault::PlanFault;
use crate::fetches::{bad_member, document, only_one};
use crate::forms::{object_member, text_member};
use crate::kinds::Standing;
use crate::nodes::{Draft, deepest_level, node};
use gql_print::canonical;
use gql_spreads::bad_spread;
use gql_terms::Document;
use json_value::Json;
use plan_tree::Plan;
use std::alloc::Global;
use tree_items::Items;

const MOST_ENTRIES: usize = 1000;

const MOST_FETCHES: usize = 64;

const MOST_LEVELS: u64 = 16;

/// An entry's document, whether its operation is a mutation, and the value of its plan.
#[derive(Drop)]
struct Head<'a> {
    document: Document,
    mutation: bool,
    plan: &'a Json,
}

fn read_head<'a>(alloc: Global, value: &'a Json, number: u64) -> Result<Head<'a>, PlanFault>
    ensures head { IfOk result (λ h. IsAnswered (spec.head number value.now)
        (Ok (record { document = h.document; mutation = h.mutation; plan = h.plan.now }))) }
    ensures fault { IfErr result (λ f. f ≢ faults.Memory
        → IsAnswered (spec.head number value.now) (Err f)) }
{
    let Some(document) = document(alloc, text_member(value, "operation"))? else {
        return Err(bad_member(alloc, number, "operation"));
    };
    let Some(mutation) = only_one(document.operations.as_slice()) else {
        return Err(bad_member(alloc, number, "operation"));
    };
    if let Some(name) = bad_spread(alloc, &document)? {
        return Err(PlanFault::Spread(number, name));
    }
    let Some(plan) = object_member(value, "plan") else {
        return Err(bad_member(alloc, number, "plan"));
    };
    Ok(Head {
        document,
        mutation,
        plan,
    })
}

/// The fault of a plan that has so many fetches, and so many nodes in one another.
fn excess(number: u64, fetches: usize, levels: u64) -> Option<PlanFault>
    ensures { result ≡ spec.excess number fetches levels }
{
    if fetches > MOST_FETCHES {
        return Some(PlanFault::TooMany(number, fetches as u64));
    }
    if levels > MOST_LEVELS {
        return Some(PlanFault::TooMany(number, levels));
    }
    None
}

/// The entry with this number, by itself.
fn read_entry(alloc: Global, value: &Json, number: u64) -> Result<Entry, PlanFault>
    ensures { OrMemory (IsEntry number value.now) result }
{
    let Head {
        document,
        mutation,
        plan,
    } = read_head(alloc, value, number)?;
    let standing = Standing {
        entry: number,
        of_query: !mutation,
    };
    let mut draft = Draft {
        levels: Vec::new(alloc),
        fetches: Vec::new(alloc),
    };
    let root = node(alloc, plan, standing, 0, &mut draft)?;
    let levels = deepest_level(draft.levels.as_slice());
    if let Some(fault) = excess(number, draft.fetches.len(), levels) {
        return Err(fault);
    }
    let text = canonical(alloc, &document)?;
    let fetches = Items::from_vec(draft.fetches);
    Ok(Entry {
        text,
        document,
        plan: Plan { root, fetches },
    })
}

/// Adds the next entry, which has this number.
fn add_entry(alloc: Global, value: &Json, number: u64, book: &mut PlanBook) -> Result<(), PlanFault>
    ensures entry { OnOk result
        ((e : books.Entry)
        × IsNextEntry number (map text_of book.old.entries.items) value.now (Ok e)
        × (book.new.entries.items ≡ book.old.entries.items ++ e ∷ [])) }
    ensures fault { IfErr result (λ f. f ≢ faults.Memory
        → IsNextEntry number (map text_of book.old.entries.items) value.now (Err f)) }
{
    let entry = read_entry(alloc, value, number)?;
    if book.add(entry)? {
        Ok(())
    } else {
        Err(PlanFault::Twice(number))
    }
}

fn read_entries(alloc: Global, values: &[Json]) -> Result<PlanBook, PlanFault>
    ensures entries { IfOk result (λ book. AreEntries values.now 0 [] (Ok book.entries.items)) }
    ensures fault { IfErr result (λ f. f ≢ faults.Memory → AreEntries values.now 0 [] (Err f)) }
{
    let mut book = PlanBook::new(alloc);
    for i in 0..values.len() {
        add_entry(alloc, &values[i], i as u64, &mut book)?;
    }
    Ok(book)
}

/// The plans of a plan file, or its first fault: entry by entry, and in an entry its operation, its plan's nodes in the order
/// of the text with a node's faults before those of the nodes in it, and then what concerns the whole entry. Operations are
/// documents of GraphQL (October 2021, section 2). It takes time in the size of the value and its documents, and compares the
/// names of one list of variables or of required fields each with each; it recurses once for each level of the value.
pub fn read_plans(alloc: Global, value: &Json) -> Result<PlanBook, PlanFault>
    // The value is a plan file with these entries.
    ensures entries { IfOk result (λ book. IsPlanFile value.now (Ok book.entries.items)) }

    // Else this is its first fault.
    ensures fault { IfErr result (λ f. f ≢ faults.Memory → IsPlanFile value.now (Err f)) }

    // Each plan can be carried out, and no two entries have one text.
    ensures lawful { IfOk result (λ book. AreLawful book.entries.items) }
{
    let Json::List(items) = value else {
        return Err(bad_member(alloc, 0, ""));
    };
    if items.len() > MOST_ENTRIES {
        return Err(PlanFault::TooMany(MOST_ENTRIES as u64, items.len() as u64));
    }
    read_entries(alloc, items.as_slice())
}
