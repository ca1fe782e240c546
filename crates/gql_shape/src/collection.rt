ghost use Rattle.std.specs.Prelude.{◌≡◌, [], false, map, OnOk};
ghost use Rattle.gql_types.specs.Schemas as schemas;
ghost use Rattle.gql_shape.specs.Collecting.{with_field, with_more, with_spread};
ghost use Rattle.gql_shape.specs.Collecting as spec;
ghost use Rattle.gql_shape.specs.Indexed.{key_in};

use flow_base::{Memory, Text};
use gql_terms::Selection;
use indexmap::IndexSet;
use std::alloc::Global;
use std::marker::Model;
use tree_items::Items;

/// A field that a selection set selects. Its key is the name that it has in the answer.
#[derive(Drop)]
pub struct Field<'a> {
    pub key: &'a Text,
    pub name: &'a Text,
    pub selections: &'a [Selection],
}

impl<'a> Model for Field<'a> {
    ghost use Rattle.gql_shape.specs.Terms as terms;
    ghost use Rattle.gql_terms.specs.contracts.documents.Value as value;
    ghost use Rattle.gql_terms.specs.contracts.documents.Selection as selection;
    ghost use Rattle.std.specs.Coded.{codes};

    ghost Value = { terms.Field };

    ghost coded = { Prim.hlevel (codes, value.the_row.coded, selection.the_row.coded) };

    ghost view = { λ f. record {
      key = f.key.now;
      name = f.name.now;
      selections = f.selections.now;
    } };
}

impl<'a> Field<'a> {
    fn key(&self) -> &'a Text
        ensures { result.now ≡ self.now.key }
    {
        self.key
    }

    pub fn selections(&self) -> &'a [Selection]
        ensures { result.now ≡ self.now.selections }
    {
        self.selections
    }
}

/// The fields of one key, in order.
#[derive(Drop)]
pub struct Group<'a> {
    pub first: Field<'a>,
    pub more: Items<Field<'a>>,
}

impl<'a> Model for Group<'a> {
    ghost use Rattle.gql_shape.specs.Terms as terms;
    ghost use Rattle.gql_terms.specs.contracts.documents.Value as value;
    ghost use Rattle.gql_terms.specs.contracts.documents.Selection as selection;
    ghost use Rattle.std.specs.Coded.{codes};

    ghost Value = { terms.Group };

    ghost coded = { Prim.hlevel (codes, value.the_row.coded, selection.the_row.coded) };

    ghost view = { λ g. record { first = g.first; more = g.more } };
}

impl<'a> Group<'a> {
    pub fn key(&self) -> &'a Text
        ensures { result.now ≡ self.now.first.key }
    {
        self.first.key
    }

    pub fn name(&self) -> &'a Text
        ensures { result.now ≡ self.now.first.name }
    {
        self.first.name
    }

    pub fn first_selections(&self) -> &'a [Selection]
        ensures { result.now ≡ self.now.first.selections }
    {
        self.first.selections
    }

    /// The fields after the first.
    pub fn more(&self) -> &[Field<'a>]
        ensures { result.now ≡ self.now.more }
    {
        self.more.as_slice()
    }

    fn push(&mut self, field: Field<'a>) -> Result<(), Memory>
        ensures pushed { OnOk result (self.new ≡ with_more field.entry self.old) }
        ensures first { self.new.first ≡ self.old.first }
    {
        self.more.push(field)?;
        Ok(())
    }
}

/// The groups that a collection has so far, in order of first appearance, and the spreads that it took. Both are found by
/// their names.
#[derive(Drop)]
pub struct Collection<'a> {
    seen: IndexSet<Text>,
    keys: IndexSet<Text>,
    groups: Vec<Group<'a>>,
}

impl<'a> Model for Collection<'a> {
    ghost use Rattle.gql_shape.specs.Terms as terms;
    ghost use Rattle.gql_terms.specs.contracts.documents.Value as value;
    ghost use Rattle.gql_terms.specs.contracts.documents.Selection as selection;
    ghost use Rattle.std.specs.Coded.{codes};
    ghost use Rattle.std.specs.Prelude.{◌≡◌, map};
    ghost use Rattle.gql_shape.specs.Indexed.{key_in};

    ghost Value = { terms.Collection };

    ghost coded = { Prim.hlevel (codes, value.the_row.coded, selection.the_row.coded) };

    ghost view = { λ c. record { seen = c.seen.keys; groups = c.groups.items } };

    ghost invariant = { λ c. c.keys.keys ≡ map key_in c.groups.items };
}

impl<'a> Collection<'a> {
    pub fn new(alloc: Global) -> Collection<'a>
        ensures { result ≡ record { seen = []; groups = [] } }
    {
        Collection {
            seen: IndexSet::new(alloc),
            keys: IndexSet::new(alloc),
            groups: Vec::new(alloc),
        }
    }

    pub fn into_groups(self) -> Items<Group<'a>>
        ensures { result ≡ self.entry.groups }
    {
        let Collection { groups, .. } = self;
        Items::from_vec(groups)
    }

    /// Whether the spread was taken.
    pub fn has_seen(&self, name: &Text) -> bool
        ensures { result ≡ schemas.is_among self.now.seen name.now }
    {
        self.seen.contains(name)
    }

    /// Notes a spread that was not taken before.
    pub fn note(&mut self, name: &Text) -> Result<(), Memory>
        requires { schemas.is_among self.old.seen name.now ≡ false }
        ensures { OnOk result (self.new ≡ with_spread name.now self.old) }
    {
        self.seen.insert(name.copy()?)?;
        Ok(())
    }

    /// Puts the field into the group of its key, or opens one.
    pub fn add(&mut self, alloc: Global, field: Field<'a>) -> Result<(), Memory>
        ensures { OnOk result (self.new ≡ with_field field.entry self.old) }
    {
        add_field(alloc, &mut self.keys, &mut self.groups, field)
    }
}

/// Puts the field into the group of its key, or opens one. The keys are those of the groups, before and after.
fn add_field<'a>(
    alloc: Global,
    keys: &mut IndexSet<Text>,
    groups: &mut Vec<Group<'a>>,
    field: Field<'a>,
) -> Result<(), Memory>
    requires { keys.old.keys ≡ map key_in groups.old.items }
    ensures added { OnOk result (groups.new.items ≡ spec.add field.entry groups.old.items) }
    ensures keys { keys.new.keys ≡ map key_in groups.new.items }
{
    if let Some(at) = keys.get_index_of(field.key()) {
        return groups[at].push(field);
    }
    let key = field.key().copy()?;
    keys.reserve(1)?;
    let first = Group {
        first: field,
        more: Items::new(alloc),
    };
    groups.push(first).map_err(|_| Memory)?;
    let _ = keys.insert(key).unwrap();
    Ok(())
}
