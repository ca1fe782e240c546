//! The collections that an answer needs, each made once.

ghost use Rattle.std.specs.Prelude.{◌≡◌, ◌<◌, ◌++◌, length, get_or, slice_get, map, IfOk, IfSome, OnOk, OnErr, Some, ℕ};
ghost use Rattle.gql_shape.specs.Collecting.{Selects};
ghost use Rattle.std.specs.Option.{option_copied};
ghost use Rattle.gql_leaves.specs.Bares.{bare};
ghost use Rattle.gql_shape.specs.Completing.{selections_of, list_type};
ghost use Rattle.gql_shape.specs.Indexed as spec;
ghost use Rattle.gql_shape.specs.Indexed.{selections_at, groups_in, IsStretch, AreRuled, KnowsNoMore, Extends};
ghost use Rattle.gql_shape.specs.Kept.{shown_rule, base_of};

use crate::base::Base;
use crate::collect::collect;
use crate::collection::{Collection, Group};
use crate::known::{Stretch, note_known, stretch_known};
use crate::rule::{FieldRule, field_rule, list_type};
use crate::scope::Scope;
use flow_base::{Memory, Text};
use gql_terms::TypeRef;
use indexmap::IndexMap;
use std::alloc::Global;
use std::marker::Model;
use tree_items::Items;

/// A group, and the rule of its field for objects of the type that it was collected for.
#[derive(Drop)]
struct RuledGroup<'a> {
    group: Group<'a>,
    rule: FieldRule<'a>,
}

impl<'a> Model for RuledGroup<'a> {
    ghost use Rattle.gql_terms.specs.contracts.documents.TypeRef as type_ref;
    ghost use Rattle.gql_terms.specs.contracts.documents.Value as value;
    ghost use Rattle.gql_terms.specs.contracts.documents.Selection as selection;
    ghost use Rattle.std.specs.Coded.{codes};
    ghost use Rattle.gql_shape.specs.Kept as kept;
    ghost use Rattle.gql_shape.specs.Indexed as indexed;

    ghost Value = { indexed.RuledGroup };

    ghost coded = { Prim.hlevel (
      codes,
      type_ref.the_row.coded,
      value.the_row.coded,
      selection.the_row.coded,
    ) };

    ghost view = { λ r. record { group = r.group; rule = kept.shown_rule r.rule } };
}

impl<'a> RuledGroup<'a> {
    fn group(&self) -> &Group<'a>
        ensures { result.now ≡ self.now.group }
    {
        &self.group
    }

    fn rule(&self) -> FieldRule<'a>
        ensures { shown_rule result ≡ self.now.rule }
    {
        self.rule
    }
}

/// The groups of all collections, one collection behind the other. What the selections of a group select of an object type
/// is collected once, and so is the rule of each field.
#[derive(Drop)]
pub struct Collections<'a> {
    scope: Scope<'a>,
    ruled: Items<RuledGroup<'a>>,
    known: Vec<IndexMap<Text, Stretch>>,
}

impl<'a> Model for Collections<'a> {
    ghost use Rattle.gql_terms.specs.contracts.documents.TypeRef as type_ref;
    ghost use Rattle.gql_terms.specs.contracts.documents.Value as value;
    ghost use Rattle.gql_terms.specs.contracts.documents.Selection as selection;
    ghost use Rattle.json_value.specs.contracts.tree.Json as json;
    ghost use Rattle.std.specs.Coded.{codes};
    ghost use Rattle.std.specs.Prelude.{map};
    ghost use Rattle.gql_shape.specs.Indexed as indexed;

    ghost Value = { indexed.Collections };

    ghost coded = { Prim.hlevel (
      codes,
      type_ref.the_row.coded,
      value.the_row.coded,
      selection.the_row.coded,
      json.the_row.coded,
    ) };

    ghost view = { λ c. record {
      scope = c.scope;
      groups = map indexed.group_in c.ruled;
      rules = map indexed.rule_in c.ruled;
    } };

    ghost invariant = { λ c. indexed.AreSelected c.scope (map indexed.group_in c.ruled)
        (map indexed.rule_in c.ruled) c.known.items };
}

/// What the selections of all fields of a group select of an object of this type.
fn collect_group<'a>(
    alloc: Global,
    scope: &Scope<'a>,
    object: &Text,
    group: &Group<'a>,
) -> Result<Items<Group<'a>>, Memory>
    ensures { IfOk result (λ gs. Selects scope.now object.now (selections_of group.now) gs) }
{
    let mut into = Collection::new(alloc);
    collect(alloc, scope, object, group.first_selections(), &mut into)?;
    let more = group.more();
    for i in 0..more.len() {
        collect(alloc, scope, object, more[i].selections(), &mut into)?;
    }
    Ok(into.into_groups())
}

/// The groups with the rules of their fields for objects of this type.
fn with_rules<'a>(
    alloc: Global,
    scope: &Scope<'a>,
    object: &Text,
    groups: Items<Group<'a>>,
) -> Result<Items<RuledGroup<'a>>, Memory>
    ensures { IfOk result (λ rs. rs
        ≡ map (spec.with_rule scope.now.schema object.now) groups.entry) }
{
    let mut ruled = Vec::with_capacity(alloc, groups.len())?;
    for group in groups.into_vec() {
        let rule = field_rule(scope, object, group.name());
        ruled.push(RuledGroup { group, rule })?;
    }
    Ok(Items::from_vec(ruled))
}

/// Puts the groups of a collection behind the others. Nothing is known of them yet.
fn keep<'a>(
    alloc: Global,
    ruled: &mut Items<RuledGroup<'a>>,
    known: &mut Vec<IndexMap<Text, Stretch>>,
    more: Items<RuledGroup<'a>>,
) -> Result<Stretch, Memory>
    ensures kept { OnOk result (ruled.new ≡ ruled.old ++ more.entry) }
    ensures stretch { IfOk result
        (λ s. s ≡ record { first = length ruled.old; past = length ruled.new }) }
    ensures err { OnErr result (ruled.new ≡ ruled.old) }
    ensures known { KnowsNoMore known.old.items known.new.items }
{
    for _ in 0..more.len() {
        known.push(IndexMap::new(alloc))?;
    }
    let first = ruled.len();
    ruled.append(more)?;
    Ok(Stretch {
        first,
        past: ruled.len(),
    })
}

impl<'a> Collections<'a> {
    /// Collections that begin with this one, which is that of an object of this type.
    pub fn open(
        alloc: Global,
        scope: Scope<'a>,
        object: &Text,
        groups: Items<Group<'a>>,
    ) -> Result<Collections<'a>, Memory>
        ensures { IfOk result (λ c. c ≡ record {
          scope = scope.entry;
          groups = groups.entry;
          rules = map (spec.rule_for scope.entry.schema object.now) groups.entry;
        }) }
    {
        let mut known = Vec::new(alloc);
        for _ in 0..groups.len() {
            known.push(IndexMap::new(alloc))?;
        }
        let ruled = with_rules(alloc, &scope, object, groups)?;
        Ok(Collections {
            scope,
            ruled,
            known,
        })
    }

    pub fn scope(&self) -> &Scope<'a>
        ensures { result.now ≡ self.now.scope }
    {
        &self.scope
    }

    /// The type of the elements of a list type, whose name stands for this. It has the same name.
    pub fn element_type<'b>(&self, of: &'b TypeRef, base: Base) -> Option<&'b TypeRef>
        requires { base ≡ base_of self.now.scope.schema of.now }
        ensures listed { option_copied result ≡ list_type (bare of.now) }
        ensures based { IfSome result (λ t. base ≡ base_of self.now.scope.schema t.now) }
    {
        list_type(of)
    }

    /// All groups so far.
    pub fn whole(&self) -> Stretch
        ensures { result ≡ record { first = 0; past = length self.now.groups } }
    {
        Stretch {
            first: 0,
            past: self.ruled.len(),
        }
    }

    pub fn group(&self, at: usize) -> &Group<'a>
        requires { at < length self.now.groups }
        ensures { result.now ≡ get_or self.now.groups at result.now }
    {
        self.ruled.as_slice()[at].group()
    }

    /// The rule that is kept with the group at this place.
    pub fn rule(&self, at: usize) -> FieldRule<'a>
        requires { at < length self.now.groups }
        ensures { slice_get self.now.rules at ≡ Some (shown_rule result) }
    {
        self.ruled.as_slice()[at].rule()
    }

    /// What the group at this place selects of an object of this type: collected now, unless it was before.
    pub fn enter(&mut self, alloc: Global, at: usize, object: &Text) -> Result<Stretch, Memory>
        requires { at < length self.old.groups }
        ensures extends { OnOk result (Extends self.old self.new) }
        ensures within { IfOk result (λ s. IsStretch s self.new.groups) }
        ensures selects { IfOk result (λ s. Selects self.old.scope object.now
            (selections_at self.old.groups at) (groups_in s self.new.groups)) }
        ensures ruled { IfOk result (λ s. AreRuled self.old.scope object.now s self.new.groups
            self.new.rules) }
    {
        if let Some(stretch) = stretch_known(self.known.as_slice(), at, object) {
            return Ok(stretch);
        }
        let name = object.copy()?;
        let group = self.ruled.as_slice()[at].group();
        let groups = collect_group(alloc, &self.scope, object, group)?;
        let more = with_rules(alloc, &self.scope, object, groups)?;
        let stretch = keep(alloc, &mut self.ruled, &mut self.known, more)?;
        note_known(&mut self.known, at, name, stretch)?;
        Ok(stretch)
    }
}
