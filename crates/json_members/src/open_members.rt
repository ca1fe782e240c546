//! The members of an object that is read, with their names in order.

ghost use Rattle.std.specs.Prelude.{◌≡◌, [], ◌∷◌, ◌++◌, ◌||◌, IfOk, IfSome, Bool, List, ℕ, true, false};
ghost use Rattle.std.specs.BTreeSet.{contains, Updates};
ghost use Rattle.std.specs.Cmp.Lexicographic.{slice_cmp};
ghost use Rattle.std.specs.Ordering.{nat_cmp};
ghost use Rattle.std.specs.Str.{bytes_eq};
ghost use Rattle.json_value.specs.Grammar as grammar;
ghost use Rattle.json_members.specs.Covers.{IndexesNames};
ghost use Rattle.json_members.specs.Slots.{digest_of, has_digest};
ghost use Rattle.json_members.specs.declared.open_members.Index.TheVariants.{ByDigest};

use crate::digests::{Digests, digest};
use flow_base::{Memory, Text};
use json_value::Json;
use std::alloc::Global;
use std::collections::BTreeSet;
use std::marker::Model;
use tree_items::Items;

/// Names of so few members are compared one by one.
const FEW: usize = 16;

/// The slots of the first table of digests, less one.
const FIRST_MASK: u64 = 63;

/// How a name is looked for. Boxed, since the reader moves the members about.
#[derive(Drop)]
pub enum Index {
    OneByOne,
    /// A name is new if its digest is not here.
    ByDigest(Box<Digests>),
    /// Once a digest did not tell: whoever chose the names may have chosen many of one digest.
    ByName(Box<BTreeSet<Text>>),
}

#[derive(Drop)]
pub struct Members {
    alloc: Global,
    list: Items<(Text, Json)>,
    index: Index,
}

impl Model for Members {
    ghost use Rattle.std.specs.Prelude.{List, ℕ};
    ghost use Rattle.json_value.specs.declared.tree.Json.{Json};
    ghost use Rattle.json_value.specs.contracts.tree.Json as json;
    ghost use Rattle.std.specs.Coded.{codes};

    ghost Value = { List (List ℕ × Json) };

    ghost coded = { Prim.hlevel (codes, json.the_row.coded) };

    ghost use Rattle.json_value.specs.Grammar.{has};
    ghost use Rattle.json_members.specs.Covers.{IndexesNames};

    ghost view = { λ m. m.list };

    ghost invariant = { λ m. IndexesNames m.index (has m.list) };
}

/// Whether one of the members has this name.
fn is_among(members: &[(Text, Json)], name: &Text) -> bool
    ensures { result ≡ grammar.has members.now name.now }
{
    for i in 0..members.len() {
        if members[i].0.as_str() == name.as_str() {
            return true;
        }
    }
    false
}

/// The set with this name.
fn with_name(names: BTreeSet<Text>, name: &Text) -> Result<BTreeSet<Text>, Memory>
    ensures { IfOk result (λ set. Updates (slice_cmp nat_cmp) names set name.now true) }
{
    let mut names = names;
    let copy = name.copy()?;
    match names.insert(copy) {
        Err(_) => Err(Memory),
        Ok(_) => Ok(names),
    }
}

/// The names of the members.
fn names_of(alloc: Global, members: &[(Text, Json)]) -> Result<BTreeSet<Text>, Memory>
    ensures { IfOk result (λ set. (k : List ℕ)
        → contains (slice_cmp nat_cmp) set k ≡ grammar.has members.now k) }
{
    let mut names = BTreeSet::new(alloc);
    for i in 0..members.len() {
        names = with_name(names, &members[i].0)?;
    }
    Ok(names)
}

/// The digests of the members' names; none where one of them finds no place.
fn digests_of(alloc: Global, members: &[(Text, Json)]) -> Result<Option<Digests>, Memory>
    ensures { IfOk result (λ found. IfSome found (λ t. (k : List ℕ) →
        grammar.has members.now k ≡ true → has_digest t (digest_of k) ≡ true)) }
{
    let mut digests = Digests::new(alloc, FIRST_MASK)?;
    for i in 0..members.len() {
        if !digests.add(alloc, digest(&members[i].0))? {
            return Ok(None);
        }
    }
    Ok(Some(digests))
}

impl Index {
    /// Whether one of the members has this name, if the index can tell.
    fn tells(&self, members: &[(Text, Json)], name: &Text) -> Option<bool>
        requires { IndexesNames self.now (grammar.has members.now) }
        ensures { IfSome result (λ b. b ≡ grammar.has members.now name.now) }
    {
        match self {
            Index::OneByOne => Some(is_among(members, name)),
            Index::ByDigest(digests) => {
                if digests.may_have(digest(name)) {
                    None
                } else {
                    Some(false)
                }
            }
            Index::ByName(names) => Some(names.contains(name)),
        }
    }

    fn of_names(alloc: Global, names: BTreeSet<Text>) -> Result<Index, Memory>
        ensures { IfOk result
            (λ index. (named : List ℕ → Bool)
            → ((k : List ℕ) → contains (slice_cmp nat_cmp) names k ≡ named k)
            → IndexesNames index named) }
    {
        match Box::new(alloc, names) {
            Ok(names) => Ok(Index::ByName(names)),
            Err(_) => Err(Memory),
        }
    }

    /// An index of the names of these members and of one more.
    fn by_name(alloc: Global, members: &[(Text, Json)], name: &Text) -> Result<Index, Memory>
        ensures { IfOk result (λ index. IndexesNames index
            (λ k. grammar.has members.now k || bytes_eq name.now k)) }
    {
        let names = names_of(alloc, members)?;
        let names = with_name(names, name)?;
        Index::of_names(alloc, names)
    }

    fn by_digest(
        alloc: Global,
        digests: Box<Digests>,
        members: &[(Text, Json)],
        name: &Text,
    ) -> Result<Index, Memory>
        requires { IndexesNames (ByDigest digests) (grammar.has members.now) }
        ensures { IfOk result (λ index. IndexesNames index
            (λ k. grammar.has members.now k || bytes_eq name.now k)) }
    {
        let mut digests = digests;
        if !digests.add(alloc, digest(name))? {
            return Index::by_name(alloc, members, name);
        }
        Ok(Index::ByDigest(digests))
    }

    fn of_many(alloc: Global, members: &[(Text, Json)], name: &Text) -> Result<Index, Memory>
        ensures { IfOk result (λ index. IndexesNames index
            (λ k. grammar.has members.now k || bytes_eq name.now k)) }
    {
        match digests_of(alloc, members)? {
            Some(digests) => {
                let digests = Box::new(alloc, digests).map_err(|_| Memory)?;
                Index::by_digest(alloc, digests, members, name)
            }
            None => Index::by_name(alloc, members, name),
        }
    }

    /// With one more name than those of these members.
    fn with(self, alloc: Global, members: &[(Text, Json)], name: &Text) -> Result<Index, Memory>
        requires { IndexesNames self (grammar.has members.now) }
        ensures { IfOk result (λ index. IndexesNames index
            (λ k. grammar.has members.now k || bytes_eq name.now k)) }
    {
        match self {
            Index::OneByOne => {
                if members.len() < FEW {
                    Ok(Index::OneByOne)
                } else {
                    Index::of_many(alloc, members, name)
                }
            }
            Index::ByDigest(digests) => Index::by_digest(alloc, digests, members, name),
            Index::ByName(names) => {
                let names = with_name(Box::into_inner(names), name)?;
                Index::of_names(alloc, names)
            }
        }
    }
}

impl Members {
    pub fn new(alloc: Global) -> Members
        ensures { result ≡ [] }
    {
        Members {
            alloc,
            list: Items::new(alloc),
            index: Index::OneByOne,
        }
    }

    /// Whether one of them has this name. The members stay.
    pub fn meets(&mut self, name: &Text) -> Result<bool, Memory>
        ensures met { IfOk result (λ met. met ≡ grammar.has self.old name.now) }
        ensures same { self.new ≡ self.old }
    {
        match self.index.tells(self.list.as_slice(), name) {
            Some(met) => Ok(met),
            None => self.meets_by_name(name),
        }
    }

    fn meets_by_name(&mut self, name: &Text) -> Result<bool, Memory>
        ensures met { IfOk result (λ met. met ≡ grammar.has self.old name.now) }
        ensures same { self.new ≡ self.old }
    {
        let names = names_of(self.alloc, self.list.as_slice())?;
        let met = names.contains(name);
        self.index = Index::of_names(self.alloc, names)?;
        Ok(met)
    }

    /// With one more.
    pub fn with(self, name: Text, value: Json) -> Result<Members, Memory>
        ensures { IfOk result (λ m. m ≡ self ++ (name, value) ∷ []) }
    {
        let Members {
            alloc,
            mut list,
            index,
        } = self;
        let index = index.with(alloc, list.as_slice(), &name)?;
        list.push((name, value))?;
        Ok(Members { alloc, list, index })
    }

    pub fn into_items(self) -> Items<(Text, Json)>
        ensures { result ≡ self }
    {
        let Members { list, .. } = self;
        list
    }
}
