ghost use Rattle.std.specs.Prelude.{◌≡◌, ◌++◌, IfOk, OnOk, length};
ghost use Rattle.std.specs.List.{IsDistinct};
ghost use Rattle.std.specs.Str.{bytes_eq};
ghost use Rattle.json_value.specs.Members.{named};
ghost use Rattle.merge_paths.specs.Merge.{without};
ghost use Rattle.merge_paths.specs.Taking.{taken_back, not_taken, IsIndexed};

use crate::merging::first_named;
use flow_base::{Memory, Text};
use indexmap::IndexSet;
use json_value::Json;
use std::alloc::Global;
use tree_items::Items;

/// So many members are searched one by one.
const FEW: usize = 16;

/// Members that are taken out one by one by their names. Those at the end are found by an index on their names, as
/// long as these differ: the last member stands first there, and where it was taken out there is None.
#[derive(Drop)]
pub struct Others {
    listed: Items<(Text, Json)>,
    names: IndexSet<Text>,
    values: Vec<Option<Json>>,
}

impl Others {
    /// These members. More than a few are indexed, from the last one on down to the first whose name comes again.
    pub fn of(alloc: Global, members: Items<(Text, Json)>) -> Result<Others, Memory>
        ensures members { IfOk result (λ o. not_taken o ≡ members) }
        ensures indexed { IfOk result (λ o. IsIndexed o) }
    {
        let count = members.len();
        let mut others = Others {
            listed: members,
            names: IndexSet::new(alloc),
            values: Vec::new(alloc),
        };
        if count <= FEW {
            return Ok(others);
        }
        for _ in 0..count {
            if !others.index_last()? {
                return Ok(others);
            }
        }
        Ok(others)
    }

    /// Moves the last of the listed members into the index, and says whether it did: its name may be there already.
    fn index_last(&mut self) -> Result<bool, Memory>
        requires { IsIndexed self.old }
        ensures same { OnOk result (not_taken self.new ≡ not_taken self.old) }
        ensures indexed { OnOk result (IsIndexed self.new) }
    {
        let Some((name, value)) = self.listed.pop() else {
            return Ok(false);
        };
        if self.names.contains(&name) {
            self.listed.push((name, value))?;
            return Ok(false);
        }
        self.names.insert(name)?;
        self.values.push(Some(value))?;
        Ok(true)
    }

    /// Takes the first member with this name out.
    pub fn take(&mut self, name: &Text) -> Option<Json>
        requires { IsIndexed self.old }
        ensures value { result ≡ named name.now (not_taken self.old) }
        ensures rest { not_taken self.new ≡ without name.now (not_taken self.old) }
        ensures indexed { IsIndexed self.new }
    {
        if let Some(value) = take_listed(&mut self.listed, name.as_str()) {
            return Some(value);
        }
        take_indexed(&self.names, &mut self.values, name)
    }

    /// Appends those that were not taken, in their order.
    pub fn append_to(self, members: &mut Items<(Text, Json)>) -> Result<(), Memory>
        requires { IsIndexed self }
        ensures { OnOk result (members.new ≡ members.old ++ not_taken self) }
    {
        let Others {
            listed,
            mut names,
            mut values,
        } = self;
        members.append(listed)?;
        while let Some(name) = names.pop() {
            let Some(kept) = values.pop() else {
                return Ok(());
            };
            let Some(value) = kept else {
                continue;
            };
            members.push((name, value))?;
        }
        Ok(())
    }
}

fn take_listed(listed: &mut Items<(Text, Json)>, name: &str) -> Option<Json>
    ensures value { result ≡ named name.now listed.old }
    ensures rest { listed.new ≡ without name.now listed.old }
{
    let Some(index) = first_named(listed.as_slice(), name) else {
        return None;
    };
    let (_, value) = listed.remove(index);
    Some(value)
}

fn take_indexed(names: &IndexSet<Text>, values: &mut Vec<Option<Json>>, name: &Text) -> Option<Json>
    requires differ { IsDistinct bytes_eq names.now.keys }
    requires long { length values.old.items ≡ length names.now.keys }
    ensures value { result ≡ named name.now (taken_back names.now.keys values.old.items) }
    ensures rest { taken_back names.now.keys values.new.items
        ≡ without name.now (taken_back names.now.keys values.old.items) }
    ensures long { length values.new.items ≡ length names.now.keys }
{
    let Some(index) = names.get_index_of(name) else {
        return None;
    };
    values[index].take()
}
