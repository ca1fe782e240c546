ghost use Rattle.std.specs.Prelude.{◌≡◌, IfOk};

use flow_base::{Memory, Text};
use std::alloc::Global;
use tree_items::Items;

/// A member that is needed and, where it is an object or a list of objects, what is needed of it.
#[derive(Debug, Drop)]
pub struct Need {
    pub name: Text,
    pub fields: Items<Need>,
}

/// The members that are needed of an object of this type.
#[derive(Debug, Drop)]
pub struct Requires {
    pub type_name: Text,
    pub fields: Items<Need>,
}

impl Requires {
    /// A copy. Fails only for want of memory. Recurses once for each level of needs.
    pub fn copy(&self, alloc: Global) -> Result<Requires, Memory>
        ensures { IfOk result (λ r. r ≡ self.now) }
    {
        Ok(Requires {
            type_name: self.type_name.copy()?,
            fields: copy_needs(alloc, self.fields.as_slice())?,
        })
    }
}

#[cycle(copy)]
fn copy_needs(alloc: Global, needs: &[Need]) -> Result<Items<Need>, Memory>
    ensures { IfOk result (λ c. c ≡ needs.now) }
{
    let mut copies = Vec::with_capacity(alloc, needs.len())?;
    for need in needs {
        copies.push(copy_need(alloc, need)?)?;
    }
    Ok(Items::from_vec(copies))
}

#[cycle(copy)]
fn copy_need(alloc: Global, need: &Need) -> Result<Need, Memory>
    ensures { IfOk result (λ c. c ≡ need.now) }
{
    Ok(Need {
        name: need.name.copy()?,
        fields: copy_needs(alloc, need.fields.as_slice())?,
    })
}
