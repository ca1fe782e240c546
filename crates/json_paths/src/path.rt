ghost use Rattle.std.specs.Prelude.{◌≡◌, [], ◌∷◌, ◌++◌, List, IfOk, OnOk, OnErr};
ghost use Rattle.json_paths.specs.declared.path.Spot.{Spot as Way};

use flow_base::{Memory, Text};
use std::alloc::Global;
use tree_items::Items;

/// One step of a path: into the member of an object with this name, or into each element of a list.
#[derive(Debug, Drop)]
pub enum Step {
    Name(Text),
    Each,
}

/// The steps from a whole value to parts of it; none leads to the value itself.
#[derive(Debug, Drop)]
pub struct Path {
    pub steps: Items<Step>,
}

/// One step to a part: the member of an object with this name, or the element of a list at this index,
/// which counts from 0.
#[derive(Debug, Drop)]
pub enum Spot {
    Name(Text),
    Index(u64),
}

/// Where a part of a value stands: the spots from the whole value down to it; none is the whole value.
#[derive(Debug, Drop)]
pub struct Place {
    pub spots: Items<Spot>,
}

impl Step {
    /// A copy. Fails only for want of memory.
    pub fn copy(&self) -> Result<Step, Memory>
        ensures { IfOk result (λ s. s ≡ self.now) }
    {
        match self {
            Step::Name(name) => Ok(Step::Name(name.copy()?)),
            Step::Each => Ok(Step::Each),
        }
    }
}

impl Path {
    /// A copy. Fails only for want of memory.
    pub fn copy(&self, alloc: Global) -> Result<Path, Memory>
        ensures { IfOk result (λ p. p ≡ self.now) }
    {
        Ok(Path {
            steps: copy_steps(alloc, self.steps.as_slice())?,
        })
    }
}

impl Spot {
    /// A copy. Fails only for want of memory.
    pub fn copy(&self) -> Result<Spot, Memory>
        ensures { IfOk result (λ s. s ≡ self.now) }
    {
        match self {
            Spot::Name(name) => Ok(Spot::Name(name.copy()?)),
            Spot::Index(index) => Ok(Spot::Index(*index)),
        }
    }
}

impl Place {
    /// A copy. Fails only for want of memory.
    pub fn copy(&self, alloc: Global) -> Result<Place, Memory>
        ensures { IfOk result (λ p. p ≡ self.now) }
    {
        Ok(Place {
            spots: copy_spots(alloc, self.spots.as_slice())?,
        })
    }
}

fn copy_steps(alloc: Global, steps: &[Step]) -> Result<Items<Step>, Memory>
    ensures { IfOk result (λ c. c ≡ steps.now) }
{
    let mut copies = Vec::with_capacity(alloc, steps.len())?;
    for step in steps {
        copies.push(step.copy()?)?;
    }
    Ok(Items::from_vec(copies))
}

/// A copy. Fails only for want of memory.
pub fn copy_spots(alloc: Global, spots: &[Spot]) -> Result<Items<Spot>, Memory>
    ensures { IfOk result (λ c. c ≡ spots.now) }
{
    let mut copies = Vec::with_capacity(alloc, spots.len())?;
    for spot in spots {
        copies.push(spot.copy()?)?;
    }
    Ok(Items::from_vec(copies))
}

/// Goes one spot further in: puts it behind the others. Fails only for want of memory.
pub fn enter(spots: &mut Vec<Spot>, spot: Spot) -> Result<(), Memory>
    ensures ok { OnOk result (spots.new.items ≡ spots.old.items ++ (spot ∷ [])) }
    ensures err { OnErr result (spots.new.items ≡ spots.old.items) }
{
    spots.push(spot)?;
    Ok(())
}

/// Goes back out: takes the last spot off, where there is one.
pub fn leave(spots: &mut Vec<Spot>)
    ensures back { (outer : List Way) → (last : Way) → spots.old.items ≡ outer ++ (last ∷ [])
        → spots.new.items ≡ outer }
    ensures outermost { spots.old.items ≡ [] → spots.new.items ≡ [] }
{
    let _ = spots.pop();
}
