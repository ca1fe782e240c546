use flow_base::{Memory, Text};
use std::alloc::AllocError;

/// Why a plan file was refused: its first fault, entry by entry. Entries and the nodes of an entry's plan are counted from 0
/// in the order of the text, a node before those in it.
#[derive(Debug, Drop)]
pub enum PlanFault {
    /// In this entry, the member with this name is missing or has another form.
    Field(u64, Text),
    /// In this entry, this node is of no kind that a plan has.
    Kind(u64, u64),
    /// In this entry, this node may not stand where it does.
    Nesting(u64, u64),
    /// In this entry's document, a fragment of this name is spread that is not there or that spreads itself.
    Spread(u64, Text),
    /// This entry has so many fetches or so many nested nodes, or the list so many entries.
    TooMany(u64, u64),
    /// This entry has the document of an earlier one.
    Twice(u64),
    /// Memory ran out.
    Memory,
}

impl From<AllocError> for PlanFault {
    ghost use Rattle.std.specs.Prelude.{◌≡◌};
    ghost use Rattle.plan_book.specs.declared.fault.PlanFault.TheVariants as faults;

    ghost from_gives = { λ _ e. e ≡ faults.Memory };

    fn from(_: AllocError) -> PlanFault {
        PlanFault::Memory
    }
}

impl From<Memory> for PlanFault {
    ghost use Rattle.std.specs.Prelude.{◌≡◌};
    ghost use Rattle.plan_book.specs.declared.fault.PlanFault.TheVariants as faults;

    ghost from_gives = { λ _ e. e ≡ faults.Memory };

    fn from(_: Memory) -> PlanFault {
        PlanFault::Memory
    }
}
