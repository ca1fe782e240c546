use flow_base::{Memory, Text};
use json_paths::{Place, Spot};
use std::alloc::AllocError;
use tree_items::Items;

/// Why variables were refused: the first variable that can't be coerced, and what is wrong with it.
#[derive(Debug, Drop)]
pub enum VarFault {
    /// A variable of a non-null type without a default is absent.
    Missing(Text),
    /// A variable of a non-null type is null.
    Null(Text),
    /// The part of the variable's value at this place is no value of its type.
    WrongKind(Text, Place),
    Memory,
}

/// Why a value was refused.
#[derive(Drop)]
pub enum Refusal {
    At(Items<Spot>),
    Memory,
}

impl From<AllocError> for Refusal {
    ghost use Rattle.std.specs.Prelude.{◌≡◌};
    ghost use Rattle.gql_inputs.specs.declared.fault.Refusal.TheVariants as refusals;

    ghost from_gives = { λ _ e. e ≡ refusals.Memory };

    fn from(_: AllocError) -> Refusal {
        Refusal::Memory
    }
}

impl From<Memory> for Refusal {
    ghost use Rattle.std.specs.Prelude.{◌≡◌};
    ghost use Rattle.gql_inputs.specs.declared.fault.Refusal.TheVariants as refusals;

    ghost from_gives = { λ _ e. e ≡ refusals.Memory };

    fn from(_: Memory) -> Refusal {
        Refusal::Memory
    }
}

impl From<AllocError> for VarFault {
    ghost use Rattle.std.specs.Prelude.{◌≡◌};
    ghost use Rattle.gql_inputs.specs.declared.fault.VarFault.TheVariants as faults;

    ghost from_gives = { λ _ e. e ≡ faults.Memory };

    fn from(_: AllocError) -> VarFault {
        VarFault::Memory
    }
}

impl From<Memory> for VarFault {
    ghost use Rattle.std.specs.Prelude.{◌≡◌};
    ghost use Rattle.gql_inputs.specs.declared.fault.VarFault.TheVariants as faults;

    ghost from_gives = { λ _ e. e ≡ faults.Memory };

    fn from(_: Memory) -> VarFault {
        VarFault::Memory
    }
}
