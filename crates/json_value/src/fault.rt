use flow_base::Memory;
use std::alloc::AllocError;

/// Why a text was not read: its first fault from the left. Places count bytes from 0.
#[derive(Clone, Copy, Debug, PartialEq, Eq)]
pub enum JsonFault {
    /// This byte continues no text. Of bytes that are not UTF-8, the first of the malformed sequence.
    Syntax(u64),
    /// The text ends too soon.
    Ended,
    /// This bracket opens the 65th level.
    Deep(u64),
    /// The opening quote of a name that its object has already.
    Twice(u64),
    /// The backslash of an escaped surrogate that is not one of a pair.
    Surrogate(u64),
    /// Memory ran out.
    Memory,
}

impl From<AllocError> for JsonFault {
    ghost use Rattle.std.specs.Prelude.{◌≡◌};
    ghost use Rattle.json_value.specs.declared.fault.JsonFault.TheVariants as faults;

    ghost from_gives = { λ _ e. e ≡ faults.Memory };

    fn from(_: AllocError) -> JsonFault {
        JsonFault::Memory
    }
}

impl From<Memory> for JsonFault {
    ghost use Rattle.std.specs.Prelude.{◌≡◌};
    ghost use Rattle.json_value.specs.declared.fault.JsonFault.TheVariants as faults;

    ghost from_gives = { λ _ e. e ≡ faults.Memory };

    fn from(_: Memory) -> JsonFault {
        JsonFault::Memory
    }
}
