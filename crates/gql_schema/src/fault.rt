//! Why a schema text is refused.

use flow_base::{Memory, Text};
use std::alloc::AllocError;

/// Why a schema text was not read. Faults of syntax come before `Twice`, and that before `UnknownType`. Places count
/// bytes from 0.
#[derive(Debug, Drop)]
pub enum SdlFault {
    /// The first byte of the first token that no schema continues, or of bytes that begin no token; where the text ends
    /// and may go on, its length.
    Syntax(u64),
    /// The first name that stands for a type and is none; last of all `Query`, where there is no such type.
    UnknownType(Text),
    /// The first name that is defined a second time: of a type, or of a field or a value within its type.
    Twice(Text),
    /// Memory ran out.
    Memory,
}

impl From<AllocError> for SdlFault {
    ghost use Rattle.std.specs.Prelude.{◌≡◌};
    ghost use Rattle.gql_schema.specs.declared.fault.SdlFault.TheVariants as fault;

    ghost from_gives = { λ _ e. e ≡ fault.Memory };

    fn from(_: AllocError) -> SdlFault {
        SdlFault::Memory
    }
}

impl From<Memory> for SdlFault {
    ghost use Rattle.std.specs.Prelude.{◌≡◌};
    ghost use Rattle.gql_schema.specs.declared.fault.SdlFault.TheVariants as fault;

    ghost from_gives = { λ _ e. e ≡ fault.Memory };

    fn from(_: Memory) -> SdlFault {
        SdlFault::Memory
    }
}
