//! Why a text is refused.

use flow_base::Memory;
use std::alloc::AllocError;

/// Why a token is refused: nothing goes on with it, or it opens one level too many.
#[derive(Clone, Copy, Debug, PartialEq, Eq)]
pub enum Refusal {
    Unexpected,
    Deep,
}

/// Why a text was not read: its first fault from the left. Places count bytes from 0.
#[derive(Clone, Copy, Debug, PartialEq, Eq)]
pub enum GqlFault {
    /// The first byte of the first token that no document continues, or of bytes that begin no token.
    Unexpected(u64),
    /// The text ends too soon.
    Ended,
    /// This bracket opens the 65th selection set, list or object value, or list type.
    Deep(u64),
    /// Memory ran out.
    Memory,
}

impl From<AllocError> for GqlFault {
    ghost use Rattle.std.specs.Prelude.{◌≡◌};
    ghost use Rattle.gql_terms.specs.declared.faults.GqlFault.TheVariants as fault;

    ghost from_gives = { λ _ e. e ≡ fault.Memory };

    fn from(_: AllocError) -> GqlFault {
        GqlFault::Memory
    }
}

impl From<Memory> for GqlFault {
    ghost use Rattle.std.specs.Prelude.{◌≡◌};
    ghost use Rattle.gql_terms.specs.declared.faults.GqlFault.TheVariants as fault;

    ghost from_gives = { λ _ e. e ≡ fault.Memory };

    fn from(_: Memory) -> GqlFault {
        GqlFault::Memory
    }
}
