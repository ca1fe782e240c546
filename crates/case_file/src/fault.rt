use flow_base::Memory;
use std::alloc::AllocError;

/// The members of a case, in the order in which they are looked at.
#[derive(Clone, Copy, Debug, PartialEq, Eq)]
pub enum CaseMember {
    Schema,
    Plans,
    Subgraphs,
    Events,
    Bytes,
    Requests,
    Replies,
}

impl CaseMember {
    ghost use Rattle.std.specs.Prelude.{◌≡◌};
    ghost use Rattle.case_file.specs.Parts.{name_of};

    /// The member's name.
    pub fn name(&self) -> &'static str
        ensures { result.now ≡ name_of self.now }
    {
        match self {
            CaseMember::Schema => "schema",
            CaseMember::Plans => "plans",
            CaseMember::Subgraphs => "subgraphs",
            CaseMember::Events => "events",
            CaseMember::Bytes => "bytes",
            CaseMember::Requests => "requests",
            CaseMember::Replies => "replies",
        }
    }
}

/// Why a case is refused: the first of these that applies.
#[derive(Clone, Copy, Debug, PartialEq, Eq)]
pub enum CaseFault {
    /// It is no JSON.
    Json,
    /// This member is missing or of another form, and those before it are not.
    Member(CaseMember),
    /// Its schema is none.
    Schema,
    /// Its plans are no plan file.
    Plans,
    /// Its plans ask for a subgraph that it does not have, or take a variable that is of no input type of its schema.
    Site,
    /// Memory ran out.
    Memory,
}

impl From<AllocError> for CaseFault {
    ghost use Rattle.std.specs.Prelude.{◌≡◌};
    ghost use Rattle.case_file.specs.declared.fault.CaseFault.TheVariants as fault;

    ghost from_gives = { λ _ e. e ≡ fault.Memory };

    fn from(_: AllocError) -> CaseFault {
        CaseFault::Memory
    }
}

impl From<Memory> for CaseFault {
    ghost use Rattle.std.specs.Prelude.{◌≡◌};
    ghost use Rattle.case_file.specs.declared.fault.CaseFault.TheVariants as fault;

    ghost from_gives = { λ _ e. e ≡ fault.Memory };

    fn from(_: Memory) -> CaseFault {
        CaseFault::Memory
    }
}
