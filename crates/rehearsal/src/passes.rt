use cache_book::Pass;
use flow_base::Memory;
use std::alloc::Global;
use std::collections::BTreeMap;
use std::marker::Model;

/// The pass of each caller since its last `begin`.
#[derive(Drop)]
pub struct Passes {
    passes: BTreeMap<u32, Pass>,
}

impl Model for Passes {
    ghost use Rattle.std.specs.FinMap as map;
    ghost use Rattle.std.specs.Ordering.{nat_cmp};
    ghost use Rattle.cache_book.specs.Permits.{Pinned};
    ghost use Rattle.std.specs.Coded.{coded_ℕ};
    ghost use Rattle.cache_book.specs.contracts.pass.Pass as pass;

    ghost Value = { map.FinMap nat_cmp Pinned };

    ghost coded = { map.code coded_ℕ pass.the_row.coded };

    ghost view = { λ p. map.from_entries p.passes.entries };
}

impl Passes {
    ghost use Rattle.std.specs.Prelude.{◌≡◌, OnOk, OnErr};
    ghost use Rattle.std.specs.FinMap as map;

    pub fn new(alloc: Global) -> Passes
        ensures { result ≡ map.empty }
    {
        Passes {
            passes: BTreeMap::new(alloc),
        }
    }

    /// The pass of a caller.
    pub fn last(&self, who: u32) -> Option<Pass>
        ensures { result ≡ map.get self.now who }
    {
        self.passes.get(&who).copied()
    }

    /// Notes a pass, in place of the one that its caller had.
    pub fn note(&mut self, pass: Pass) -> Result<(), Memory>
        ensures ok { OnOk result (self.new ≡ map.insert self.old pass.who pass) }
        ensures err { OnErr result (self.new ≡ self.old) }
    {
        match self.passes.insert(pass.who(), pass) {
            Ok(_) => Ok(()),
            Err(_) => Err(Memory),
        }
    }
}
