use cache_book::{Book, Fill, Permit, Report};
use std::alloc::{AllocFailed, Global};
use std::collections::BTreeMap;
use std::marker::Model;

/// The permits in hand, by epoch and ticket. It must be emptied.
pub struct Hand {
    permits: BTreeMap<(u64, u64), Permit>,
}

impl Model for Hand {
    ghost use Rattle.std.specs.FinMap as map;
    ghost use Rattle.cache_book.specs.Permits.{Granted};
    ghost use Rattle.rehearsal.specs.Names.{name_cmp};
    ghost use Rattle.std.specs.Coded.{coded×, coded_ℕ};
    ghost use Rattle.cache_book.specs.contracts.permit.Permit as permit;

    ghost Value = { map.FinMap name_cmp Granted };

    ghost coded = { map.code (coded× coded_ℕ coded_ℕ) permit.the_row.coded };

    ghost view = { λ h. map.from_entries h.permits.entries };
}

impl Hand {
    ghost use Rattle.rehearsal.specs.InHand.{IsReady};
    ghost use Rattle.std.specs.Prelude.{◌≡◌, OnOk, OnErr, IfErr, None};
    ghost use Rattle.std.specs.FinMap as map;

    pub fn new(alloc: Global) -> Hand
        ensures { result ≡ map.empty }
    {
        Hand {
            permits: BTreeMap::new(alloc),
        }
    }

    /// Takes a permit in hand, or gives it back for want of memory.
    pub fn put(&mut self, ticket: u64, permit: Permit) -> Result<(), Permit>
        requires { map.get self.old (permit.epoch, ticket) ≡ None }
        ensures ok { OnOk result (self.new ≡ map.insert self.old (permit.epoch, ticket) permit) }
        ensures err { OnErr result (self.new ≡ self.old) }
        ensures returned { IfErr result (λ p. p ≡ permit) }
    {
        match self.permits.insert((permit.epoch(), ticket), permit) {
            Ok(None) => Ok(()),
            Ok(Some(_twice)) => unreachable!(),
            Err(AllocFailed { value: (_, permit) }) => Err(permit),
        }
    }

    /// Takes the permit of this name out of the hand.
    pub fn take(&mut self, epoch: u64, ticket: u64) -> Option<Permit>
        ensures taken { result ≡ map.get self.old (epoch, ticket) }
        ensures left { self.new ≡ map.remove self.old (epoch, ticket) }
    {
        self.permits.remove(&(epoch, ticket))
    }

    /// Settles each permit in hand as Failed.
    pub fn give_back(self, book: &mut Book)
        requires { IsReady book.old self }
    {
        let Hand { permits } = self;
        let mut permits = permits;
        while let Some((_, permit)) = permits.pop_first() {
            let _settled = book.settle(Fill {
                permit,
                report: Report::Failed,
            });
        }
        permits.destroy_empty();
    }
}
