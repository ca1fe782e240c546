ghost use Rattle.std.specs.Prelude.{◌≡◌};

use cache_book::{Book, Fill, Permit, Report};
use cache_terms::Limits;
use std::alloc::AllocGlobal;
use std::process::Abort;

/// Two books of the first epoch and of the last. Each permit is foreign to one of them, which ends it: so a permit can
/// be let go whatever became of its own book.
#[derive(Drop)]
pub struct Ends {
    first: Book,
    last: Book,
    ghost first_is: { first.epoch ≡ 0 },
    ghost last_is: { last.epoch ≡ 18446744073709551615 },
}

impl Ends {
    pub fn open<R: Abort + AllocGlobal>(rt: &R) -> Ends {
        let limits = Limits {
            events: 8,
            bytes: 16,
        };
        Ends {
            first: Book::open(rt.alloc(), limits, 0).expect(rt, "memory"),
            last: Book::open(rt.alloc(), limits, u64::MAX).expect(rt, "memory"),
        }
    }

    pub fn end(&mut self, permit: Permit) {
        let report = Report::Failed;
        if permit.epoch() == 0 {
            let _settled = self.last.settle(Fill { permit, report });
        } else {
            let _settled = self.first.settle(Fill { permit, report });
        }
    }

    /// Keeps a permit for later, as long as there is room for it.
    pub fn keep(&mut self, hand: &mut Vec<Permit>, permit: Permit) {
        if hand.len() < hand.capacity() {
            hand.push(permit).unwrap();
        } else {
            self.end(permit);
        }
    }

    pub fn end_all(&mut self, hand: Vec<Permit>) {
        let mut hand = hand;
        while let Some(permit) = hand.pop() {
            self.end(permit);
        }
        hand.destroy_empty();
    }
}
