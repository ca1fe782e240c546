use crate::storied::StoriedBook;
use cache_book::{Fill, Found, Notice, Pass, Settled, Tally, Voided};
use cache_seam::Cache;
use cache_terms::Key;
use flow_base::{Memory, Text};
use std::marker::Model;
use std::sync::Wait;
use turn_lock::Member;

/// One user's way to a book that threads share.
#[derive(Drop)]
pub struct Handle<R> {
    pub(crate) member: Member<StoriedBook>,
    pub(crate) rt: R,
    pub(crate) pass: Pass,
    pub(crate) pinned: u64,
    pub(crate) begun: bool,
}

impl<R> Model for Handle<R> {
    ghost use Rattle.shared_book.specs.Handles.{HandleState, held, IsHandle};

    ghost Value = { HandleState };

    ghost view = { λ h. held h.member h.pinned h.begun };

    ghost invariant = { λ h. IsHandle h.member h.pass h.pinned h.begun };
}

impl<R: Wait> Cache for Handle<R> {
    ghost use Rattle.shared_book.specs.Handles.{seen_of};

    ghost seen = { seen_of };

    fn begin(&mut self) -> u64 {
        let number = self.member.number();
        let StoriedBook {
            mut book,
            last: _,
            members,
        } = self.member.enter(&self.rt);
        let pass = book.begin(number);
        self.member.leave(StoriedBook {
            book,
            last: Some(number),
            members,
        });
        self.pass = pass;
        self.pinned = pass.epoch();
        self.begun = true;
        self.pinned
    }

    fn look(&mut self, id: Option<&Text>, asks: Vec<Key>, now: u64) -> Result<Vec<Found>, Memory> {
        let number = self.member.number();
        let StoriedBook {
            mut book,
            last: _,
            members,
        } = self.member.enter(&self.rt);
        let answers = book.look(&self.pass, id, asks, now);
        self.member.leave(StoriedBook {
            book,
            last: Some(number),
            members,
        });
        answers
    }

    fn settle(&mut self, fill: Fill) -> Settled {
        let number = self.member.number();
        let StoriedBook {
            mut book,
            last: _,
            members,
        } = self.member.enter(&self.rt);
        let settled = book.settle(fill);
        self.member.leave(StoriedBook {
            book,
            last: Some(number),
            members,
        });
        settled
    }

    fn invalidate(&mut self, notice: Notice) -> Voided {
        let number = self.member.number();
        let StoriedBook {
            mut book,
            last: _,
            members,
        } = self.member.enter(&self.rt);
        let voided = book.invalidate(number, notice);
        self.member.leave(StoriedBook {
            book,
            last: Some(number),
            members,
        });
        self.pinned = voided.epoch;
        self.begun = false;
        voided
    }

    fn tally(&mut self) -> Tally {
        let number = self.member.number();
        let StoriedBook {
            book,
            last: _,
            members,
        } = self.member.enter(&self.rt);
        let tally = book.tally();
        self.member.leave(StoriedBook {
            book,
            last: Some(number),
            members,
        });
        tally
    }
}
