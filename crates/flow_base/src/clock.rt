ghost use Rattle.std.specs.Prelude.{◌≡◌, ℕ, [], ◌∷◌, List, Option};
ghost use Rattle.flow_base.specs.Logs.{Grows};

use std::marker::Model;

/// What tells the time. It may go back.
pub trait Clock {
    /// The moments that it has given, where it tells them.
    ghost log: { Self → Option (List ℕ) };

    /// The moment, in milliseconds since some moment that only the clock knows.
    fn now_ms(&mut self) -> u64
        ensures { Grows (log self.old) (log self.new) (result ∷ []) };
}

/// A clock that gives the moments of a list in turn, and then the last one for ever, or 0 where the list is empty.
/// It tells what it has given until it has been read `u64::MAX` times.
#[derive(Drop)]
pub struct ListClock {
    moments: Vec<u64>,
    reads: u64,
}

impl Model for ListClock {
    ghost use Rattle.std.specs.Prelude.{ℕ, List};
    ghost use Rattle.flow_base.specs.Clocks.{Watch};

    ghost Value = { Watch };

    ghost view = { λ c. record { moments = c.moments.items; reads = c.reads } };
}

impl ListClock {
    ghost use Rattle.std.specs.Prelude.{◌≡◌};

    /// A clock that was not read yet.
    pub fn of(moments: Vec<u64>) -> ListClock
        ensures { result ≡ record { moments = moments.items; reads = 0 } }
    {
        ListClock { moments, reads: 0 }
    }
}

impl Clock for ListClock {
    ghost use Rattle.std.specs.Prelude.{◌≡◌};
    ghost use Rattle.std.specs.Prelude.{[], ◌∷◌};
    ghost use Rattle.flow_base.specs.Logs.{Grows};
    ghost use Rattle.flow_base.specs.Clocks.{moments_told, moment_at};
    ghost use Rattle.flow_base.specs.InMemory.{next};

    ghost log = { λ c. moments_told c };

    fn now_ms(&mut self) -> u64
        ensures told { Grows (moments_told self.old) (moments_told self.new) (result ∷ []) }
        ensures moment { result ≡ moment_at self.old.moments self.old.reads }
        ensures moments { self.new.moments ≡ self.old.moments }
        ensures counts { self.new.reads ≡ next self.old.reads }
    {
        let number = self.reads;
        self.reads = number.saturating_add(1);
        if number < self.moments.len() as u64 {
            return self.moments[number as usize];
        }
        match self.moments.last() {
            Some(last) => *last,
            None => 0,
        }
    }
}
