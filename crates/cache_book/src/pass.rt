use std::marker::Model;

/// Who asks, and in which epoch. It is made by `Book::begin`, and for who has not begun by `Book::pass`.
#[derive(Clone, Copy)]
pub struct Pass {
    who: u32,
    epoch: u64,
}

impl Model for Pass {
    ghost use Rattle.cache_book.specs.Permits.{Pinned};

    ghost Value = { Pinned };

    ghost view = { λ p. record { who = p.who; epoch = p.epoch } };

    ghost inverse = { λ d. record { who = d.who; epoch = d.epoch } };
}

impl Pass {
    ghost use Rattle.std.specs.Prelude.{◌≡◌};
    ghost use Rattle.cache_book.specs.Permits.{Pinned};

    pub(crate) fn new(who: u32, epoch: u64) -> Pass
        ensures { result ≡ record { who = who; epoch = epoch } }
    {
        Pass { who, epoch }
    }

    pub fn who(&self) -> u32
        ensures { result ≡ self.now.who }
    {
        self.who
    }

    pub fn epoch(&self) -> u64
        ensures { result ≡ self.now.epoch }
    {
        self.epoch
    }
}
