use cache_terms::{Key, Mark, Offer};
use std::marker::Model;

/// The leave to settle one ask. It is made by `Book::look` alone, and has to be spent by `Book::settle`.
pub struct Permit {
    pub(crate) who: u32,
    pub(crate) epoch: u64,
    pub(crate) mark: Mark,
    pub(crate) key: Key,
    pub(crate) named: bool,
}

impl Model for Permit {
    ghost use Rattle.cache_book.specs.Permits.{Granted};

    ghost Value = { Granted };

    ghost view = { λ p. record {
      who = p.who;
      epoch = p.epoch;
      mark = p.mark;
      key = p.key;
      named = p.named;
    } };
}

impl Permit {
    ghost use Rattle.std.specs.Prelude.{◌≡◌};

    /// The caller, by its pass.
    pub fn who(&self) -> u32
        ensures { result ≡ self.now.who }
    {
        self.who
    }

    /// The epoch of its pass, also in a bypass.
    pub fn epoch(&self) -> u64
        ensures { result ≡ self.now.epoch }
    {
        self.epoch
    }

    /// Its ticket, or why it has none.
    pub fn mark(&self) -> &Mark
        ensures { result.now ≡ self.now.mark }
    {
        &self.mark
    }

    /// The key that was asked for.
    pub fn key(&self) -> &Key
        ensures { result.now ≡ self.now.key }
    {
        &self.key
    }

    /// Whether the caller has an id.
    pub fn named(&self) -> bool
        ensures { result ≡ self.now.named }
    {
        self.named
    }

    /// Lets go of a permit that nobody was given.
    pub(crate) fn discard(self) {
        let Permit {
            who: _,
            epoch: _,
            mark: _,
            key: _key,
            named: _,
        } = self;
    }
}

/// What came of a fetch.
#[derive(Drop)]
pub enum Report {
    Failed,
    Got(Offer),
}

/// A permit with what came of its fetch.
pub struct Fill {
    pub permit: Permit,
    pub report: Report,
}
