ghost use Rattle.std.specs.Prelude.{◌≡◌, ◌≤◌, MatchOption, None, if◌then◌else◌};
ghost use Rattle.std.specs.Option.{option_copied};
ghost use Rattle.cache_model.specs.Journal.{IsFresh, remaining};
ghost use Rattle.book_tables.specs.Refs.{start_shown, kept_shown};

use cache_terms::{Got, Key};
use flow_base::Text;

/// The Start of a ticket: who asked for what, under which id, at which moment in milliseconds, and
/// its position.
#[derive(Clone, Copy)]
pub struct StartRef<'a> {
    pub who: u32,
    pub key: &'a Key,
    pub id: &'a Option<Text>,
    pub since: u64,
    pub at: usize,
}

/// What a Stored settle keeps.
#[derive(Clone, Copy)]
pub struct KeptRef<'a> {
    pub start: StartRef<'a>,
    pub got: &'a Got,
}

impl<'a> StartRef<'a> {
    /// Who may be given what comes of it: everyone, or where that is private its id.
    pub fn scope(&self, private: bool) -> Option<&'a Text>
        ensures { option_copied result
            ≡ (if private then (start_shown self.now).id else None) }
    {
        if private {
            return self.id.as_ref();
        }
        None
    }
}

impl<'a> KeptRef<'a> {
    /// Who may be given it: everyone, or one id.
    pub fn scope(&self) -> Option<&'a Text>
        ensures { option_copied result ≡ (kept_shown self.now).scope }
    {
        self.start.scope(self.got.verdict.private)
    }

    /// The milliseconds that are left of the time for which it is good, if any are.
    pub fn remaining(&self, now: u64) -> Option<u64>
        requires { self.now.got.now.verdict.lifetime ≤ 2147483648 }
        ensures { MatchOption result (IsFresh (kept_shown self.now) now → ⊥)
            (λ left. IsFresh (kept_shown self.now) now
            × (left ≡ remaining (kept_shown self.now) now)) }
    {
        let verdict = self.got.verdict;
        let good = 1000 * verdict.lifetime.saturating_sub(verdict.age);
        if now < self.start.since {
            return None;
        }
        let since = now - self.start.since;
        if since < good {
            Some(good - since)
        } else {
            None
        }
    }
}
