ghost use Rattle.std.specs.Prelude.{◌≡◌, ◌↔◌, ◌^◌, ◌<◌, ◌≤◌, length, IsTrue, IfSome};
ghost use Rattle.std.specs.Prelude.{MatchOption, Option, Some, None};
ghost use Rattle.std.specs.List.{list_any};
ghost use Rattle.cache_model.specs.Journal.{bytes, stored_size, settles, is_start, starts};
ghost use Rattle.cache_model.specs.Journal.{reserved, is_pending, start_of, kept_at};
ghost use Rattle.cache_model.specs.Journal.{CoversAfter, IsLastCover, IsLast, IsFresh, IsServed};
ghost use Rattle.cache_model.specs.Journal.{IsHeldUnder, IsCount, remaining};
ghost use Rattle.cache_model.specs.Soundness.{IsSound};
ghost use Rattle.plain_book.specs.Scan.{start_seen, kept_seen, kept_shown, IsKeptFor, IsGoodAt};
ghost use Rattle.std.specs.Option.{option_copied};

use cache_terms::{Event, Got, Key, Outcome, Tags, Target, covers};
use flow_base::Text;

/// The Start of a ticket.
#[derive(Clone, Copy)]
pub struct StartRef<'a> {
    pub who: u32,
    pub key: &'a Key,
    pub id: &'a Option<Text>,
    pub since: u64,
    pub at: usize,
}

/// What a Stored settle keeps.
#[derive(Clone, Copy)]
pub struct KeptRef<'a> {
    pub start: StartRef<'a>,
    pub got: &'a Got,
}

/// The sizes of the Stored settles.
pub fn bytes_of(events: &[Event]) -> u64
    requires { bytes events.now < 2 ^ 64 }
    ensures { result ≡ bytes events.now }
{
    let mut total = 0u64;
    for event in events {
        total += stored_size(event);
    }
    total
}

fn stored_size(event: &Event) -> u64
    ensures { result ≡ stored_size event.now }
{
    match event {
        Event::Settle {
            got: Some(got),
            outcome: Outcome::Stored,
            ..
        } => got.size,
        _ => 0,
    }
}

/// The number of Starts.
pub fn starts_of(events: &[Event]) -> u64
    ensures { result ≡ starts events.now }
{
    let mut count = 0u64;
    for event in events {
        if is_start(event) {
            count += 1;
        }
    }
    count
}

fn is_start(event: &Event) -> bool
    ensures { result ≡ is_start event.now }
{
    match event {
        Event::Start { .. } => true,
        _ => false,
    }
}

/// Whether a ticket has a Settle.
pub fn is_settled(events: &[Event], ticket: u64) -> bool
    ensures { result ≡ list_any (settles ticket) events.now }
{
    events.iter().any(|event| settles(event, ticket))
}

fn settles(event: &Event, ticket: u64) -> bool
    ensures { result ≡ settles ticket event.now }
{
    match event {
        Event::Settle {
            ticket: settled,
            ..
        } => *settled == ticket,
        _ => false,
    }
}

/// The number of open tickets.
pub fn reserved_of(events: &[Event]) -> u64
    ensures { result ≡ reserved events.now }
{
    events
        .iter()
        .filter(|event| is_pending(events, event))
        .count() as u64
}

fn is_pending(events: &[Event], event: &Event) -> bool
    ensures { result ≡ is_pending events.now event.now }
{
    match event {
        Event::Start { ticket, .. } => !is_settled(events, *ticket),
        _ => false,
    }
}

/// The Start of a ticket.
pub fn start_of(events: &[Event], wanted: u64) -> Option<StartRef<'_>>
    ensures { start_seen result ≡ start_of events.now wanted }
{
    for (at, event) in events.iter().enumerate() {
        if let Event::Start {
            who,
            ticket,
            key,
            id,
            now,
        } = event
        {
            if *ticket == wanted {
                return Some(StartRef {
                    who: *who,
                    key,
                    id,
                    since: *now,
                    at,
                });
            }
        }
    }
    None
}

/// What is kept at a position.
pub fn kept_at(events: &[Event], at: usize) -> Option<KeptRef<'_>>
    ensures { kept_seen result ≡ kept_at events.now at }
{
    match events.get(at)? {
        Event::Settle {
            ticket,
            got: Some(got),
            outcome: Outcome::Stored,
            ..
        } => {
            let start = start_of(events, *ticket)?;
            Some(KeptRef { start, got })
        }
        _ => None,
    }
}

/// Whether an Invalidate at a position above `after` covers the key and tags.
fn covers_after(events: &[Event], after: usize, key: &Key, tags: &Tags, at: usize) -> bool
    ensures { IsTrue result ↔ CoversAfter events.now after key.now tags.now at }
{
    match events.get(at) {
        Some(Event::Invalidate { target, .. }) => after < at && covers(target, key, tags),
        _ => false,
    }
}

/// The last position above `after` that covers the key and tags.
pub fn last_cover(events: &[Event], after: usize, key: &Key, tags: &Tags) -> Option<usize>
    ensures { IsLastCover events.now after key.now tags.now result }
{
    let mut last = None;
    for at in 0..events.len() {
        if covers_after(events, after, key, tags, at) {
            last = Some(at);
        }
    }
    last
}

/// Whether two optional texts are the same.
pub fn same_scope(a: Option<&Text>, b: Option<&Text>) -> bool
    ensures { IsTrue result ↔ (option_copied a.entry ≡ option_copied b.entry) }
{
    match (a, b) {
        (None, None) => true,
        (Some(a), Some(b)) => *a == *b,
        _ => false,
    }
}

impl<'a> KeptRef<'a> {
    /// Who may be given it: everyone, or one id.
    pub fn scope(&self) -> Option<&'a Text>
        ensures { option_copied result ≡ (kept_shown self.now).scope }
    {
        if self.got.verdict.private {
            self.start.id.as_ref()
        } else {
            None
        }
    }
}

/// Whether a piece of this key and scope is kept at a position.
fn is_kept_for(events: &[Event], at: usize, key: &Key, scope: Option<&Text>) -> bool
    ensures { IsTrue result ↔ IsKeptFor events.now key.now (option_copied scope.entry) at }
{
    match kept_at(events, at) {
        Some(kept) => *kept.start.key == *key && same_scope(kept.scope(), scope),
        None => false,
    }
}

/// The last position at which a piece of this key and scope is kept.
fn last_kept(events: &[Event], key: &Key, scope: Option<&Text>) -> Option<usize>
    ensures { IsLast (IsKeptFor events.now key.now (option_copied scope.entry)) result }
{
    let mut last = None;
    for at in 0..events.len() {
        if is_kept_for(events, at, key, scope) {
            last = Some(at);
        }
    }
    last
}

impl<'a> KeptRef<'a> {
    /// The milliseconds that are left of the time for which it is good, if any are.
    pub fn remaining(&self, now: u64) -> Option<u64>
        requires { self.now.got.now.verdict.lifetime ≤ 2147483648 }
        ensures { MatchOption result (IsFresh (kept_shown self.now) now → ⊥)
            (λ left. IsFresh (kept_shown self.now) now
            × (left ≡ remaining (kept_shown self.now) now)) }
    {
        let verdict = self.got.verdict;
        let good = 1000 * verdict.lifetime.saturating_sub(verdict.age);
        if now < self.start.since {
            return None;
        }
        let since = now - self.start.since;
        if since < good {
            Some(good - since)
        } else {
            None
        }
    }
}

/// The position that serves the key in the scope, and the milliseconds that are left.
pub fn served(events: &[Event], key: &Key, scope: Option<&Text>, now: u64) -> Option<usize>
    requires { IsSound events.now }
    ensures serves { IsServed events.now key.now (option_copied scope.entry) now result }
    ensures kept { IfSome result (IsGoodAt events.now now) }
{
    let at = last_kept(events, key, scope)?;
    let kept = kept_at(events, at)?;
    if last_cover(events, at, kept.start.key, &kept.got.tags).is_some() {
        return None;
    }
    kept.remaining(now)?;
    Some(at)
}

/// Whether what is held at a position is covered by the target.
fn is_held_under(events: &[Event], target: &Target, at: usize) -> bool
    ensures { IsTrue result ↔ IsHeldUnder events.now target.now at }
{
    match kept_at(events, at) {
        Some(kept) => {
            covers(target, kept.start.key, &kept.got.tags)
                && last_kept(events, kept.start.key, kept.scope()) == Some(at)
                && last_cover(events, at, kept.start.key, &kept.got.tags).is_none()
        }
        None => false,
    }
}

/// How many held pieces the target covers.
pub fn count_held(events: &[Event], target: &Target) -> u64
    ensures { IsCount (IsHeldUnder events.now target.now) (length events.now) result }
{
    let mut count = 0u64;
    for at in 0..events.len() {
        if is_held_under(events, target, at) {
            count += 1;
        }
    }
    count
}
