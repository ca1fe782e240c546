ghost use Rattle.std.specs.Prelude.{◌≡◌, ◌+◌, ◌≤◌, length, vec_capacity, IsTrue, IfOk};
ghost use Rattle.std.specs.Option.{option_copied};
ghost use Rattle.cache_model.specs.Journal.{reserved};
ghost use Rattle.book_tables.specs.Closing.{IsUnsettled, got_of};
ghost use Rattle.book_tables.specs.Shelving.{IsShelf};
ghost use Rattle.book_tables.specs.Standing.{StandsFor};

use super::*;
use cache_terms::{Event, Got, Key, Limits, Marks, Offer, Outcome, Tags, Target, Verdict};
use flow_base::{Memory, Text};
use std::alloc::Global;
use std::test::Fail;

const LIMITS: Limits = Limits {
    events: 64,
    bytes: 16,
};

fn key_of(alloc: Global, sub: &str) -> Result<Key, Memory> {
    Ok(Key {
        sub: Text::of(alloc, sub)?,
        type_name: Text::of(alloc, "Product")?,
        rep: Text::of(alloc, "1")?,
        sel: Text::of(alloc, "s")?,
    })
}

fn copy_id(id: Option<&Text>) -> Result<Option<Text>, Memory>
    ensures { IfOk result (λ copy. copy ≡ option_copied id.entry) }
{
    match id {
        Some(id) => Ok(Some(id.copy()?)),
        None => Ok(None),
    }
}

/// Whether there is room for a Lookup, its Start and the Settle.
fn has_room(events: &[Event], limits: Limits, tables: &Tables) -> bool
    requires { StandsFor tables.now events.now }
    ensures { IsTrue result → length events.now + reserved events.now + 3 ≤ limits.events }
{
    let used = (events.len() as u64).saturating_add(tables.reserved());
    used.saturating_add(3) <= limits.events
}

/// The position that is chosen, or None and a ticket.
fn ask(
    events: &mut Vec<Event>,
    limits: Limits,
    tables: &mut Tables,
    id: Option<&Text>,
    key: &Key,
) -> Result<Option<usize>, Memory>
    requires { IsShelf limits events.old.items (vec_capacity events.old) tables.old }
    ensures { IsShelf limits events.new.items (vec_capacity events.new) tables.new }
{
    if let Some(at) = tables.chosen(events, key, id, 0) {
        return Ok(Some(at));
    }
    if !has_room(events, limits, tables) {
        return Ok(None);
    }
    let looked = Event::Lookup {
        who: 0,
        key: key.copy()?,
        id: copy_id(id)?,
        now: 0,
        hit: None,
    };
    let started = Event::Start {
        who: 0,
        ticket: tables.starts(),
        key: key.copy()?,
        id: copy_id(id)?,
        now: 0,
    };
    events.push(looked).unwrap();
    tables.note_start(events);
    events.push(started).unwrap();
    Ok(None)
}

/// Whether a ticket is open.
fn is_open(events: &[Event], tables: &Tables, ticket: u64) -> bool
    requires { StandsFor tables.now events.now }
    ensures { IsTrue result → IsUnsettled events.now ticket }
{
    let at = ticket as usize;
    at < tables.settled.len() && !tables.settled[at]
}

/// A piece that may be kept for a minute.
fn offer_of(alloc: Global, value: &str, tag: &str, private: bool) -> Result<Offer, Memory>
    ensures { IfOk result (λ o. (o.verdict.lifetime ≡ 60) × (o.verdict.age ≡ 0)) }
{
    let mut texts = Vec::new(alloc);
    texts.push(Text::of(alloc, tag)?)?;
    Ok(Offer {
        value: Text::of(alloc, value)?,
        tags: Tags::of(alloc, texts)?,
        verdict: Verdict {
            lifetime: 60,
            age: 0,
            private,
            no_store: false,
        },
        marks: Marks {
            status: 200,
            errors: false,
            absent: false,
            mutation: false,
            uncached: false,
        },
    })
}

fn got_from(offer: Offer, outcome: Outcome) -> Got
    ensures { result ≡ got_of offer outcome }
{
    let size = offer.size();
    let Offer {
        value,
        tags,
        verdict,
        marks,
    } = offer;
    let value = match outcome {
        Outcome::Stored => Some(value),
        _ => None,
    };
    Got {
        value,
        size,
        tags,
        verdict,
        marks,
    }
}

/// Settles a ticket, where it is open.
fn fill(
    events: &mut Vec<Event>,
    limits: Limits,
    tables: &mut Tables,
    ticket: u64,
    offer: Offer,
) -> Option<Outcome>
    requires shelf { IsShelf limits events.old.items (vec_capacity events.old) tables.old }
    requires lifetime { offer.verdict.lifetime ≤ 2147483648 }
    requires age { offer.verdict.age ≤ 2147483648 }
    ensures { IsShelf limits events.new.items (vec_capacity events.new) tables.new }
{
    if !is_open(events, tables, ticket) {
        return None;
    }
    let who = tables.start(events, ticket).unwrap().who;
    let outcome = tables.settle(events, limits, ticket, Some(&offer));
    let got = Some(got_from(offer, outcome));
    events
        .push(Event::Settle {
            who,
            ticket,
            got,
            outcome,
        })
        .unwrap();
    Some(outcome)
}

/// Invalidates a target, where there is room.
fn void(
    events: &mut Vec<Event>,
    limits: Limits,
    tables: &mut Tables,
    target: &Target,
) -> Result<Option<u64>, Memory>
    requires { IsShelf limits events.old.items (vec_capacity events.old) tables.old }
    ensures { IsShelf limits events.new.items (vec_capacity events.new) tables.new }
{
    if !has_room(events, limits, tables) {
        return Ok(None);
    }
    let stamp = target.copy()?;
    let target = target.copy()?;
    let count = tables.void(events, stamp);
    events
        .push(Event::Invalidate {
            who: 0,
            target,
            count,
        })
        .unwrap();
    Ok(Some(count))
}

fn open(alloc: Global, limits: Limits) -> Result<(Vec<Event>, Tables), Memory>
    requires { limits.events ≤ 65536 }
    ensures { IfOk result (λ s. IsShelf limits s.0.items (vec_capacity s.0) s.1) }
{
    let events = Vec::with_capacity(alloc, limits.events as usize)?;
    let tables = Tables::open(alloc, limits.events)?;
    Ok((events, tables))
}

fn tag_of(alloc: Global, sub: &str, tag: &str) -> Result<Target, Memory> {
    Ok(Target::Tag(Text::of(alloc, sub)?, Text::of(alloc, tag)?))
}

#[test]
fn the_latest_piece_is_chosen_until_it_is_covered(rt: HostRuntime) -> Result<(), Fail> {
    let alloc = rt.alloc();
    let (mut events, mut tables) = open(alloc, LIMITS)?;
    let key = key_of(alloc, "products")?;
    let hot = tag_of(alloc, "products", "hot")?;
    let first = ask(&mut events, LIMITS, &mut tables, None, &key)?;
    assert_eq!(rt; first, None);
    let second = ask(&mut events, LIMITS, &mut tables, None, &key)?;
    assert_eq!(rt; second, None);
    let offer = offer_of(alloc, "abc", "hot", false)?;
    let filled = fill(&mut events, LIMITS, &mut tables, 0, offer);
    assert_eq!(rt; filled, Some(Outcome::Stored));
    let hit = ask(&mut events, LIMITS, &mut tables, None, &key)?;
    assert_eq!(rt; hit, Some(4));
    let offer = offer_of(alloc, "abd", "hot", false)?;
    let filled = fill(&mut events, LIMITS, &mut tables, 1, offer);
    assert_eq!(rt; filled, Some(Outcome::Stored));
    let hit = ask(&mut events, LIMITS, &mut tables, None, &key)?;
    assert_eq!(rt; hit, Some(5));
    assert_eq!(rt; tables.bytes(), 12);
    let count = void(&mut events, LIMITS, &mut tables, &hot)?;
    assert_eq!(rt; count, Some(1));
    let miss = ask(&mut events, LIMITS, &mut tables, None, &key)?;
    assert_eq!(rt; miss, None);
    assert_eq!(rt; tables.starts(), 3);
    Ok(())
}

#[test]
fn a_tag_learnt_late_is_covered(rt: HostRuntime) -> Result<(), Fail> {
    let alloc = rt.alloc();
    let (mut events, mut tables) = open(alloc, LIMITS)?;
    let key = key_of(alloc, "products")?;
    let hot = tag_of(alloc, "products", "hot")?;
    let miss = ask(&mut events, LIMITS, &mut tables, None, &key)?;
    assert_eq!(rt; miss, None);
    let count = void(&mut events, LIMITS, &mut tables, &hot)?;
    assert_eq!(rt; count, Some(0));
    assert_eq!(rt; tables.stamps().count(), 1);
    let offer = offer_of(alloc, "abc", "hot", false)?;
    let filled = fill(&mut events, LIMITS, &mut tables, 0, offer);
    assert_eq!(rt; filled, Some(Outcome::Void(2)));
    assert_eq!(rt; tables.stamps().count(), 0);
    assert_eq!(rt; tables.stamps().probes(), 3);
    assert_eq!(rt; tables.reserved(), 0);
    Ok(())
}

#[test]
fn a_private_piece_is_its_owners(rt: HostRuntime) -> Result<(), Fail> {
    let alloc = rt.alloc();
    let (mut events, mut tables) = open(alloc, LIMITS)?;
    let key = key_of(alloc, "products")?;
    let ada = Text::of(alloc, "ada")?;
    let bob = Text::of(alloc, "bob")?;
    let miss = ask(&mut events, LIMITS, &mut tables, Some(&ada), &key)?;
    assert_eq!(rt; miss, None);
    let offer = offer_of(alloc, "abc", "hot", true)?;
    let filled = fill(&mut events, LIMITS, &mut tables, 0, offer);
    assert_eq!(rt; filled, Some(Outcome::Stored));
    let miss = ask(&mut events, LIMITS, &mut tables, Some(&bob), &key)?;
    assert_eq!(rt; miss, None);
    let offer = offer_of(alloc, "abd", "new", false)?;
    let filled = fill(&mut events, LIMITS, &mut tables, 1, offer);
    assert_eq!(rt; filled, Some(Outcome::Stored));
    let hit = ask(&mut events, LIMITS, &mut tables, Some(&bob), &key)?;
    assert_eq!(rt; hit, Some(5));
    let hit = ask(&mut events, LIMITS, &mut tables, Some(&ada), &key)?;
    assert_eq!(rt; hit, Some(2));
    Ok(())
}

#[test]
fn bytes_that_do_not_fit_are_not_stored(rt: HostRuntime) -> Result<(), Fail> {
    let alloc = rt.alloc();
    let (mut events, mut tables) = open(alloc, LIMITS)?;
    let key = key_of(alloc, "products")?;
    let miss = ask(&mut events, LIMITS, &mut tables, None, &key)?;
    assert_eq!(rt; miss, None);
    let offer = offer_of(alloc, "0123456789abcd", "hot", false)?;
    let filled = fill(&mut events, LIMITS, &mut tables, 0, offer);
    let full = Outcome::NoRoom {
        bytes: 0,
        adds: 17,
        limit: 16,
    };
    assert_eq!(rt; filled, Some(full));
    Ok(())
}
