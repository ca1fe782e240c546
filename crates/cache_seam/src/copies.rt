ghost use Rattle.std.specs.Prelude.{◌≡◌, IfOk};
ghost use Rattle.std.specs.Option.{option_copied};

use cache_terms::{Event, Got};
use flow_base::{Memory, Text};
use std::alloc::Global;

fn copy_text(text: Option<&Text>) -> Result<Option<Text>, Memory>
    ensures { IfOk result (λ copy. copy ≡ option_copied text.entry) }
{
    match text {
        Some(text) => Ok(Some(text.copy()?)),
        None => Ok(None),
    }
}

fn copy_got(got: &Got) -> Result<Got, Memory>
    ensures { IfOk result (λ copy. copy ≡ got.now) }
{
    Ok(Got {
        value: copy_text(got.value.as_ref())?,
        size: got.size,
        tags: got.tags.copy()?,
        verdict: got.verdict,
        marks: got.marks,
    })
}

fn copy_fetched(got: Option<&Got>) -> Result<Option<Got>, Memory>
    ensures { IfOk result (λ copy. copy ≡ option_copied got.entry) }
{
    match got {
        Some(got) => Ok(Some(copy_got(got)?)),
        None => Ok(None),
    }
}

fn copy_event(event: &Event) -> Result<Event, Memory>
    ensures { IfOk result (λ copy. copy ≡ event.now) }
{
    match event {
        Event::Lookup {
            who,
            key,
            id,
            now,
            hit,
        } => Ok(Event::Lookup {
            who: *who,
            key: key.copy()?,
            id: copy_text(id.as_ref())?,
            now: *now,
            hit: *hit,
        }),
        Event::Start {
            who,
            ticket,
            key,
            id,
            now,
        } => Ok(Event::Start {
            who: *who,
            ticket: *ticket,
            key: key.copy()?,
            id: copy_text(id.as_ref())?,
            now: *now,
        }),
        Event::Settle {
            who,
            ticket,
            got,
            outcome,
        } => Ok(Event::Settle {
            who: *who,
            ticket: *ticket,
            got: copy_fetched(got.as_ref())?,
            outcome: *outcome,
        }),
        Event::Invalidate { who, target, count } => Ok(Event::Invalidate {
            who: *who,
            target: target.copy()?,
            count: *count,
        }),
    }
}

/// A copy of a journal. Fails only for want of memory.
pub(crate) fn copy_events(alloc: Global, events: &[Event]) -> Result<Vec<Event>, Memory>
    ensures { IfOk result (λ copies. copies.items ≡ events.now) }
{
    let mut copies = Vec::with_capacity(alloc, events.len())?;
    for event in events {
        copies.push(copy_event(event)?)?;
    }
    Ok(copies)
}
