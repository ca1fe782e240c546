use cache_terms::{Event, Target};
use plain_book::is_settled;

/// Where the oldest open Start stands.
fn oldest_open(events: &[Event]) -> Option<usize> {
    for (at, event) in events.iter().enumerate() {
        if let Event::Start { ticket, .. } = event {
            if !is_settled(events, *ticket) {
                return Some(at);
            }
        }
    }
    None
}

/// Whether the event invalidates the target.
fn names(event: &Event, target: &Target) -> bool {
    match event {
        Event::Invalidate { target: named, .. } => *named == *target,
        _ => false,
    }
}

/// Whether the first event is an invalidation, and no other one names its target.
fn is_last_of_target(events: &[Event]) -> bool {
    match events.split_first() {
        Some((Event::Invalidate { target, .. }, later)) => {
            !later.iter().any(|event| names(event, target))
        }
        _ => false,
    }
}

/// The number of targets that were invalidated after the oldest open Start.
pub fn plain_stamps(events: &[Event]) -> u64 {
    let Some(oldest) = oldest_open(events) else {
        return 0;
    };
    let mut count = 0u64;
    for at in oldest..events.len() {
        if is_last_of_target(&events[at..]) {
            count = count.saturating_add(1);
        }
    }
    count
}
