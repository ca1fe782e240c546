ghost use Rattle.std.specs.Prelude.{IfSome};
ghost use Rattle.std.specs.Option.{option_copied};
ghost use Rattle.cache_model.specs.Journal.{IsChoice};
ghost use Rattle.cache_model.specs.Soundness.{IsSound};
ghost use Rattle.plain_book.specs.Scan.{IsGoodAt};

use crate::scan::served;
use cache_terms::{Event, Key};
use flow_base::Text;

/// The position that is chosen for a key and an id: the caller's own piece, or else the public one. Takes time in the
/// cube of the events.
pub fn chosen(events: &[Event], key: &Key, id: Option<&Text>, now: u64) -> Option<usize>
    requires { IsSound events.now }
    ensures choice { IsChoice events.now key.now (option_copied id.entry) now result }
    ensures kept { IfSome result (IsGoodAt events.now now) }
{
    match id {
        None => served(events, key, None, now),
        Some(_) => match served(events, key, id, now) {
            Some(at) => Some(at),
            None => served(events, key, None, now),
        },
    }
}
