ghost use Rattle.std.specs.Prelude.{OnOk, OnErr};
ghost use Rattle.std.specs.Option.{option_copied};
ghost use Rattle.cache_model.specs.Journal.{IsHeld};
ghost use Rattle.book_index.specs.Positions.{PutsKey, HasSame};
ghost use Rattle.book_index.specs.Under.{HasSameUnder};
ghost use Rattle.book_tables.specs.Pieces.{AreStarts, Keyed, Targeted, IsNewPosition, IsPlaced};
ghost use Rattle.book_tables.specs.Pieces.{Supersedes, IsSuperseded};

use crate::KeptRef;
use crate::reading::kept_in;
use book_index::{KeyIndex, TagIndex};
use cache_terms::{Event, Key, Tags};
use flow_base::{Memory, Text};

/// The piece that is held for a key and scope, with its position.
fn superseded<'a>(
    starts: &[u64],
    keys: &KeyIndex,
    events: &'a [Event],
    key: &Key,
    scope: Option<&Text>,
) -> Option<(u64, KeptRef<'a>)>
    requires starts { AreStarts starts.now events.now }
    requires keyed { Keyed keys.now (IsHeld events.now) }
    ensures { IsSuperseded events.now key.now (option_copied scope.entry) result }
{
    let at = keys.get(key, scope)?;
    let kept = kept_in(starts, events, at as usize)?;
    Some((at, kept))
}

/// Puts a piece into both indexes in the place of the superseded one, or into none. Fails only for
/// want of memory.
fn put(
    keys: &mut KeyIndex,
    holders: &mut TagIndex,
    key: &Key,
    scope: Option<&Text>,
    tags: &Tags,
    at: u64,
    superseded: Option<(u64, KeptRef)>,
) -> Result<(), Memory>
    requires { IsNewPosition holders.old at }
    ensures keyed { OnOk result (PutsKey keys.old keys.new key.now (option_copied scope.entry) at) }
    ensures added { OnOk result
        (Supersedes holders.old holders.new key.now tags.now at superseded.entry) }
    ensures same_keys { OnErr result (HasSame keys.old keys.new) }
    ensures same_holders { OnErr result (HasSameUnder holders.old holders.new) }
{
    holders.add(key, tags, at)?;
    let Ok(_) = keys.put(key, scope, at) else {
        holders.remove(key, tags, at);
        return Err(Memory);
    };
    if let Some((before, kept)) = superseded {
        holders.remove(kept.start.key, &kept.got.tags, before);
    }
    Ok(())
}

/// Puts a piece at the end of the events into both indexes in the place of the one that it
/// supersedes, or changes neither. Fails only for want of memory.
pub fn index(
    starts: &[u64],
    keys: &mut KeyIndex,
    holders: &mut TagIndex,
    events: &[Event],
    key: &Key,
    scope: Option<&Text>,
    tags: &Tags,
) -> Result<(), Memory>
    requires starts { AreStarts starts.now events.now }
    requires keyed { Keyed keys.old (IsHeld events.now) }
    requires targeted { Targeted holders.old (IsHeld events.now) }
    ensures keyed { OnOk result (IsPlaced events.now key.now (option_copied scope.entry) tags.now
        (Keyed keys.new)) }
    ensures targeted { OnOk result (IsPlaced events.now key.now (option_copied scope.entry) tags.now
        (Targeted holders.new)) }
    ensures same_keys { OnErr result (Keyed keys.new (IsHeld events.now)) }
    ensures same_holders { OnErr result (Targeted holders.new (IsHeld events.now)) }
{
    let superseded = superseded(starts, keys, events, key, scope);
    put(
        keys,
        holders,
        key,
        scope,
        tags,
        events.len() as u64,
        superseded,
    )
}
