ghost use Rattle.std.specs.Prelude.{◌≡◌, ◌≤◌, ℕ, IfOk};
ghost use Rattle.atomic_table.specs.Seated.{TableId};
ghost use Rattle.std.specs.Prelude.{◌+◌, ◌<◌, []};
ghost use Rattle.std.specs.Arc.{arc_value};
ghost use Rattle.turn_lock.specs.Turns.{IsAt, newest};
ghost use Rattle.turn_lock.specs.Members.{newcomers, AreOutside};

use crate::member::Member;
use crate::plays::{Another, Lock, Place};
use crate::storied::Storied;
use atomic_table::Table;
use flow_base::Memory;
use std::alloc::Global;
use std::snapshot::Snapshot;
use std::sync::Arc;

/// A lock over a state, with its members, numbered from 0.
pub fn open<S: Storied + Drop>(
    alloc: Global,
    state: S,
    members: u32,
) -> Result<Vec<Member<S>>, Memory>
    requires { (1 ≤ members) × (members ≤ 64) }
    ensures fresh { IfOk result (λ v. (z : TableId) × (v.items ≡ newcomers z state members)) }
    ensures outside { IfOk result (λ v. (z : TableId) × AreOutside z v.items) }
{
    let about = Snapshot::of(&state);
    let mut slots = Vec::new(alloc);
    slots.push(Some(state))?;
    let made: Result<(Lock<S>, Place<S>), _> = Table::new(alloc, &[0, 0], slots, &about);
    let Ok((table, first)) = made else {
        return Err(Memory);
    };
    let lock = Arc::new(alloc, table)?;
    seat_all(alloc, lock, first, members)
}

// Splits the first seat into those of all members.
fn seat_all<S: Storied + Drop>(
    alloc: Global,
    lock: Arc<Lock<S>, Global>,
    first: Place<S>,
    members: u32,
) -> Result<Vec<Member<S>>, Memory>
    requires members { (1 ≤ members) × (members ≤ 64) }
    requires table { IsAt (arc_value lock).shared.table_id first.table_id }
    requires first { first.me ≡ (newest 0 (arc_value lock).shared.key.value, []) }
    ensures { IfOk result
        (λ v. v.items ≡ newcomers first.table_id (arc_value lock).shared.key.value members) }
{
    let mut all = Vec::new(alloc);
    let mut place = first;
    let mut number = 0;
    while number + 1 < members {
        let next = lock.shared.split_seat::<Another>(&mut place);
        all.push(Member {
            lock: Arc::try_clone(&lock)?,
            place,
            number,
            entries: 0,
        })?;
        place = next;
        number += 1;
    }
    all.push(Member {
        lock,
        place,
        number,
        entries: 0,
    })?;
    Ok(all)
}
