//! The steps of a lock, on a table and a seat.
ghost use Rattle.std.specs.Prelude.{◌≡◌, ℕ, ◌+◌, ◌*◌, ◌<◌, [], ◌∷◌, length, Some, None};
ghost use Rattle.atomic_table.specs.Seated.{TableId};
ghost use Rattle.turn_lock.specs.declared.seats.Stage.TheVariants.{Outside, Waiting, Inside};
ghost use Rattle.turn_lock.specs.declared.seats.Part.{Part};
ghost use Rattle.turn_lock.specs.Turns.{IsAt, draws_of_one, in_turn_with, turn_over, LearnsState};

use crate::plays::{Advance, Draw, Lock, Place, Watch};
use crate::storied::Storied;
use std::sync::Wait;

// How often a member looks for its turn before it sleeps, each time anew: who was woken is often one of the next.
const LOOKS: u32 = 64;

/// Draws a ticket.
pub(crate) fn draw<S: Storied>(lock: &Lock<S>, place: &mut Place<S>) -> u64
    requires table { IsAt lock.now.shared.table_id place.old.table_id }
    requires outside { place.old.me.0.stage ≡ Outside }
    requires few { place.old.me.0.draws < length place.old.me.0.parts * draws_of_one }
    ensures table { place.new.table_id ≡ place.old.table_id }
    ensures view { place.new.me ≡ (
      record place.old.me.0
          { draws = place.old.me.0.draws + 1; stage = Waiting result },
      place.old.me.1,
    ) }
{
    lock.shared.fetch_add::<Draw>(place, 0, 1)
}

/// Waits for a ticket's turn, and takes the state out of its slot.
pub(crate) fn come_in<S: Storied, R: Wait>(
    rt: &R,
    lock: &Lock<S>,
    place: &mut Place<S>,
    ticket: u64,
) -> S
    requires table { IsAt lock.now.shared.table_id place.old.table_id }
    requires waiting { (place.old.me.0.stage ≡ Waiting ticket) × (place.old.me.1 ≡ []) }
    ensures table { place.new.table_id ≡ place.old.table_id }
    ensures view { place.new.me ≡ (in_turn_with place.old.me.0 ticket result, (0, None) ∷ []) }
    ensures found { LearnsState S.follows S.without ticket result place.old.me.0.parts }
{
    let mut looks = 0;
    for _ in rt.forever() {
        let serving = lock.shared.load::<Watch>(place, 1);
        if serving == ticket {
            return lock.shared.exchange(place, 0, None).unwrap();
        }
        if looks < LOOKS {
            looks += 1;
        } else {
            lock.shared.park(rt, 1, (serving % (1 << 32)) as u32);
            looks = 0;
        }
    }
    unreachable!()
}

/// Gives the state back, and lets the next ticket in.
pub(crate) fn go_out<S: Storied>(lock: &Lock<S>, place: &mut Place<S>, state: S)
    requires table { IsAt lock.now.shared.table_id place.old.table_id }
    requires turn { (p : Part S) × (t : ℕ) × (x : S) × (place.old.me.0.parts ≡ p ∷ [])
        × (place.old.me.0.stage ≡ Inside t x) × (place.old.me.1 ≡ (0, None) ∷ [])
        × S.by x state p.number }
    ensures table { place.new.table_id ≡ place.old.table_id }
    ensures view { place.new.me ≡ (turn_over state place.old.me.0, []) }
{
    match lock.shared.exchange(place, 0, Some(state)) {
        None => {}
        Some(_) => unreachable!(),
    }
    let served = lock.shared.fetch_add::<Advance>(place, 1, 1);
    wake_others(lock, served);
}

/// Wakes who waits for a turn, after the turn with this number has ended.
fn wake_others<S: Storied>(lock: &Lock<S>, served: u64)
    requires { (place : TableId) × IsAt lock.now.shared.table_id place }
{
    // Who drew a ticket before that end is counted, and who draws one later finds the new number.
    if lock.shared.peek(0) > served.saturating_add(1) {
        lock.shared.wake_all(1);
    }
}
