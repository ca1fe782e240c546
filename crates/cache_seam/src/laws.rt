ghost use Rattle.std.specs.Prelude.{◌≡◌, ℕ, true, List, ◌++◌, Option, Some};
ghost use Rattle.std.specs.Option.{option_map};
ghost use Rattle.cache_terms.specs.declared.events.Event.{Event};
ghost use Rattle.cache_terms.specs.declared.keys.Key.{Key};
ghost use Rattle.cache_model.specs.Journal.{Kept, kept_at};
ghost use Rattle.cache_book.specs.declared.found.Found.{Found};
ghost use Rattle.cache_book.specs.Permits.{Pinned};
ghost use Rattle.cache_book.specs.Calls.{Run, Look, Looked};
ghost use Rattle.cache_seam.specs.Objects.{IsObjectText};
ghost use Rattle.cache_seam.specs.Seen.{Seen, IsCoherent, pass_of};
ghost use Rattle.cache_seam.specs.Turns.{Turn, TakesTurns, Calls, KeepObjects};
ghost use Rattle.cache_seam.specs.Hand.{FindObjects, IsHand, permits_of};
ghost use Rattle.cache_seam.specs.Chains.{own_events, added_by, seen_in, calls_of, answers_of, visits_of, AreFronts};

/// No call changes the user's number, its home, or whether it is alone.
pub fn users_stay()
    ensures { (old new : Seen) (turns : List Turn) → TakesTurns old turns new
        → (new.number ≡ old.number) × (new.home ≡ old.home) × (new.lone ≡ old.lone) }
{}

/// A trace that is told gains just the turns.
pub fn turns_are_told()
    ensures { (old new : Seen) (turns : List Turn) → TakesTurns old turns new
        → new.trace ≡ option_map (λ visits. visits ++ visits_of turns) old.trace }
{}

/// Where nobody else steps on the book, the turns are a run from the state that was left before.
pub fn lone_turns_are_a_run()
    ensures { (old new : Seen) (turns : List Turn) → old.lone ≡ true → TakesTurns old turns new
        → Run old.left (calls_of turns) (answers_of turns) new.left }
{}

/// In the epoch to which it is pinned the user's events are those that it had seen there before, and then those that
/// its turns appended, each once and in order.
pub fn own_events_are_added()
    ensures { (old new : Seen) (turns : List Turn) → TakesTurns old turns new
        → own_events new.number new.journal ≡ own_events old.number (seen_in new.pinned old)
        ++ added_by new.pinned (visits_of turns) }
{}

/// Within an epoch a later seen journal has the earlier one as a prefix.
pub fn seen_journals_grow()
    ensures { (old new : Seen) (turns : List Turn) → TakesTurns old turns new →
        new.pinned ≡ old.pinned → (more : List Event) × (new.journal ≡ old.journal ++ more) }
{}

/// The journal seen in the end has each journal of its epoch that a turn left as a prefix.
pub fn left_journals_are_fronts()
    ensures { (old new : Seen) (turns : List Turn) → TakesTurns old turns new
        → AreFronts new.pinned turns new.journal }
{}

/// A value that a cache's journal keeps reads as a JSON object.
pub fn shown_values_are_objects()
    ensures { (c : Seen) (at : ℕ) (kept : Kept) (value : List ℕ) → IsCoherent c
        → kept_at c.left.journal at ≡ Some kept → kept.value ≡ Some value → IsObjectText value }
{}

/// So do those in each state that a turn found, and in each that it left.
pub fn turns_keep_objects()
    ensures { (old new : Seen) (turns : List Turn) → TakesTurns old turns new → KeepObjects turns }
{}

/// So do those that a look finds.
pub fn found_values_are_objects()
    ensures { (old new : Seen) (pass : Pinned) (id : Option (List ℕ)) (keys : List Key) (now : ℕ)
        (answers : List Found) → Calls old (Look pass id keys now) (Looked answers) new
        → FindObjects answers }
{}

/// The permits that a look hands out may be settled, one after another.
pub fn looks_hand_out_permits()
    ensures { (old new : Seen) (id : Option (List ℕ)) (keys : List Key) (now : ℕ)
        (answers : List Found) → Calls old (Look (pass_of old) id keys now) (Looked answers) new
        → IsHand new (permits_of answers) }
{}
