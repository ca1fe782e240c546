ghost use Rattle.std.specs.Prelude.{ℕ, ◌≤◌, ◌<◌, length, All};
ghost use Rattle.turn_lock.specs.Turns.{served};
ghost use Rattle.turn_lock.specs.Members.{InOrder};
ghost use Rattle.cache_seam.specs.Objects.{KeepsObjects};
ghost use Rattle.shared_book.specs.Sharing.{BookFollows};
ghost use Rattle.shared_book.specs.Handles.{AreOfOneBook, Continues, HasOwnEvents};
ghost use Rattle.shared_book.specs.Handles.{IsLeftBy, all_turns};

use crate::handle::Handle;
use crate::storied::StoriedBook;
use cache_book::Book;
use std::sync::Wait;
use turn_lock::Closing;

/// Ends the handles, and gives the book as the last turn left it, or as it was opened. It may wait.
pub fn close<R: Wait + Clone + Drop>(mut handles: Vec<Handle<R>>) -> Book
    requires some { 0 < length handles.items }
    requires one_home { AreOfOneBook handles.items }
    ensures lawful { KeepsObjects result }
    ensures continues { All (Continues result) handles.items }
    ensures own { All (HasOwnEvents result) handles.items }
    ensures last { (k : ℕ) × IsLeftBy k result handles.items }
    ensures once { (n : ℕ) → served n (all_turns handles.items) ≤ 1 }
    ensures order { InOrder BookFollows (all_turns handles.items) }
{
    let Some(last) = handles.pop() else {
        unreachable!()
    };
    let Handle {
        member,
        rt,
        pass: _,
        pinned: _,
        begun: _,
    } = last;
    let mut closing = Closing::of(member);
    while let Some(other) = handles.pop() {
        let Handle {
            member,
            rt: _,
            pass: _,
            pinned: _,
            begun: _,
        } = other;
        closing.join(member);
    }
    let StoriedBook {
        book,
        last: _,
        members: _,
    } = closing.enter(&rt);
    book
}
