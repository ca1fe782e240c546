ghost use Rattle.std.specs.Prelude.{◌≡◌, ◌≤◌, map, IfOk};
ghost use Rattle.atomic_table.specs.Seated.{TableId};
ghost use Rattle.cache_model.specs.State.{IsWithinRanges};
ghost use Rattle.turn_lock.specs.Members.{newcomers};
ghost use Rattle.shared_book.specs.Sharing.{untouched};
ghost use Rattle.shared_book.specs.Handles.{AreOfOneBook, fresh, passes_of};

use crate::handle::Handle;
use crate::storied::StoriedBook;
use cache_book::{Book, Pass};
use cache_terms::Limits;
use flow_base::Memory;
use std::alloc::Global;
use std::sync::Wait;

/// An empty book in epoch 0 with its handles, 1 to 64 of them, numbered from 0 and pinned to that
/// epoch. Fails only for want of memory.
pub fn open<R: Wait + Clone + Drop>(
    alloc: Global,
    rt: &R,
    members: u32,
    limits: Limits,
) -> Result<Vec<Handle<R>>, Memory>
    requires members { (1 ≤ members) × (members ≤ 64) }
    requires limits { IsWithinRanges limits }
    ensures one_home { IfOk result (λ v. AreOfOneBook v.items) }
    ensures fresh { IfOk result (λ v.
        (z : TableId) × (v.items ≡ map fresh (newcomers z (untouched limits members) members))) }
{
    let book = Book::open(alloc, limits, 0)?;
    let passes = first_passes(alloc, &book, members)?;
    let seats = turn_lock::open(
        alloc,
        StoriedBook {
            book,
            last: None,
            members,
        },
        members,
    )?;
    let mut all = Vec::new(alloc);
    for member in seats {
        let pass = passes[member.number() as usize];
        all.push(Handle {
            member,
            rt: rt.clone()?,
            pass,
            pinned: 0,
            begun: true,
        })?;
    }
    Ok(all)
}

// The passes of members who have not begun, by their numbers.
fn first_passes(alloc: Global, book: &Book, members: u32) -> Result<Vec<Pass>, Memory>
    ensures { IfOk result (λ v. v.items ≡ passes_of book.now.epoch members) }
{
    let mut passes = Vec::new(alloc);
    for number in 0..members {
        passes.push(book.pass(number))?;
    }
    Ok(passes)
}
