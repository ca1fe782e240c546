ghost use Rattle.std.specs.Prelude.{◌≡◌, ◌⊎◌, [], ◌∷◌, All, drop, length, IfOk};
ghost use Rattle.cache_book.specs.Owed.{AreOwed};
ghost use Rattle.cache_book.specs.Settling.{IsInRange};
ghost use Rattle.cache_book.specs.declared.permit.Report.TheVariants as report;
ghost use Rattle.cache_seam.specs.Meddling.{IsFitting, SettlesMiss, Puts, MayDo, Meddles, IsSetAside, steps_of, first_steps};

use crate::copies::copy_events;
use cache_book::{Book, Fill, Found, Notice, Pass, Report};
use cache_terms::{Event, Key, Offer, Target};
use flow_base::{Memory, Text};
use std::alloc::Global;
use std::collections::VecDeque;

/// A step of a second user on the book, under the number 1: it begins a request, invalidates a target, or looks up a
/// piece at a moment and settles at once with the offer where the piece is not there.
#[derive(Debug, Drop)]
pub enum Foreign {
    Begin,
    Void(Target),
    Put {
        key: Key,
        id: Option<Text>,
        offer: Offer,
        now: u64,
    },
}

fn one(alloc: Global, key: Key) -> Result<Vec<Key>, Memory>
    ensures { IfOk result (λ keys. keys.items ≡ key ∷ []) }
{
    let mut keys = Vec::new(alloc);
    keys.push(key)?;
    Ok(keys)
}

/// Settles what a look for one piece did not find.
fn close(book: &mut Book, answers: Vec<Found>, offer: Offer)
    requires owed { AreOwed book.old answers.items }
    requires one { length answers.items ≡ 1 }
    requires range { IsInRange (report.Got offer) }
    ensures { (answer : _) × (answers.items ≡ answer ∷ [])
        × SettlesMiss answer book.old offer book.new }
{
    let mut answers = answers;
    let answer = answers.pop();
    answers.destroy_empty();
    match answer {
        Some(
            Found::Hit {
                lookup: _,
                stored: _,
                value: _value,
                left_ms: _,
                private: _,
            },
        ) => {}
        Some(Found::Miss { lookup: _, permit }) => {
            book.settle(Fill {
                permit,
                report: Report::Got(offer),
            });
        }
        Some(Found::Bypass { permit }) => {
            book.settle(Fill {
                permit,
                report: Report::Got(offer),
            });
        }
        None => unreachable!(),
    }
}

/// Looks up the piece, and settles at once what was not found. Without memory for the look nothing is done.
fn put(
    alloc: Global,
    book: &mut Book,
    pass: &Pass,
    key: Key,
    id: Option<Text>,
    offer: Offer,
    now: u64,
)
    requires { IsInRange (report.Got offer) }
    ensures { Puts pass.now key id offer now book.old book.new ⊎ (book.new ≡ book.old) }
{
    let Ok(asks) = one(alloc, key) else { return };
    let Ok(answers) = book.look(pass, id.as_ref(), asks, now) else {
        return;
    };
    close(book, answers, offer);
}

/// Does one step. One that finds no memory is left out.
fn act(alloc: Global, book: &mut Book, pass: &mut Pass, foreign: Foreign)
    requires { IsFitting foreign }
    ensures { MayDo foreign pass.old book.old book.new pass.new }
{
    match foreign {
        Foreign::Begin => {
            *pass = book.begin(1);
        }
        Foreign::Void(target) => {
            if let Ok(notice) = Notice::of(&target) {
                book.invalidate(1, notice);
            }
        }
        Foreign::Put {
            key,
            id,
            offer,
            now,
        } => put(alloc, book, pass, key, id, offer, now),
    }
}

/// Does each step in turn.
fn meddle(alloc: Global, book: &mut Book, pass: &mut Pass, steps: Vec<Foreign>)
    requires { All IsFitting steps.items }
    ensures { Meddles steps.items pass.old book.old book.new pass.new }
{
    let mut steps = VecDeque::from(steps);
    'meddling: while let Some(foreign) = steps.pop_front() {
        act(alloc, book, pass, foreign);
    }
}

/// Does the next list of steps, if one is left. A journal of the epoch `pinned` is kept aside before, since a step may
/// turn the epoch; without memory for that each step is left out.
pub(crate) fn meddle_next(
    alloc: Global,
    later: &mut VecDeque<Vec<Foreign>>,
    pinned: u64,
    book: &mut Book,
    pass: &mut Pass,
    past: &mut Vec<Event>,
)
    requires { All (All IsFitting) (steps_of later.old.items) }
    ensures meddles { Meddles (first_steps (steps_of later.old.items)) pass.old book.old book.new
        pass.new }
    ensures later { steps_of later.new.items ≡ drop 1 (steps_of later.old.items) }
    ensures past { IsSetAside book.old book.new pinned past.old.items past.new.items }
{
    let Some(steps) = later.pop_front() else {
        return;
    };
    if book.tally().epoch == pinned {
        let Ok(copies) = copy_events(alloc, book.journal()) else {
            return;
        };
        *past = copies;
    }
    meddle(alloc, book, pass, steps);
}
