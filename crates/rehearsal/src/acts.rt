ghost use Rattle.std.specs.Prelude.{◌≡◌, [], ◌∷◌, OnOk, IfOk};
ghost use Rattle.std.specs.Option.{option_copied};
ghost use Rattle.cache_book.specs.declared.found.Found.{Found};
ghost use Rattle.cache_book.specs.Owed.{IsOwedAnswer, KeepsOthers};
ghost use Rattle.cache_book.specs.declared.answers.Settled.{Settled};
ghost use Rattle.cache_book.specs.declared.permit.Report.TheVariants.{Failed};
ghost use Rattle.cache_book.specs.Calls.{Step, Settle, Closed};
ghost use Rattle.cache_book.specs.Settling.{MaySettle};
ghost use Rattle.rehearsal.specs.Scene.{handed, with_permit};
ghost use Rattle.rehearsal.specs.Replied.{found_reply};
ghost use Rattle.rehearsal.specs.InHand.{IsReady, IsNew, IsTakeable, LooksOnce};

use crate::hand::Hand;
use cache_book::{Book, Fill, Found, Pass, Permit, Report};
use cache_terms::{Key, Mark};
use flow_base::{Memory, Text};
use script_lines::Reply;
use std::alloc::Global;

/// Asks for one piece, and replies with the answer.
pub fn ask(
    alloc: Global,
    book: &mut Book,
    hand: &mut Hand,
    pass: Pass,
    id: Option<&Text>,
    now: u64,
    key: Key,
) -> Result<Reply, Memory>
    requires { IsReady book.old hand.old }
    ensures looks { IfOk result (λ reply.
        LooksOnce pass (option_copied id.entry) now key book.old hand.old reply book.new hand.new) }
    ensures ready { IsReady book.new hand.new }
{
    let asks = one(alloc, key)?;
    let answers = book.look(&pass, id, asks, now)?;
    keep(book, hand, only(answers))
}

pub fn one(alloc: Global, key: Key) -> Result<Vec<Key>, Memory>
    ensures { IfOk result (λ asks. asks.items ≡ key ∷ []) }
{
    let mut asks = Vec::new(alloc);
    asks.push(key)?;
    Ok(asks)
}

pub fn only(answers: Vec<Found>) -> Found
    requires { (a : Found) × (answers.items ≡ a ∷ []) }
    ensures { answers.items ≡ result ∷ [] }
{
    let mut answers = answers;
    let Some(found) = answers.pop() else {
        unreachable!()
    };
    answers.destroy_empty();
    found
}

/// Takes the permit of an answer, and replies with the answer.
fn keep(book: &mut Book, hand: &mut Hand, found: Found) -> Result<Reply, Memory>
    requires owed { IsOwedAnswer book.old found }
    requires ready { IsReady book.old hand.old }
    requires takeable { IsTakeable book.old hand.old found }
    ensures book { OnOk result (book.new ≡ book.old) }
    ensures hand { OnOk result (hand.new ≡ handed hand.old found) }
    ensures reply { IfOk result (λ reply. reply ≡ found_reply found) }
    ensures ready { IsReady book.new hand.new }
{
    match found {
        Found::Hit {
            lookup,
            stored,
            value,
            left_ms: _,
            private: _,
        } => Ok(Reply::Hit {
            lookup,
            stored,
            value,
        }),
        Found::Miss { lookup, permit } => {
            let epoch = permit.epoch();
            let mark = *permit.mark();
            hold(book, hand, permit)?;
            Ok(Reply::Miss {
                lookup,
                epoch,
                mark,
            })
        }
        Found::Bypass { permit } => {
            let mark = *permit.mark();
            hold(book, hand, permit)?;
            Ok(Reply::Bypass { mark })
        }
    }
}

/// Takes a permit with a ticket in hand, and spends one without.
fn hold(book: &mut Book, hand: &mut Hand, permit: Permit) -> Result<(), Memory>
    requires may { MaySettle book.old permit }
    requires ready { IsReady book.old hand.old }
    requires free { IsNew book.old hand.old permit permit.mark }
    ensures book { OnOk result (book.new ≡ book.old) }
    ensures hand { OnOk result (hand.new ≡ with_permit hand.old permit permit.mark) }
    ensures ready { IsReady book.new hand.new }
{
    match *permit.mark() {
        Mark::Ticket(ticket) => match hand.put(ticket, permit) {
            Ok(()) => Ok(()),
            Err(permit) => {
                spend(book, permit);
                Err(Memory)
            }
        },
        _ => {
            spend(book, permit);
            Ok(())
        }
    }
}

/// Settles a permit as Failed.
fn spend(book: &mut Book, permit: Permit)
    requires { MaySettle book.old permit }
    ensures keeps { KeepsOthers book.old permit book.new }
    ensures step { (settled : Settled)
        × Step book.old (Settle permit Failed) (Closed settled) book.new }
{
    let _settled = book.settle(Fill {
        permit,
        report: Report::Failed,
    });
}
