ghost use Rattle.std.specs.Prelude.{◌≡◌, ◌≤◌, true, IfOk, OnErr};
ghost use Rattle.std.specs.Option.{option_copied};
ghost use Rattle.cache_book.specs.Settling.{MaySettle, IsInRange};
ghost use Rattle.cache_book.specs.Calls as call;
ghost use Rattle.cache_seam.specs.Objects.{OffersObject};
ghost use Rattle.cache_seam.specs.Seen.{Seen, pass_of};
ghost use Rattle.cache_seam.specs.Turns.{Calls};

use cache_book::{Fill, Found, Notice, Settled, Tally, Voided};
use cache_terms::Key;
use flow_base::{Memory, Text};

/// One user's way to a book. Others may step on the book between its calls, so each call says from which state it
/// steps.
pub trait Cache {
    /// What contracts see of it.
    ghost seen: { Self → Seen };

    /// Begins a request, and answers the epoch to which it pins.
    fn begin(&mut self) -> u64
        ensures { Calls (seen self.old) (call.Begin (seen self.old).number)
            (call.Begun (record { who = (seen self.old).number; epoch = result }))
            (seen self.new) };

    /// Answers each ask, in order. Fails only for want of memory, and then its step changes nothing.
    fn look(&mut self, id: Option<&Text>, asks: Vec<Key>, now: u64) -> Result<Vec<Found>, Memory>
        requires { (seen self.old).begun ≡ true }
        ensures ok { IfOk result
            (λ answers. Calls (seen self.old)
            (call.Look (pass_of (seen self.old)) (option_copied id.entry) asks.items now)
            (call.Looked answers.items) (seen self.new)) }
        ensures err { OnErr result
            (Calls (seen self.old)
            (call.Look (pass_of (seen self.old)) (option_copied id.entry) asks.items now)
            call.OutOfMemory (seen self.new)) };

    /// Spends a permit. Takes memory only for what is to be stored: where none is found, the outcome is Memory.
    fn settle(&mut self, fill: Fill) -> Settled
        requires own { fill.permit.who ≡ (seen self.old).number }
        requires begun { fill.permit.epoch ≤ (seen self.old).left.epoch }
        requires may { MaySettle (seen self.old).left fill.permit }
        requires range { IsInRange fill.report }
        requires object { OffersObject fill.report }
        ensures { Calls (seen self.old) (call.Settle fill.permit fill.report) (call.Closed result)
            (seen self.new) };

    /// Appends an invalidation, and pins to the epoch that it answers. Takes no memory.
    fn invalidate(&mut self, notice: Notice) -> Voided
        ensures { Calls (seen self.old) (call.Invalidate (seen self.old).number notice)
            (call.Voided result) (seen self.new) };

    /// How much of the journal is used. Takes no memory.
    fn tally(&mut self) -> Tally
        ensures { Calls (seen self.old) call.Tally (call.Tallied result) (seen self.new) };
}
