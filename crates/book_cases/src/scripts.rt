ghost use Rattle.std.specs.Prelude.{◌<◌};
ghost use Rattle.cache_model.specs.State.{IsWithinRanges};

use crate::drawing::{Dice, some_id, some_key, some_report, some_target};
use crate::ends::Ends;
use crate::looking::{Asking, look};
use crate::settling::settle;
use crate::tickets::plain_stamps;
use crate::voiding::void;
use crate::weighing::{plain_epoch, plain_tally};
use cache_book::{Book, Pass, Permit, Tally};
use cache_terms::{Key, Limits};
use flow_base::Text;
use std::alloc::AllocGlobal;
use std::process::Abort;
use std::test::*;

/// How many permits are held at most.
const HAND: usize = 12;

/// A script under way: the book and how much of it should be used, what its callers hold, and the moment.
struct Scene {
    book: Book,
    tally: Tally,
    passes: [Pass; 2],
    hand: Vec<Permit>,
    ends: Ends,
    now: u64,
}

fn some_keys<R: Abort + AllocGlobal>(rt: &R, dice: &mut Dice, wide: &Text) -> Vec<Key> {
    let mut keys = Vec::new(rt.alloc());
    for _ in 0..1 + dice.roll(3) {
        if keys.push(some_key(rt, dice, wide)).is_err() {
            panic!(rt; "memory");
        }
    }
    keys
}

/// The moment of a look: one in sixteen is earlier, as of a clock that goes back.
fn some_moment(dice: &mut Dice, now: u64) -> u64 {
    if dice.is_one_in(16) {
        now.saturating_sub(dice.roll(2000))
    } else {
        now
    }
}

impl Scene {
    /// Begins a request, and answers its epoch.
    fn begin<R: Abort + AllocGlobal>(&mut self, rt: &R, limits: Limits, who: usize) -> u64
        requires { who < 2 }
    {
        let epoch = plain_epoch(limits, self.tally);
        let pass = self.book.begin(who as u32);
        assert!(rt; pass.who() as usize == who && pass.epoch() == epoch);
        self.passes[who] = pass;
        epoch
    }

    fn look<R: Abort + AllocGlobal>(
        &mut self,
        rt: &R,
        limits: Limits,
        dice: &mut Dice,
        who: usize,
        wide: &Text,
    )
        requires { who < 2 }
    {
        let keys = some_keys(rt, dice, wide);
        let id = some_id(rt, dice);
        let asking = Asking {
            pass: self.passes[who],
            id: id.as_ref(),
            now: some_moment(dice, self.now),
        };
        look(
            rt,
            &mut self.book,
            limits,
            self.tally,
            &mut self.ends,
            &mut self.hand,
            &asking,
            &keys,
        );
    }

    /// Settles one of the permits in hand, if there is any.
    fn settle<R: Abort + AllocGlobal>(&mut self, rt: &R, limits: Limits, dice: &mut Dice)
        requires { IsWithinRanges limits }
    {
        if self.hand.is_empty() {
            return;
        }
        let at = dice.roll(self.hand.len() as u64);
        let report = some_report(rt, dice);
        let permit = self.hand.remove(at as usize);
        settle(
            rt,
            &mut self.book,
            limits,
            self.tally,
            &mut self.ends,
            permit,
            report,
        );
    }

    /// A request begins, a caller asks for pieces, a fetch comes back, or something is invalidated. Answers the epoch
    /// that is left.
    fn call<R: Abort + AllocGlobal>(
        &mut self,
        rt: &R,
        limits: Limits,
        dice: &mut Dice,
        calm: u64,
        wide: &Text,
    ) -> u64
        requires within { IsWithinRanges limits }
        requires calm { 0 < calm }
    {
        let who = dice.roll(2) as usize;
        if dice.is_one_in(calm) {
            return self.begin(rt, limits, who);
        }
        let draw = dice.roll(12);
        if draw == 0 {
            let target = some_target(rt, dice);
            return void(rt, &mut self.book, limits, self.tally, &target);
        }
        // Few look on under a pass of an epoch that is over.
        if draw < 4 && self.passes[who].epoch() != self.tally.epoch {
            return self.begin(rt, limits, who);
        }
        if draw < 5 && self.hand.len() + 3 <= HAND {
            self.look(rt, limits, dice, who, wide);
        } else {
            self.settle(rt, limits, dice);
        }
        self.tally.epoch
    }

    /// One call, after which the book tells of itself what the plain program does.
    fn step<R: Abort + AllocGlobal>(
        &mut self,
        rt: &R,
        limits: Limits,
        dice: &mut Dice,
        calm: u64,
        wide: &Text,
    )
        requires within { IsWithinRanges limits }
        requires calm { 0 < calm }
    {
        if dice.is_one_in(3) {
            self.now = self.now.saturating_add(dice.roll(400));
        }
        let epoch = self.call(rt, limits, dice, calm, wide);
        self.tally = plain_tally(&self.book, epoch);
        assert!(rt; self.book.tally() == self.tally);
        assert!(rt; self.book.stamps().count() == plain_stamps(self.book.journal()));
    }
}

/// Runs a script of so many steps, event by event beside the plain program.
fn run<R: Abort + AllocGlobal>(rt: &R, seed: u64, steps: u64, limits: Limits, first: u64, calm: u64)
    requires within { IsWithinRanges limits }
    requires calm { 0 < calm }
{
    let mut dice = Dice::of(seed);
    let wide = wide(rt);
    let hand = Vec::with_capacity(rt.alloc(), HAND).expect(rt, "memory");
    let mut book = Book::open(rt.alloc(), limits, first).expect(rt, "memory");
    let mut scene = Scene {
        passes: [book.begin(0), book.begin(1)],
        tally: plain_tally(&book, first),
        book,
        hand,
        ends: Ends::open(rt),
        now: 0,
    };
    for _ in 0..steps {
        scene.step(rt, limits, &mut dice, calm, &wide);
    }
    let Scene {
        book: _book,
        tally: _,
        passes: _,
        hand,
        mut ends,
        now: _,
    } = scene;
    ends.end_all(hand);
}

fn wide<R: Abort + AllocGlobal>(rt: &R) -> Text {
    let text = "0123456789abcdef"
        .repeat(rt.alloc(), 1024)
        .expect(rt, "memory");
    Text::of(rt.alloc(), text.as_str()).expect(rt, "memory")
}

/// Room for 8 to 152 events and for 16 to 496 bytes, and requests that begin often or seldom: each of the 200 seeds has a
/// mixture of its own. One script in four comes to the last epoch.
fn run_seed<R: Abort + AllocGlobal>(rt: &R, seed: u64, steps: u64) {
    let limits = Limits {
        events: 8 + 16 * (seed % 10),
        bytes: 16 + 160 * (seed / 10 % 4),
    };
    let calm = 4 + 40 * (seed / 40 % 5);
    let first = match seed / 3 % 4 {
        0 => u64::MAX - 50,
        other => other,
    };
    run(rt, seed, steps, limits, first, calm);
}

/// Every fourth script.
fn run_quarter<R: Abort + AllocGlobal>(rt: &R, quarter: u64)
    requires { quarter < 4 }
{
    for round in 0..50 {
        run_seed(rt, 4 * round + quarter, 2000);
    }
}

#[test]
fn both_books_on_the_first_quarter(rt: HostRuntime) {
    run_quarter(&rt, 0);
}

#[test]
fn both_books_on_the_second_quarter(rt: HostRuntime) {
    run_quarter(&rt, 1);
}

#[test]
fn both_books_on_the_third_quarter(rt: HostRuntime) {
    run_quarter(&rt, 2);
}

#[test]
fn both_books_on_the_last_quarter(rt: HostRuntime) {
    run_quarter(&rt, 3);
}
