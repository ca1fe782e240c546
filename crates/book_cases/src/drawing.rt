ghost use Rattle.std.specs.Prelude.{◌<◌, ◌≤◌};
ghost use Rattle.cache_book.specs.Settling.{IsInRange};

use cache_book::Report;
use cache_terms::{Key, Marks, Offer, Tags, Target, Verdict};
use flow_base::Text;
use std::alloc::AllocGlobal;
use std::process::Abort;

// So few words that keys meet again, and that invalidations cover what is held.
const SUBGRAPHS: [&str; 2] = ["a", "b"];

const TYPES: [&str; 2] = ["T", "U"];

const PIECES: [&str; 2] = ["r1", "r2"];

const TAGS: [&str; 3] = ["hot", "x", "y"];

const IDS: [&str; 2] = ["1", "2"];

const VALUES: [&str; 3] = ["", "v", "a longer value"];

/// A linear congruential generator, so that each seed gives one script.
#[derive(Drop)]
pub struct Dice {
    state: u64,
}

impl Dice {
    pub fn of(seed: u64) -> Dice {
        Dice {
            state: seed
                .wrapping_mul(2862933555777941757)
                .wrapping_add(3037000493),
        }
    }

    pub fn roll(&mut self, sides: u64) -> u64
        requires { 0 < sides }
        ensures { result < sides }
    {
        let state = self.state.wrapping_mul(6364136223846793005);
        self.state = state.wrapping_add(1442695040888963407);
        (self.state >> 33) % sides
    }

    /// True once in so many times.
    pub fn is_one_in(&mut self, sides: u64) -> bool
        requires { 0 < sides }
    {
        self.roll(sides) == 0
    }
}

pub fn text<R: Abort + AllocGlobal>(rt: &R, s: &str) -> Text {
    Text::of(rt.alloc(), s).expect(rt, "memory")
}

fn word<R: Abort + AllocGlobal>(rt: &R, dice: &mut Dice, words: &[&str]) -> Text {
    if words.is_empty() {
        return text(rt, "");
    }
    let at = dice.roll(words.len() as u64);
    text(rt, words[at as usize])
}

/// A key, of which one in sixty is too wide to be kept: it has the selection `wide`.
pub fn some_key<R: Abort + AllocGlobal>(rt: &R, dice: &mut Dice, wide: &Text) -> Key {
    let sel = if dice.is_one_in(60) {
        wide.copy().expect(rt, "memory")
    } else {
        text(rt, "s")
    };
    Key {
        sub: word(rt, dice, &SUBGRAPHS),
        type_name: word(rt, dice, &TYPES),
        rep: word(rt, dice, &PIECES),
        sel,
    }
}

pub fn some_id<R: Abort + AllocGlobal>(rt: &R, dice: &mut Dice) -> Option<Text> {
    if dice.is_one_in(2) {
        return None;
    }
    Some(word(rt, dice, &IDS))
}

pub fn some_target<R: Abort + AllocGlobal>(rt: &R, dice: &mut Dice) -> Target {
    let sub = word(rt, dice, &SUBGRAPHS);
    match dice.roll(6) {
        0 => Target::Subgraph(sub),
        1 => Target::OfType(sub, word(rt, dice, &TYPES)),
        _ => Target::Tag(sub, word(rt, dice, &TAGS)),
    }
}

fn some_tags<R: Abort + AllocGlobal>(rt: &R, dice: &mut Dice) -> Tags {
    match dice.roll(40) {
        0 => return Tags::Malformed,
        1 => return Tags::Many(17),
        _ => {}
    }
    let mut texts = Vec::new(rt.alloc());
    for _ in 0..dice.roll(3) {
        if texts.push(word(rt, dice, &TAGS)).is_err() {
            panic!(rt; "memory");
        }
    }
    Tags::of(rt.alloc(), texts).expect(rt, "memory")
}

/// Marks of which one in eight forbids to keep the piece.
fn some_marks(dice: &mut Dice) -> Marks {
    let fault = dice.roll(40);
    Marks {
        status: if fault == 0 { 503 } else { 200 },
        errors: fault == 1,
        absent: fault == 2,
        mutation: fault == 3,
        uncached: fault == 4,
    }
}

fn some_offer<R: Abort + AllocGlobal>(rt: &R, dice: &mut Dice) -> Offer
    ensures lifetime { result.verdict.lifetime ≤ 2147483648 }
    ensures age { result.verdict.age ≤ 2147483648 }
{
    let value = word(rt, dice, &VALUES);
    let tags = some_tags(rt, dice);
    let marks = some_marks(dice);
    let verdict = Verdict {
        lifetime: 1 + dice.roll(12),
        age: dice.roll(3),
        private: dice.is_one_in(3),
        no_store: dice.is_one_in(40),
    };
    Offer {
        value,
        tags,
        verdict,
        marks,
    }
}

/// What comes of a fetch: one in six fails.
pub fn some_report<R: Abort + AllocGlobal>(rt: &R, dice: &mut Dice) -> Report
    ensures { IsInRange result }
{
    if dice.is_one_in(6) {
        return Report::Failed;
    }
    Report::Got(some_offer(rt, dice))
}
