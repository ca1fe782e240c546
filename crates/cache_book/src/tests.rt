ghost use Rattle.std.specs.Prelude.{◌≡◌, ◌↔◌, ◌≤◌, IsTrue, IfOk};
ghost use Rattle.cache_terms.specs.declared.events.Mark.TheVariants.{Ticket};
ghost use Rattle.cache_book.specs.Owed.{IsOwedAnswer, KeepsPermits, KeepsOthers, KeepsEarlier};
ghost use Rattle.cache_book.specs.Settling.{MaySettle, IsInRange};

use super::*;
use crate::ask::discard;
use cache_terms::{Key, Limits, Mark, Marks, Offer, Outcome, Tags, Target, Verdict, Why};
use flow_base::{Memory, Text};
use std::alloc::AllocGlobal;
use std::process::Abort;
use std::test::*;

const WIDE: Limits = Limits {
    events: 64,
    bytes: 4096,
};

fn text<R: Abort + AllocGlobal>(rt: &R, s: &str) -> Text {
    Text::of(rt.alloc(), s).expect(rt, "memory")
}

fn key<R: Abort + AllocGlobal>(rt: &R, sub: &str, type_name: &str, rep: &str) -> Key {
    Key {
        sub: text(rt, sub),
        type_name: text(rt, type_name),
        rep: text(rt, rep),
        sel: text(rt, "s"),
    }
}

fn tags<R: Abort + AllocGlobal>(rt: &R, words: &[&str]) -> Result<Tags, Memory> {
    let mut texts = Vec::new(rt.alloc());
    for word in words {
        texts.push(text(rt, word))?;
    }
    Tags::of(rt.alloc(), texts)
}

/// A piece that may be kept for so many seconds, of which `age` have passed.
fn got<R: Abort + AllocGlobal>(
    rt: &R,
    lifetime: u64,
    age: u64,
    private: bool,
    words: &[&str],
    value: &str,
) -> Report
    requires { (lifetime ≤ 2147483648) × (age ≤ 2147483648) }
    ensures { IsInRange result }
{
    Report::Got(Offer {
        value: text(rt, value),
        tags: tags(rt, words).expect(rt, "memory"),
        verdict: Verdict {
            lifetime,
            age,
            private,
            no_store: false,
        },
        marks: Marks {
            status: 200,
            errors: false,
            absent: false,
            mutation: false,
            uncached: false,
        },
    })
}

fn look_once<R: Abort + AllocGlobal>(
    rt: &R,
    book: &mut Book,
    pass: &Pass,
    id: Option<&Text>,
    now: u64,
    key: &Key,
) -> Result<Found, Memory>
    ensures owed { IfOk result (λ found. IsOwedAnswer book.new found) }
    ensures keeps { KeepsPermits book.old book.new }
{
    let mut asks = Vec::new(rt.alloc());
    asks.push(key.copy()?)?;
    let mut answers = book.look(pass, id, asks, now)?;
    if answers.is_empty() {
        answers.destroy_empty();
        panic!(rt; "no answer");
    }
    let found = answers.remove(0);
    discard(answers);
    Ok(found)
}

/// Looks for one key.
fn look<R: Abort + AllocGlobal>(
    rt: &R,
    book: &mut Book,
    pass: &Pass,
    id: Option<&Text>,
    now: u64,
    key: &Key,
) -> Found
    ensures owed { IsOwedAnswer book.new result }
    ensures keeps { KeepsPermits book.old book.new }
{
    look_once(rt, book, pass, id, now, key).expect(rt, "memory")
}

fn is_ticket(mark: &Mark, wanted: u64) -> bool
    ensures { IsTrue result ↔ (mark.now ≡ Ticket wanted) }
{
    match mark {
        Mark::Ticket(ticket) => *ticket == wanted,
        _ => false,
    }
}

fn has_begun(book: &Book, permit: &Permit) -> bool
    ensures { IsTrue result ↔ (permit.now.epoch ≤ book.now.epoch) }
{
    permit.epoch() <= book.tally().epoch
}

/// The permit of a miss, whose Lookup and ticket are checked.
fn missed<R: Abort + AllocGlobal>(
    rt: &R,
    book: &Book,
    found: Found,
    lookup: u64,
    ticket: u64,
) -> Permit
    requires { IsOwedAnswer book.now found }
    ensures may { MaySettle book.now result }
    ensures ticket { result.mark ≡ Ticket ticket }
    ensures begun { result.epoch ≤ book.now.epoch }
{
    match found {
        Found::Miss { lookup: at, permit } => {
            if at == lookup && is_ticket(permit.mark(), ticket) && has_begun(book, &permit) {
                return permit;
            }
            permit.discard();
            panic!(rt; "missed at {at}")
        }
        Found::Bypass { permit } => {
            permit.discard();
            panic!(rt; "bypassed")
        }
        Found::Hit {
            lookup: _,
            stored,
            value: _value,
            left_ms: _,
            private: _,
        } => panic!(rt; "hit {stored}"),
    }
}

/// The permit, whose epoch has begun.
fn begun<R: Abort + AllocGlobal>(rt: &R, book: &Book, permit: Permit) -> Permit
    requires { MaySettle book.now permit }
    ensures may { MaySettle book.now result }
    ensures mark { result.mark ≡ permit.mark }
    ensures begun { result.epoch ≤ book.now.epoch }
{
    if has_begun(book, &permit) {
        return permit;
    }
    permit.discard();
    panic!(rt; "a permit of a later epoch")
}

/// Checks a hit: where its Lookup and its piece stand, the value, how long it is good, and whether it is private.
fn hit<R: Abort + AllocGlobal>(
    rt: &R,
    found: Found,
    places: (u64, u64),
    value: &str,
    good: (u64, bool),
) {
    match found {
        Found::Hit {
            lookup,
            stored,
            value: text,
            left_ms,
            private,
        } => {
            assert!(rt; (lookup, stored) == places, "hit {stored} at {lookup}");
            assert_eq!(rt; text.as_str(), value);
            assert!(rt; (left_ms, private) == good, "{left_ms} ms left");
        }
        Found::Miss { lookup: at, permit } => {
            permit.discard();
            panic!(rt; "missed at {at}")
        }
        Found::Bypass { permit } => {
            permit.discard();
            panic!(rt; "bypassed")
        }
    }
}

/// The permit of an ask that went past the journal, whose mark is checked.
fn bypassed<R: Abort + AllocGlobal>(rt: &R, book: &Book, found: Found, mark: Mark) -> Permit
    requires { IsOwedAnswer book.now found }
    ensures { MaySettle book.now result }
{
    match found {
        Found::Bypass { permit } => {
            if *permit.mark() == mark {
                return permit;
            }
            permit.discard();
            panic!(rt; "another mark")
        }
        Found::Miss { lookup: at, permit } => {
            permit.discard();
            panic!(rt; "missed at {at}")
        }
        Found::Hit {
            lookup: _,
            stored,
            value: _value,
            left_ms: _,
            private: _,
        } => panic!(rt; "hit {stored}"),
    }
}

fn settle<R: Abort + AllocGlobal>(
    rt: &R,
    book: &mut Book,
    permit: Permit,
    report: Report,
    position: u64,
    outcome: Outcome,
)
    requires may { MaySettle book.old permit }
    requires range { IsInRange report }
    ensures { KeepsOthers book.old permit book.new }
{
    let settled = book.settle(Fill { permit, report });
    assert_eq!(rt;
        settled,
        Settled {
            position: Some(position),
            outcome
        }
    );
}

/// Settles a permit without a ticket, which appends nothing.
fn past<R: Abort + AllocGlobal>(rt: &R, book: &mut Book, permit: Permit)
    requires { MaySettle book.old permit }
{
    let report = Report::Failed;
    let settled = book.settle(Fill { permit, report });
    assert_eq!(rt;
        settled,
        Settled {
            position: None,
            outcome: Outcome::Bypassed
        }
    );
}

fn void<R: Abort + AllocGlobal>(rt: &R, book: &mut Book, who: u32, target: &Target, voided: Voided)
    ensures { KeepsEarlier book.old book.new }
{
    let notice = Notice::of(target).expect(rt, "memory");
    assert_eq!(rt; book.invalidate(who, notice), voided);
}

fn not_turned(position: u64, count: u64) -> Voided {
    Voided {
        epoch: 0,
        position,
        count,
        turned: Turned::No,
    }
}

fn a_miss_a_fill_a_hit<R: Abort + AllocGlobal>(rt: &R) {
    let mut book = Book::open(rt.alloc(), WIDE, 0).expect(rt, "memory");
    let pass = book.begin(1);
    let asked = key(rt, "a", "T", "r");
    let found = look(rt, &mut book, &pass, None, 0, &asked);
    let permit = missed(rt, &book, found, 0, 0);
    let report = got(rt, 60, 0, false, &[], "v");
    settle(rt, &mut book, permit, report, 2, Outcome::Stored);
    let found = look(rt, &mut book, &pass, None, 0, &asked);
    hit(rt, found, (3, 2), "v", (60000, false));
    assert_eq!(rt;
        book.tally(),
        Tally {
            epoch: 0,
            events: 4,
            bytes: 1,
            pending: 0
        }
    );
    assert!(rt; book.journal().len() == 4);
}

fn a_tag_learnt_late<R: Abort + AllocGlobal>(rt: &R) {
    let mut book = Book::open(rt.alloc(), WIDE, 0).expect(rt, "memory");
    let pass = book.begin(1);
    let asked = key(rt, "products", "Product", "p1");
    let hot = Target::Tag(text(rt, "products"), text(rt, "hot"));
    let found = look(rt, &mut book, &pass, None, 0, &asked);
    let permit = missed(rt, &book, found, 0, 0);
    void(rt, &mut book, 2, &hot, not_turned(2, 0));
    let report = got(rt, 60, 0, false, &["hot", "x"], "v");
    settle(rt, &mut book, permit, report, 3, Outcome::Void(2));
    let found = look(rt, &mut book, &pass, None, 0, &asked);
    let permit = missed(rt, &book, found, 4, 1);
    let report = got(rt, 60, 0, false, &["hot", "x"], "v");
    settle(rt, &mut book, permit, report, 6, Outcome::Stored);
}

/// Stamps are kept for the open tickets alone, and a settle asks them once for each of its targets.
fn stamps_for_open_tickets<R: Abort + AllocGlobal>(rt: &R) {
    let mut book = Book::open(rt.alloc(), WIDE, 0).expect(rt, "memory");
    let hot = Target::Tag(text(rt, "a"), text(rt, "hot"));
    let whole = Target::Subgraph(text(rt, "b"));
    void(rt, &mut book, 2, &hot, not_turned(0, 0));
    tells(rt, &book, 0, 0);
    let pass = book.begin(1);
    let asked = key(rt, "a", "T", "r1");
    let other = key(rt, "a", "T", "r2");
    let report = got(rt, 60, 0, false, &["hot", "x"], "v");
    let found = look(rt, &mut book, &pass, None, 0, &asked);
    let earlier = missed(rt, &book, found, 1, 0);
    void(rt, &mut book, 2, &hot, not_turned(3, 0));
    let earlier = begun(rt, &book, earlier);
    void(rt, &mut book, 2, &hot, not_turned(4, 0));
    let found = look(rt, &mut book, &pass, None, 0, &other);
    let later = missed(rt, &book, found, 5, 1);
    let earlier = begun(rt, &book, earlier);
    void(rt, &mut book, 2, &whole, not_turned(7, 0));
    settle(rt, &mut book, earlier, report, 8, Outcome::Void(4));
    tells(rt, &book, 1, 4);
    settle(rt, &mut book, later, Report::Failed, 9, Outcome::Failed);
    tells(rt, &book, 0, 4);
}

/// Checks how many stamps there are, and how many probes of them were made.
fn tells<R: Abort + AllocGlobal>(rt: &R, book: &Book, count: u64, probes: u64) {
    let stamps = book.stamps();
    assert!(rt; stamps.count() == count && stamps.probes() == probes);
}

fn two_tickets_on_one_key<R: Abort + AllocGlobal>(rt: &R) {
    let mut book = Book::open(rt.alloc(), WIDE, 0).expect(rt, "memory");
    let first = book.begin(1);
    let second = book.begin(2);
    let asked = key(rt, "a", "T", "r");
    let x = got(rt, 60, 0, false, &[], "x");
    let y = got(rt, 60, 0, false, &[], "y");
    let found = look(rt, &mut book, &first, None, 0, &asked);
    let earlier = missed(rt, &book, found, 0, 0);
    let found = look(rt, &mut book, &second, None, 0, &asked);
    let later = missed(rt, &book, found, 2, 1);
    settle(rt, &mut book, later, y, 4, Outcome::Stored);
    settle(rt, &mut book, earlier, x, 5, Outcome::Stored);
    let found = look(rt, &mut book, &first, None, 0, &asked);
    hit(rt, found, (6, 5), "x", (60000, false));
    // Of two pieces of one key the later is held, and it alone counts.
    let target = Target::Subgraph(text(rt, "a"));
    void(rt, &mut book, 1, &target, not_turned(7, 1));
}

fn one_type_in_two_subgraphs<R: Abort + AllocGlobal>(rt: &R) {
    let mut book = Book::open(rt.alloc(), WIDE, 0).expect(rt, "memory");
    let pass = book.begin(1);
    let a = key(rt, "a", "T", "r");
    let b = key(rt, "b", "T", "r");
    let found = look(rt, &mut book, &pass, None, 0, &a);
    let permit = missed(rt, &book, found, 0, 0);
    settle(
        rt,
        &mut book,
        permit,
        got(rt, 60, 0, false, &[], "x"),
        2,
        Outcome::Stored,
    );
    let found = look(rt, &mut book, &pass, None, 0, &b);
    let permit = missed(rt, &book, found, 3, 1);
    settle(
        rt,
        &mut book,
        permit,
        got(rt, 60, 0, false, &[], "y"),
        5,
        Outcome::Stored,
    );
    let target = Target::OfType(text(rt, "a"), text(rt, "T"));
    void(rt, &mut book, 1, &target, not_turned(6, 1));
    let found = look(rt, &mut book, &pass, None, 0, &a);
    missed(rt, &book, found, 7, 2).discard();
    let found = look(rt, &mut book, &pass, None, 0, &b);
    hit(rt, found, (9, 5), "y", (60000, false));
}

fn the_boundary_of_freshness<R: Abort + AllocGlobal>(rt: &R) {
    let mut book = Book::open(rt.alloc(), WIDE, 0).expect(rt, "memory");
    let pass = book.begin(1);
    let asked = key(rt, "a", "T", "r");
    let found = look(rt, &mut book, &pass, None, 1000, &asked);
    let permit = missed(rt, &book, found, 0, 0);
    let report = got(rt, 60, 10, false, &[], "v");
    settle(rt, &mut book, permit, report, 2, Outcome::Stored);
    let found = look(rt, &mut book, &pass, None, 50999, &asked);
    hit(rt, found, (3, 2), "v", (1, false));
    let found = look(rt, &mut book, &pass, None, 51000, &asked);
    missed(rt, &book, found, 4, 1).discard();
    let found = look(rt, &mut book, &pass, None, 999, &asked);
    missed(rt, &book, found, 6, 2).discard();
}

fn private_records<R: Abort + AllocGlobal>(rt: &R) {
    let mut book = Book::open(rt.alloc(), WIDE, 0).expect(rt, "memory");
    let pass = book.begin(1);
    let asked = key(rt, "a", "T", "r");
    let a = text(rt, "A");
    let b = text(rt, "B");
    let found = look(rt, &mut book, &pass, Some(&a), 0, &asked);
    let permit = missed(rt, &book, found, 0, 0);
    let own = got(rt, 60, 0, true, &[], "pa");
    settle(rt, &mut book, permit, own, 2, Outcome::Stored);
    let found = look(rt, &mut book, &pass, Some(&a), 0, &asked);
    hit(rt, found, (3, 2), "pa", (60000, true));
    let found = look(rt, &mut book, &pass, Some(&b), 0, &asked);
    missed(rt, &book, found, 4, 1).discard();
    let found = look(rt, &mut book, &pass, None, 0, &asked);
    let permit = missed(rt, &book, found, 6, 2);
    let public = got(rt, 60, 0, false, &[], "pub");
    settle(rt, &mut book, permit, public, 8, Outcome::Stored);
    let found = look(rt, &mut book, &pass, Some(&a), 0, &asked);
    hit(rt, found, (9, 2), "pa", (60000, true));
    let found = look(rt, &mut book, &pass, Some(&b), 0, &asked);
    hit(rt, found, (10, 8), "pub", (60000, false));
}

fn a_full_journal_turns<R: Abort + AllocGlobal>(rt: &R) {
    let limits = Limits {
        events: 8,
        bytes: 4096,
    };
    let mut book = Book::open(rt.alloc(), limits, 0).expect(rt, "memory");
    let first = book.begin(1);
    let r1 = key(rt, "a", "T", "r1");
    let r2 = key(rt, "a", "T", "r2");
    let r3 = key(rt, "a", "T", "r3");
    let late = got(rt, 60, 0, false, &[], "v");
    let found = look(rt, &mut book, &first, None, 0, &r1);
    let permit = missed(rt, &book, found, 0, 0);
    let report = got(rt, 60, 0, false, &[], "v");
    settle(rt, &mut book, permit, report, 2, Outcome::Stored);
    let found = look(rt, &mut book, &first, None, 0, &r2);
    let open = missed(rt, &book, found, 3, 1);
    let found = look(rt, &mut book, &first, None, 0, &r3);
    let full = Mark::Full {
        length: 5,
        reserved: 1,
        needed: 3,
        limit: 8,
    };
    bypassed(rt, &book, found, full).discard();
    let open = begun(rt, &book, open);
    let second = book.begin(2);
    let settled = book.settle(Fill {
        permit: open,
        report: late,
    });
    assert_eq!(rt;
        settled,
        Settled {
            position: None,
            outcome: Outcome::Over {
                pinned: 0,
                current: 1
            }
        }
    );
    let found = look(rt, &mut book, &first, None, 0, &r1);
    let over = Mark::Over {
        pinned: 0,
        current: 1,
    };
    bypassed(rt, &book, found, over).discard();
    let found = look(rt, &mut book, &second, None, 0, &r1);
    let permit = missed(rt, &book, found, 0, 0);
    assert_eq!(rt; permit.epoch(), 1);
    permit.discard();
}

fn invalidations_turn_the_epoch<R: Abort + AllocGlobal>(rt: &R) {
    let limits = Limits {
        events: 8,
        bytes: 4096,
    };
    let mut book = Book::open(rt.alloc(), limits, 0).expect(rt, "memory");
    let target = Target::Subgraph(text(rt, "a"));
    for position in 0..8u64 {
        void(rt, &mut book, 1, &target, not_turned(position, 0));
    }
    let turned = Voided {
        epoch: 1,
        position: 0,
        count: 0,
        turned: Turned::Full {
            length: 8,
            reserved: 0,
            limit: 8,
        },
    };
    void(rt, &mut book, 1, &target, turned);
}

fn bytes_that_just_fit<R: Abort + AllocGlobal>(rt: &R) {
    let limits = Limits {
        events: 64,
        bytes: 16,
    };
    let mut book = Book::open(rt.alloc(), limits, 0).expect(rt, "memory");
    let pass = book.begin(1);
    let full = Outcome::NoRoom {
        bytes: 10,
        adds: 10,
        limit: 16,
    };
    let table = [
        ("r1", "0123456789", 0, 0, 2, Outcome::Stored),
        ("r2", "abcdefghij", 1, 3, 5, full),
        ("r3", "abcdef", 2, 6, 8, Outcome::Stored),
    ];
    for (rep, value, ticket, lookup, position, outcome) in table {
        let asked = key(rt, "a", "T", rep);
        let found = look(rt, &mut book, &pass, None, 0, &asked);
        let permit = missed(rt, &book, found, lookup, ticket);
        let report = got(rt, 60, 0, false, &[], value);
        settle(rt, &mut book, permit, report, position, outcome);
    }
    let pass = book.begin(2);
    assert_eq!(rt; (pass.who(), pass.epoch()), (2, 1));
}

fn a_stale_own_piece_beside_a_public_one<R: Abort + AllocGlobal>(rt: &R) {
    let mut book = Book::open(rt.alloc(), WIDE, 0).expect(rt, "memory");
    let pass = book.begin(1);
    let asked = key(rt, "a", "T", "r");
    let a = text(rt, "A");
    let found = look(rt, &mut book, &pass, Some(&a), 0, &asked);
    let permit = missed(rt, &book, found, 0, 0);
    let own = got(rt, 1, 0, true, &[], "own");
    settle(rt, &mut book, permit, own, 2, Outcome::Stored);
    let found = look(rt, &mut book, &pass, None, 0, &asked);
    let permit = missed(rt, &book, found, 3, 1);
    let public = got(rt, 60, 10, false, &[], "pub");
    settle(rt, &mut book, permit, public, 5, Outcome::Stored);
    let found = look(rt, &mut book, &pass, Some(&a), 400, &asked);
    hit(rt, found, (6, 2), "own", (600, true));
    let found = look(rt, &mut book, &pass, Some(&a), 1000, &asked);
    hit(rt, found, (7, 5), "pub", (49000, false));
}

fn the_first_cause_decides<R: Abort + AllocGlobal>(rt: &R) {
    let limits = Limits {
        events: 64,
        bytes: 16,
    };
    let mut book = Book::open(rt.alloc(), limits, 0).expect(rt, "memory");
    let pass = book.begin(1);
    let asked = key(rt, "a", "T", "r");
    let target = Target::OfType(text(rt, "a"), text(rt, "T"));
    // Of two covers the greater counts, and a cover comes before the want of room.
    let found = look(rt, &mut book, &pass, None, 0, &asked);
    let permit = missed(rt, &book, found, 0, 0);
    void(rt, &mut book, 2, &target, not_turned(2, 0));
    let permit = begun(rt, &book, permit);
    void(rt, &mut book, 2, &target, not_turned(3, 0));
    let report = got(rt, 60, 0, false, &[], "0123456789abcdefg");
    settle(rt, &mut book, permit, report, 4, Outcome::Void(3));
    // A reason comes before a cover, and a failure before all.
    let found = look(rt, &mut book, &pass, None, 0, &asked);
    let permit = missed(rt, &book, found, 5, 1);
    void(rt, &mut book, 2, &target, not_turned(7, 0));
    let report = got(rt, 60, 0, true, &[], "v");
    settle(
        rt,
        &mut book,
        permit,
        report,
        8,
        Outcome::Unstorable(Why::Anonymous),
    );
    let found = look(rt, &mut book, &pass, None, 0, &asked);
    let permit = missed(rt, &book, found, 9, 2);
    settle(rt, &mut book, permit, Report::Failed, 11, Outcome::Failed);
}

fn keys_that_are_too_long<R: Abort + AllocGlobal>(rt: &R) {
    let mut book = Book::open(rt.alloc(), WIDE, 0).expect(rt, "memory");
    // One that has not begun asks in the current epoch.
    let pass = book.pass(7);
    assert_eq!(rt; (pass.who(), pass.epoch()), (7, 0));
    let rep = "0123456789abcdef"
        .repeat(rt.alloc(), 1024)
        .expect(rt, "memory");
    let asked = key(rt, "a", "T", rep.as_str());
    let found = look(rt, &mut book, &pass, None, 0, &asked);
    let wide = Mark::Wide {
        bytes: 16387,
        limit: 16384,
    };
    let permit = bypassed(rt, &book, found, wide);
    past(rt, &mut book, permit);
    assert_eq!(rt; book.tally().events, 0);
}

fn the_last_epoch<R: Abort + AllocGlobal>(rt: &R) {
    let mut book = Book::open(rt.alloc(), WIDE, u64::MAX).expect(rt, "memory");
    let pass = book.begin(1);
    assert_eq!(rt; pass.epoch(), u64::MAX);
    let asked = key(rt, "a", "T", "r");
    let found = look(rt, &mut book, &pass, None, 0, &asked);
    let permit = bypassed(rt, &book, found, Mark::Retired);
    past(rt, &mut book, permit);
    let retired = Voided {
        epoch: u64::MAX,
        position: 0,
        count: 0,
        turned: Turned::Retired,
    };
    void(rt, &mut book, 1, &Target::Subgraph(text(rt, "a")), retired);
}

#[test]
fn worked_examples(rt: HostRuntime) {
    a_miss_a_fill_a_hit(&rt);
    a_tag_learnt_late(&rt);
    stamps_for_open_tickets(&rt);
    two_tickets_on_one_key(&rt);
    one_type_in_two_subgraphs(&rt);
    the_boundary_of_freshness(&rt);
    private_records(&rt);
    a_full_journal_turns(&rt);
    invalidations_turn_the_epoch(&rt);
    bytes_that_just_fit(&rt);
    a_stale_own_piece_beside_a_public_one(&rt);
    the_first_cause_decides(&rt);
    keys_that_are_too_long(&rt);
    the_last_epoch(&rt);
}
