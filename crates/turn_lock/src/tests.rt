ghost use Rattle.std.specs.Prelude.{◌≡◌, ◌≤◌};
ghost use Rattle.atomic_table.specs.Seated.{TableId};
ghost use Rattle.turn_lock.specs.declared.seats.Stage.TheVariants.{Outside};
ghost use Rattle.turn_lock.specs.Members.{AreOutside};

use super::*;
use flow_base::Memory;
use std::alloc::Global;
use std::sync::Wait;
use std::test::Fail;
use std::thread::{Threads, for_each_mut, sleep};
use std::time::{Clock, Duration};

// How many turns there were.
#[derive(Drop)]
struct Count {
    total: u64,
}

impl Storied for Count {
    ghost follows = { λ a b. Unit {0} };

    ghost without = { λ a b k. Unit {0} };

    ghost by = { λ a b k. Unit {0} };

    ghost follows_refl = { λ a. tt };

    ghost follows_trans = { λ a b c ab bc. tt };

    ghost without_refl = { λ k a. tt };

    ghost without_trans = { λ k a b c ab bc. tt };

    ghost without_follows = { λ k a b ab. tt };

    ghost by_follows = { λ k a b ab. tt };

    ghost by_without = { λ j k a b ab apart. tt };
}

// So many turns, each held for a while where that is given.
fn take_turns<R: Wait + Clock>(
    rt: &R,
    member: &mut Member<Count>,
    turns: u64,
    held: Option<Duration>,
)
    requires { member.old.stage ≡ Outside }
    ensures { (member.new.stage ≡ Outside) × (member.new.home ≡ member.old.home) }
{
    for _ in 0..turns {
        let Count { total } = member.enter(rt);
        if let Some(while_others_wait) = held {
            sleep(rt, while_others_wait);
        }
        member.leave(Count {
            total: total.saturating_add(1),
        });
    }
}

// A thousand turns by each, but twenty by the first where it holds its turns for two milliseconds: far longer
// than who waits looks before it sleeps.
fn take_all_turns<R: Threads + Wait + Clock + Clone + Drop + Send + Sync>(
    rt: &R,
    members: &mut [Member<Count>],
    first_is_slow: bool,
)
    requires { (home : TableId) × AreOutside home members.old }
    ensures { (home : TableId) × AreOutside home members.new }
{
    for_each_mut(
        rt,
        members,
        16,
        &|number, member: &mut Member<Count>|
            requires { member.old.stage ≡ Outside }
            ensures { (member.new.stage ≡ Outside) × (member.new.home ≡ member.old.home) }
        {
            if first_is_slow && number == 0 {
                take_turns(rt, member, 20, Some(Duration::from_millis(2)))
            } else {
                take_turns(rt, member, 1000, None)
            }
        },
    );
}

// What is counted where so many threads take turns.
fn counted_by<R: Threads + Wait + Clock + Clone + Drop + Send + Sync>(
    alloc: Global,
    rt: &R,
    members: u32,
    first_is_slow: bool,
) -> Result<u64, Memory>
    requires { (1 ≤ members) × (members ≤ 64) }
{
    let mut all = open(alloc, Count { total: 0 }, members)?;
    take_all_turns(rt, all.as_mut_slice(), first_is_slow);
    let Count { total } = close(rt, all);
    Ok(total)
}

#[test]
fn no_turn_is_lost_or_shared(rt: HostRuntime) -> Result<(), Fail> {
    for members in [1, 2, 4, 16] {
        assert_eq!(rt;
            counted_by(rt.alloc(), &rt, members, false)?,
            1000 * members as u64,
            "by {members} threads"
        );
    }
    Ok(())
}

// Who is slow in its turn makes the others wait, and nothing of theirs wrong.
#[test]
fn a_slow_member_loses_no_turn_of_others(rt: HostRuntime) -> Result<(), Fail> {
    for members in [2, 4, 16] {
        assert_eq!(rt;
            counted_by(rt.alloc(), &rt, members, true)?,
            20 + 1000 * (members as u64 - 1),
            "by {members} threads"
        );
    }
    Ok(())
}

#[test]
fn members_are_numbered_from_zero(rt: HostRuntime) -> Result<(), Fail> {
    let members = open(rt.alloc(), Count { total: 7 }, 3)?;
    for number in 0..3u32 {
        assert_eq!(rt; members[number as usize].number(), number);
    }
    let Count { total } = close(&rt, members);
    assert_eq!(rt; total, 7);
    Ok(())
}

// A member that has drawn no ticket holds up nobody.
#[test]
fn who_is_outside_is_not_waited_for(rt: HostRuntime) -> Result<(), Fail> {
    let mut members = open(rt.alloc(), Count { total: 0 }, 2)?;
    take_turns(&rt, &mut members[1], 1000, None);
    let Count { total } = close(&rt, members);
    assert_eq!(rt; total, 1000);
    Ok(())
}
