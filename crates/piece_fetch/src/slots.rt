ghost use Rattle.std.specs.Prelude.{◌≡◌, ◌≤◌, [], length, vec_capacity, position, All, IfOk};
ghost use Rattle.json_value.specs.Grammar.{IsText, strict};
ghost use Rattle.cache_seam.specs.Hand.{permits_of};
ghost use Rattle.cache_seam.specs.Objects.{IsObjectText};
ghost use Rattle.piece_fetch.specs.Fetching as spec;
ghost use Rattle.piece_fetch.specs.Fetching.{slots_of, AreGathered};
ghost use Rattle.piece_fetch.specs.Between.{asked_count, IsReadable};

use crate::{Brought, Lasts, Origin};
use cache_book::{Found, Permit};
use flow_base::{Memory, Text};
use json_tree::{Json, JsonFault, read};
use std::alloc::Global;
use std::collections::VecDeque;

/// What stands for a key: the piece that was found, or one that is asked for.
#[derive(Drop)]
pub enum Slot {
    Hit {
        lookup: u64,
        stored: u64,
        value: Text,
        lasts: Lasts,
    },
    Asked,
}

/// Parts the answers to a look into what stands for each key, and the permits. Takes no memory.
pub fn divide(answers: Vec<Found>, slots: &mut Vec<Slot>, permits: &mut Vec<Permit>)
    requires no_slots { slots.old.items ≡ [] }
    requires no_permits { permits.old.items ≡ [] }
    requires room_for_slots { length answers.items ≤ vec_capacity slots.old }
    requires room_for_permits { length answers.items ≤ vec_capacity permits.old }
    ensures slots { slots.new.items ≡ slots_of answers.items }
    ensures permits { permits.new.items ≡ permits_of answers.items }
{
    let mut answers = VecDeque::from(answers);
    'dividing: while let Some(answer) = answers.pop_front() {
        match answer {
            Found::Hit {
                lookup,
                stored,
                value,
                left_ms,
                private,
            } => slots
                .push(Slot::Hit {
                    lookup,
                    stored,
                    value,
                    lasts: Lasts { left_ms, private },
                })
                .unwrap(),
            Found::Miss { lookup: _, permit } => {
                slots.push(Slot::Asked).unwrap();
                permits.push(permit).unwrap();
            }
            Found::Bypass { permit } => {
                slots.push(Slot::Asked).unwrap();
                permits.push(permit).unwrap();
            }
        }
    }
    answers.destroy_empty();
}

fn is_asked(slot: &Slot) -> bool
    ensures { result ≡ spec.is_asked slot.now }
{
    match slot {
        Slot::Hit {
            lookup: _,
            stored: _,
            value: _,
            lasts: _,
        } => false,
        Slot::Asked => true,
    }
}

fn position_asked(slots: &[Slot]) -> Option<usize>
    ensures { result ≡ position spec.is_asked slots.now }
{
    slots.iter().position(|slot| is_asked(slot))
}

/// The index of the first piece that is asked for.
pub fn first_asked(slots: &[Slot]) -> Option<u64>
    ensures { result ≡ position spec.is_asked slots.now }
{
    match position_asked(slots) {
        Some(index) => Some(index as u64),
        None => None,
    }
}

/// Where a piece of a call's reply comes from.
fn own_origin(line: u64, call: u64, piece: &Json) -> Origin
    ensures { result ≡ spec.own_origin line call piece.now }
{
    match piece {
        Json::Null => Origin::Absent,
        _ => Origin::Own { line, call },
    }
}

/// The one fault of reading a text that stands for a value.
fn memory_of(fault: JsonFault) -> Memory
    requires { fault ≡ JsonFault.Memory }
{
    match fault {
        JsonFault::Memory => Memory,
        _ => unreachable!(),
    }
}

/// The value of a text that the cache keeps. Fails only for want of memory.
fn read_kept(alloc: Global, text: &Text) -> Result<Json, Memory>
    requires { IsObjectText text.now }
    ensures { IfOk result (λ v. IsText strict v text.now) }
{
    match read(alloc, text.as_str().as_bytes()) {
        Ok(value) => Ok(value),
        Err(fault) => Err(memory_of(fault)),
    }
}

/// What a fetch gives key by key: the pieces, where they come from, and how long they last.
pub struct Gathered {
    pub pieces: Vec<Json>,
    pub origins: Vec<Origin>,
    pub lasts: Vec<Option<Lasts>>,
}

/// The piece of each key, where it comes from and how long it lasts. Fails only for want of memory.
pub fn gather(
    alloc: Global,
    line: u64,
    call: u64,
    slots: Vec<Slot>,
    came: Vec<Brought>,
) -> Result<Gathered, Memory>
    requires count { asked_count slots.items ≡ length came.items }
    requires readable { All IsReadable slots.items }
    ensures { IfOk result (λ g. AreGathered line call slots.items came.items
        g.pieces.items g.origins.items g.lasts.items) }
{
    let mut came = VecDeque::from(came);
    let mut pieces = Vec::new(alloc);
    let mut origins = Vec::new(alloc);
    let mut times = Vec::new(alloc);
    'gathering: for slot in slots {
        match slot {
            Slot::Hit {
                lookup,
                stored,
                value,
                lasts,
            } => {
                pieces.push(read_kept(alloc, &value)?)?;
                origins.push(Origin::Hit { lookup, stored })?;
                times.push(Some(lasts))?;
            }
            Slot::Asked => {
                let Some(one) = came.pop_front() else {
                    unreachable!()
                };
                let Brought { value, lasts } = one;
                origins.push(own_origin(line, call, &value))?;
                pieces.push(value)?;
                times.push(lasts)?;
            }
        }
    }
    Ok(Gathered {
        pieces,
        origins,
        lasts: times,
    })
}
