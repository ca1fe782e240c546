ghost use Rattle.std.specs.Prelude.{◌≡◌, ◌≤◌, false, length, is_some, All, IfOk, OnErr};
ghost use Rattle.std.specs.Option.{option_copied};
ghost use Rattle.piece_fetch.specs.Between.{asked_count, IsReadable, MayHaveSent, Works};

use crate::calls::send_any;
use crate::slots::{Gathered, Slot, first_asked, gather};
use crate::unpack::{Unpacked, unpack};
use crate::{Ask, Fetched};
use cache_book::{Permit, Report};
use flow_base::{Memory, Text};
use line_base::Line;
use std::alloc::Global;

/// What is made while the permits are in hand: a report for each, and what the fetch gives.
pub struct Work {
    pub reports: Vec<Report>,
    pub fetched: Fetched,
}

fn is_named(id: Option<&Text>) -> bool
    ensures { result ≡ is_some (option_copied id.entry) }
{
    match id {
        Some(_) => true,
        None => false,
    }
}

/// Asks for what is missing, and makes all that needs memory.
pub fn prepare<L: Line>(
    alloc: Global,
    line: &mut L,
    number: u64,
    id: Option<&Text>,
    ask: &Ask,
    slots: Vec<Slot>,
    permits: &[Permit],
) -> Result<Work, Memory>
    requires one { ask.now.entities ≡ false → length permits.now ≤ 1 }
    requires named { All (λ p. p.key.sub ≡ ask.now.name) permits.now }
    requires count { asked_count slots.items ≡ length permits.now }
    requires readable { All IsReadable slots.items }
    ensures ok { IfOk result (λ w. Works ask.now
        (option_copied id.entry) number slots.items permits.now
        (L.line line.old) (L.line line.new) w) }
    ensures err { OnErr result (MayHaveSent ask.now (option_copied id.entry) permits.now
        (L.line line.old) (L.line line.new)) }
{
    let call = line.calls();
    let first_sent = first_asked(&slots);
    let coming = send_any(alloc, line, id, ask, permits)?;
    let Unpacked {
        reports,
        brought,
        causes,
    } = unpack(alloc, ask, is_named(id), permits.len(), coming)?;
    let Gathered {
        pieces,
        origins,
        lasts,
    } = gather(alloc, number, call, slots, brought)?;
    Ok(Work {
        reports,
        fetched: Fetched {
            pieces,
            origins,
            lasts,
            causes,
            first_sent,
        },
    })
}
