ghost use Rattle.std.specs.Prelude.{◌≡◌, ◌==◌, ◌&&◌, is_none, count_by, IfOk};
ghost use Rattle.std.specs.Option.{option_copied};
ghost use Rattle.std.specs.Prelude.{◌++◌, ◌∷◌, [], OnOk, OnErr};
ghost use Rattle.line_base.specs.Lines.{names_of};
ghost use Rattle.line_base.specs.Foretold.{answer_told, answer_for, left_for};
ghost use Rattle.line_base.specs.Told.{names_told, entries_told, entry_of};

use crate::{Call, Line, LineFault};
use cache_book::Permit;
use cache_terms::{Key, Mark, Reply};
use flow_base::{Bytes, Memory, Text};
use std::alloc::Global;
use std::marker::Model;

/// An answer for one call to a subgraph: a reply, or none.
#[derive(Debug, Drop)]
pub struct Scripted {
    pub sub: u64,
    pub reply: Option<Reply>,
}

/// One call as a line tells it. Without a reply it failed.
#[derive(Debug, Drop)]
pub struct Told {
    pub permits: Vec<(u64, Mark, Key)>,
    pub call: Call,
    pub reply: Option<Reply>,
}

/// A line for tests, which answers by a list. A call takes the first unused entry of its subgraph; none in it, or no
/// entry left, fails and counts.
#[derive(Drop)]
pub struct ScriptLine {
    alloc: Global,
    replies: Vec<Scripted>,
    log: Vec<Told>,
}

impl Model for ScriptLine {
    ghost use Rattle.line_base.specs.Told.{Script, entries_told};

    ghost Value = { Script };

    ghost view = { λ s. record { replies = s.replies.items; log = entries_told s.log.items } };
}

fn copy_id(id: Option<&Text>) -> Result<Option<Text>, Memory>
    ensures { IfOk result (λ copy. copy ≡ option_copied id.entry) }
{
    match id {
        Some(id) => Ok(Some(id.copy()?)),
        None => Ok(None),
    }
}

fn copy_call(call: &Call) -> Result<Call, Memory>
    ensures { IfOk result (λ copy. copy ≡ call.now) }
{
    Ok(Call {
        sub: call.sub,
        name: call.name.copy()?,
        body: call.body.copy()?,
        id: copy_id(call.id.as_ref())?,
    })
}

/// An equal reply. Fails only for want of memory.
pub fn copy_reply(alloc: Global, reply: &Reply) -> Result<Reply, Memory>
    ensures { IfOk result (λ copy. copy ≡ reply.now) }
{
    Ok(Reply {
        status: reply.status,
        cache_control: copy_id(reply.cache_control.as_ref())?,
        age: copy_id(reply.age.as_ref())?,
        body: Bytes::of(alloc, reply.body.as_slice())?,
    })
}

#[tactic(auto, using(crate::proofs::Scripts::names_push, crate::proofs::Scripts::names_step))]
fn copy_names(alloc: Global, permits: &[Permit]) -> Result<Vec<(u64, Mark, Key)>, Memory>
    ensures { IfOk result (λ names. names_told names.items ≡ names_of permits.now) }
{
    let mut names = Vec::new(alloc);
    'naming: for permit in permits {
        names.push((permit.epoch(), *permit.mark(), permit.key().copy()?))?;
    }
    Ok(names)
}

impl ScriptLine {
    ghost use Rattle.std.specs.Prelude.{◌≡◌, []};
    ghost use Rattle.line_base.specs.Told.{entries_told};

    /// A line that has answered no call yet.
    pub fn of(alloc: Global, replies: Vec<Scripted>) -> ScriptLine
        ensures { result ≡ record { replies = replies.items; log = [] } }
    {
        ScriptLine {
            alloc,
            replies,
            log: Vec::new(alloc),
        }
    }

    /// The calls that it has answered, in order.
    pub fn log(&self) -> &Vec<Told>
        ensures { entries_told result.now.items ≡ self.now.log }
    {
        &self.log
    }
}

/// Appends a call to the log of a line, or leaves the log as it is for want of memory.
#[tactic(auto, using(crate::proofs::Scripts::entries_push))]
pub fn tell(log: &mut Vec<Told>, told: Told) -> Result<(), Memory>
    ensures ok { OnOk result (entries_told log.new.items ≡ entries_told log.old.items
        ++ entry_of told ∷ []) }
    ensures err { OnErr result (log.new.items ≡ log.old.items) }
{
    log.push(told)?;
    Ok(())
}

/// What the first unused entry of the subgraph answers.
fn peek<'a>(replies: &'a [Scripted], sub: u64) -> Option<&'a Reply>
    ensures { option_copied result ≡ answer_for sub replies.now }
{
    for i in 0..replies.len() {
        if replies[i].sub == sub {
            return replies[i].reply.as_ref();
        }
    }
    None
}

/// The same, and the entry is used.
fn take(replies: &mut Vec<Scripted>, sub: u64) -> Option<Reply>
    ensures answer { result ≡ answer_for sub replies.old.items }
    ensures left { replies.new.items ≡ left_for sub replies.old.items }
{
    for i in 0..replies.len() {
        if replies[i].sub == sub {
            return replies.remove(i).reply;
        }
    }
    None
}

/// How many calls to the subgraph failed.
pub fn failed_calls(log: &[Told], sub: u64) -> usize
    ensures { result ≡ count_by (λ told. (told.call.sub == sub) && is_none told.reply) log.now }
{
    log.iter()
        .filter(|told| told.call.sub == sub && told.reply.is_none())
        .count()
}

/// The answer that a line tells.
fn answer(reply: Option<Reply>) -> Result<Reply, LineFault>
    ensures { result ≡ answer_told reply }
{
    match reply {
        Some(reply) => Ok(reply),
        None => Err(LineFault::Failed),
    }
}

fn copy_some(alloc: Global, reply: Option<&Reply>) -> Result<Option<Reply>, Memory>
    ensures { IfOk result (λ copy. copy ≡ option_copied reply.entry) }
{
    match reply {
        Some(reply) => Ok(Some(copy_reply(alloc, reply)?)),
        None => Ok(None),
    }
}

/// What a line tells of a call with this reply; without one it failed. Fails only for want of memory.
pub fn telling(
    alloc: Global,
    permits: &[Permit],
    call: &Call,
    reply: Option<&Reply>,
) -> Result<Told, Memory>
    ensures { IfOk result (λ t. entry_of t
        ≡ record {
          permits = names_of permits.now;
          call = call.now;
          answer = answer_told
              (option_copied reply.entry);
        }) }
{
    Ok(Told {
        permits: copy_names(alloc, permits)?,
        call: copy_call(call)?,
        reply: copy_some(alloc, reply)?,
    })
}

impl Line for ScriptLine {
    ghost use Rattle.std.specs.Prelude.{◌≡◌};
    ghost use Rattle.line_base.specs.Lines.{Fetches};
    ghost use Rattle.line_base.specs.Told.{script_line, ServesScript};

    ghost line = { λ s. script_line s };

    /// Takes the first unused entry of the call's subgraph; for want of memory it takes none.
    fn fetch(&mut self, permits: &[Permit], call: &Call) -> Result<Reply, LineFault>
        ensures fetches { Fetches (script_line self.old) permits.now call.now result
            (script_line self.new) }
        ensures serves { ServesScript self.old permits.now call.now result self.new }
    {
        match telling(self.alloc, permits, call, peek(&self.replies, call.sub)) {
            Ok(told) => match tell(&mut self.log, told) {
                Ok(()) => answer(take(&mut self.replies, call.sub)),
                Err(Memory) => Err(LineFault::Memory),
            },
            Err(Memory) => Err(LineFault::Memory),
        }
    }

    fn calls(&self) -> u64 {
        self.log.len() as u64
    }

    fn faults(&self, sub: u64) -> u64 {
        failed_calls(&self.log, sub) as u64
    }
}
