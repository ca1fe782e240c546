ghost use Rattle.std.specs.Prelude.{◌≡◌, ◌≤◌, ◌↔◌, IfOk, IsTrue};
ghost use Rattle.script_lines.specs.Script.{words};
ghost use Rattle.script_lines.specs.Commands.{HasForm, IsCommandRead};

use crate::lines::{has_count, word_at};
use crate::readers::{read_begin, read_fail, read_look, read_reply, read_settle, read_void};
use cache_terms::{Key, Tags, Target};
use flow_base::{Memory, Text};
use std::alloc::Global;

/// What a line asks for. `who` is the number of a caller, at most 65535. Lifetimes and ages are seconds,
/// at most 2147483648.
#[derive(Debug, Drop)]
pub enum Command {
    Begin {
        who: u32,
    },
    Look {
        who: u32,
        id: Option<Text>,
        now: u64,
        key: Key,
    },
    Settle {
        epoch: u64,
        ticket: u64,
        lifetime: u64,
        age: u64,
        private: bool,
        tags: Tags,
        value: Text,
    },
    Reply {
        epoch: u64,
        ticket: u64,
        status: u16,
        age: Option<Text>,
        tags: Tags,
        value: Text,
        cache_control: Option<Text>,
    },
    Fail {
        epoch: u64,
        ticket: u64,
    },
    Void {
        who: u32,
        target: Target,
    },
    Tally,
}

/// What a line asks for, if it is a command. Linear in the line. Takes memory for the texts of the command
/// and for the tags that it lists, doubles too.
pub fn read_command(alloc: Global, line: &str) -> Result<Option<Command>, Memory>
    ensures { IfOk result (λ c. IsCommandRead (words line.now) c) }
{
    if has_form(line, "begin", 2) {
        return Ok(read_begin(line));
    }
    if has_form(line, "look", 8) {
        return read_look(alloc, line);
    }
    if has_form(line, "settle", 7) {
        return read_settle(alloc, line);
    }
    if has_form(line, "fail", 2) {
        return Ok(read_fail(line));
    }
    if has_form(line, "tally", 1) {
        return Ok(Some(Command::Tally));
    }
    if word_at(line, 0) == "reply" {
        return read_reply(alloc, line);
    }
    if word_at(line, 0) == "void" {
        return read_void(alloc, line);
    }
    Ok(None)
}

/// Whether the first word is the verb, and there are so many.
fn has_form(line: &str, verb: &str, count: usize) -> bool
    requires { 1 ≤ count }
    ensures { IsTrue result ↔ HasForm (words line.now) verb.now count }
{
    word_at(line, 0) == verb && has_count(line, count)
}
