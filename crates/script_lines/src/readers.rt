ghost use Rattle.std.specs.Prelude.{◌≡◌, codes, IfOk, MatchOption};
ghost use Rattle.cache_terms.specs.declared.keys.Target.{Target};
ghost use Rattle.script_lines.specs.Script.{words};
ghost use Rattle.script_lines.specs.Commands.{word, HasForm, IsCommandRead, SaysTarget};

use crate::commands::Command;
use crate::fields::{
    caller, number, optional, read_key, read_tags, scope_of, span, status_of, text_of, ticket_of,
};
use crate::lines::{has_count, rest_after, word_at};
use cache_terms::Target;
use flow_base::Memory;
use std::alloc::Global;

pub fn read_begin(line: &str) -> Option<Command>
    requires { HasForm (words line.now) (codes "begin") 2 }
    ensures { IsCommandRead (words line.now) result }
{
    let who = caller(word_at(line, 1))?;
    Some(Command::Begin { who })
}

pub fn read_fail(line: &str) -> Option<Command>
    requires { HasForm (words line.now) (codes "fail") 2 }
    ensures { IsCommandRead (words line.now) result }
{
    let (epoch, ticket) = ticket_of(word_at(line, 1))?;
    Some(Command::Fail { epoch, ticket })
}

pub fn read_look(alloc: Global, line: &str) -> Result<Option<Command>, Memory>
    requires { HasForm (words line.now) (codes "look") 8 }
    ensures { IfOk result (λ c. IsCommandRead (words line.now) c) }
{
    let Some(who) = caller(word_at(line, 1)) else {
        return Ok(None);
    };
    let id = word_at(line, 2);
    if id.is_empty() {
        return Ok(None);
    }
    let Some(now) = number(word_at(line, 3)) else {
        return Ok(None);
    };
    let Some(key) = read_key(alloc, line)? else {
        return Ok(None);
    };
    let id = optional(alloc, id)?;
    Ok(Some(Command::Look { who, id, now, key }))
}

pub fn read_settle(alloc: Global, line: &str) -> Result<Option<Command>, Memory>
    requires { HasForm (words line.now) (codes "settle") 7 }
    ensures { IfOk result (λ c. IsCommandRead (words line.now) c) }
{
    let Some((epoch, ticket)) = ticket_of(word_at(line, 1)) else {
        return Ok(None);
    };
    let Some(lifetime) = span(word_at(line, 2)) else {
        return Ok(None);
    };
    let Some(age) = span(word_at(line, 3)) else {
        return Ok(None);
    };
    let Some(private) = scope_of(word_at(line, 4)) else {
        return Ok(None);
    };
    let Some(tags) = read_tags(alloc, word_at(line, 5))? else {
        return Ok(None);
    };
    let Some(value) = text_of(alloc, word_at(line, 6))? else {
        return Ok(None);
    };
    Ok(Some(Command::Settle {
        epoch,
        ticket,
        lifetime,
        age,
        private,
        tags,
        value,
    }))
}

pub fn read_reply(alloc: Global, line: &str) -> Result<Option<Command>, Memory>
    requires { word (words line.now) 0 ≡ codes "reply" }
    ensures { IfOk result (λ c. IsCommandRead (words line.now) c) }
{
    let Some((epoch, ticket)) = ticket_of(word_at(line, 1)) else {
        return Ok(None);
    };
    let Some(status) = status_of(word_at(line, 2)) else {
        return Ok(None);
    };
    let age = word_at(line, 3);
    if age.is_empty() {
        return Ok(None);
    }
    let Some(tags) = read_tags(alloc, word_at(line, 4))? else {
        return Ok(None);
    };
    let Some(value) = text_of(alloc, word_at(line, 5))? else {
        return Ok(None);
    };
    let Some(rest) = rest_after(line, 6) else {
        return Ok(None);
    };
    let age = optional(alloc, age)?;
    let cache_control = optional(alloc, rest)?;
    Ok(Some(Command::Reply {
        epoch,
        ticket,
        status,
        age,
        tags,
        value,
        cache_control,
    }))
}

pub fn read_void(alloc: Global, line: &str) -> Result<Option<Command>, Memory>
    requires { word (words line.now) 0 ≡ codes "void" }
    ensures { IfOk result (λ c. IsCommandRead (words line.now) c) }
{
    let Some(who) = caller(word_at(line, 1)) else {
        return Ok(None);
    };
    let Some(target) = read_target(alloc, line)? else {
        return Ok(None);
    };
    Ok(Some(Command::Void { who, target }))
}

/// The target that the words after the caller name.
fn read_target(alloc: Global, line: &str) -> Result<Option<Target>, Memory>
    requires { word (words line.now) 0 ≡ codes "void" }
    ensures { IfOk result (λ o. MatchOption o
        ((t : Target) → SaysTarget (words line.now) t → ⊥)
        (λ t. SaysTarget (words line.now) t)) }
{
    let kind = word_at(line, 2);
    let Some(sub) = text_of(alloc, word_at(line, 3))? else {
        return Ok(None);
    };
    if kind == "sub" && has_count(line, 4) {
        return Ok(Some(Target::Subgraph(sub)));
    }
    if !has_count(line, 5) {
        return Ok(None);
    }
    let Some(within) = text_of(alloc, word_at(line, 4))? else {
        return Ok(None);
    };
    if kind == "type" {
        return Ok(Some(Target::OfType(sub, within)));
    }
    if kind == "tag" {
        return Ok(Some(Target::Tag(sub, within)));
    }
    Ok(None)
}
