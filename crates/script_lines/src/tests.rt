use crate::{Cause, Command, Reply, first_line, is_quiet, one_reading, read_command, reply_line};
use cache_terms::{Mark, Outcome, Tags, Target, Why};
use flow_base::{Memory, Text};
use std::alloc::Global;
use std::test::*;

fn shown_tags(alloc: Global, tags: &Tags) -> Result<String, Memory> {
    match tags {
        Tags::Malformed => Ok(format!(in alloc; "malformed")?),
        Tags::Many(count) => Ok(format!(in alloc; "many {count}")?),
        Tags::Known(tags) => {
            let mut all = format!(in alloc; "known")?;
            for tag in tags.as_slice() {
                all.push_str(" ")?;
                all.push_str(tag.as_str())?;
            }
            Ok(all)
        }
    }
}

fn shown_option(text: &Option<Text>) -> &str {
    match text {
        None => "none",
        Some(text) => text.as_str(),
    }
}

fn shown_target(alloc: Global, target: &Target) -> Result<String, Memory> {
    match target {
        Target::Subgraph(sub) => {
            let sub = sub.as_str();
            Ok(format!(in alloc; "subgraph [{sub}]")?)
        }
        Target::OfType(sub, name) => {
            let sub = sub.as_str();
            let name = name.as_str();
            Ok(format!(in alloc; "type [{sub}] [{name}]")?)
        }
        Target::Tag(sub, tag) => {
            let sub = sub.as_str();
            let tag = tag.as_str();
            Ok(format!(in alloc; "tag [{sub}] [{tag}]")?)
        }
    }
}

fn shown(alloc: Global, command: &Command) -> Result<String, Memory> {
    match command {
        Command::Begin { who } => Ok(format!(in alloc; "begin {who}")?),
        Command::Look { who, id, now, key } => {
            let id = shown_option(id);
            let sub = key.sub.as_str();
            let type_name = key.type_name.as_str();
            let rep = key.rep.as_str();
            let sel = key.sel.as_str();
            Ok(format!(in alloc; "look {who} [{id}] {now} [{sub}] [{type_name}] [{rep}] [{sel}]")?)
        }
        Command::Settle {
            epoch,
            ticket,
            lifetime,
            age,
            private,
            tags,
            value,
        } => {
            let tags = shown_tags(alloc, tags)?;
            let value = value.as_str();
            Ok(format!(in alloc;
                "settle {epoch} {ticket} {lifetime} {age} {private} [{tags}] [{value}]"
            )?)
        }
        Command::Reply {
            epoch,
            ticket,
            status,
            age,
            tags,
            value,
            cache_control,
        } => {
            let tags = shown_tags(alloc, tags)?;
            let age = shown_option(age);
            let value = value.as_str();
            let control = shown_option(cache_control);
            Ok(format!(in alloc;
                "reply {epoch} {ticket} {status} [{age}] [{tags}] [{value}] [{control}]"
            )?)
        }
        Command::Fail { epoch, ticket } => Ok(format!(in alloc; "fail {epoch} {ticket}")?),
        Command::Void { who, target } => {
            let target = shown_target(alloc, target)?;
            Ok(format!(in alloc; "void {who} {target}")?)
        }
        Command::Tally => Ok(format!(in alloc; "tally")?),
    }
}

/// Whether a line is read as the command that is shown so, where `none` is no command.
fn reads(alloc: Global, line: &str, wanted: &str) -> bool {
    match read_command(alloc, line) {
        Err(Memory) => false,
        Ok(None) => wanted == "none",
        Ok(Some(command)) => match shown(alloc, &command) {
            Err(Memory) => false,
            Ok(text) => text.as_str() == wanted,
        },
    }
}

/// A line, and the command that is read from it, or `none`.
const TABLE: &str = "begin 0|begin 0\n\
begin 65535|begin 65535\n\
begin 65536|none\n\
begin 01|none\n\
begin +1|none\n\
begin  1|none\n\
begin 1 |none\n\
begin 1\r|none\n\
begin|none\n\
look 1 - 0 a T r s|look 1 [none] 0 [a] [T] [r] [s]\n\
look 1 u1 7 a T r s|look 1 [u1] 7 [a] [T] [r] [s]\n\
look 1 -- 7 a T - s|look 1 [--] 7 [a] [T] [-] [s]\n\
look 1 - 999999999999999 a T r s|look 1 [none] 999999999999999 [a] [T] [r] [s]\n\
look 1 - 1000000000000000 a T r s|none\n\
look 1  0 a T r s|none\n\
look 1 - 0 a T r|none\n\
look 1 - 0 a T r s s|none\n\
look 1 - 0 a T  s|none\n\
settle 3.14 60 5 public - v|settle 3 14 60 5 false [known] [v]\n\
settle 0.0 2147483648 2147483648 private a,b,a v|settle 0 0 2147483648 2147483648 true [known a b] [v]\n\
settle 0.0 2147483649 0 public - v|none\n\
settle 0.0 0 2147483649 public - v|none\n\
settle 0.0 60 0 Public - v|none\n\
settle 00.0 60 0 public - v|none\n\
settle 0.0.0 60 0 public - v|none\n\
settle 0.0 60 0 public  v|none\n\
settle 0.0 60 0 public - |none\n\
settle 0.0 60 0 public a,,b v|settle 0 0 60 0 false [malformed] [v]\n\
settle 0.0 60 0 public a,b,c,d,e,f,g,h,i,j,k,l,m,n,o,p,q,q v|settle 0 0 60 0 false [many 17] [v]\n\
settle 0.0 60 0 public a,b,c,d,e,f,g,h,i,j,k,l,m,n,o,p,q, v|settle 0 0 60 0 false [malformed] [v]\n\
reply 0.1 503 7 g,h v max-age=5, private|reply 0 1 503 [7] [known g h] [v] [max-age=5, private]\n\
reply 0.1 099 - - v -|reply 0 1 99 [none] [known] [v] [none]\n\
reply 0.1 200 x - v |reply 0 1 200 [x] [known] [v] []\n\
reply 0.1 200 x - v  |reply 0 1 200 [x] [known] [v] [ ]\n\
reply 0.1 200 x - v|none\n\
reply 0.1 200 x -  -|none\n\
reply 0.1 99 - - v -|none\n\
reply 0.1 +99 - - v -|none\n\
reply 0.1 0200 - - v -|none\n\
fail 3.14|fail 3 14\n\
fail 3|none\n\
fail 3.|none\n\
void 2 sub a|void 2 subgraph [a]\n\
void 2 type a T|void 2 type [a] [T]\n\
void 2 tag a g|void 2 tag [a] [g]\n\
void 2 sub a T|none\n\
void 2 type a|none\n\
void 2 tag a |none\n\
void 2 key a g|none\n\
tally|tally\n\
tally |none\n\
Tally|none\n\
|none";

#[test]
fn lines_are_read(rt: HostRuntime) {
    let alloc = rt.alloc();
    for row in TABLE.split('\n') {
        match row.split_once('|') {
            Some((line, wanted)) => assert!(rt; reads(alloc, line, wanted), "{line}"),
            None => panic!(rt; "{row}"),
        }
    }
    assert!(rt; is_quiet(""));
    assert!(rt; is_quiet("# tally"));
    assert!(rt; !is_quiet(" # tally"));
    let (line, rest) = first_line("tally\n\n");
    assert!(rt; line == "tally" && rest == Some("\n"));
    one_reading();
}

/// Whether the reply is written so.
fn writes(alloc: Global, reply: &Reply, wanted: &str) -> bool {
    match reply_line(alloc, reply) {
        Err(Memory) => false,
        Ok(text) => text.as_str() == wanted,
    }
}

#[test]
fn replies_are_written(rt: HostRuntime) -> Result<(), Memory> {
    let alloc = rt.alloc();
    let value = Text::of(alloc, "v")?;
    let rows = [
        (Reply::Epoch { epoch: 2 }, "epoch 2\n"),
        (
            Reply::Hit {
                lookup: 3,
                stored: 2,
                value,
            },
            "3 hit 2 v\n",
        ),
        (
            Reply::Miss {
                lookup: 3,
                epoch: 1,
                mark: Mark::Ticket(4),
            },
            "3 miss 1.4\n",
        ),
        (
            Reply::Voided {
                began: None,
                position: 4,
                count: 1,
            },
            "4 voided 1\n",
        ),
        (
            Reply::Voided {
                began: Some(2),
                position: 0,
                count: 3,
            },
            "turned 2 0 voided 3\n",
        ),
        (
            Reply::Tally {
                epoch: 1,
                events: 7,
                bytes: 20,
                pending: 2,
            },
            "epoch 1 events 7 bytes 20 open 2\n",
        ),
    ];
    for (reply, wanted) in &rows {
        assert!(rt; writes(alloc, reply, wanted), "{wanted}");
    }
    Ok(())
}

#[test]
fn refusals_are_written(rt: HostRuntime) {
    let alloc = rt.alloc();
    let rows = [
        (Cause::Word, "line 4 refused word\n"),
        (Cause::Who, "line 4 refused who\n"),
        (Cause::Ticket, "line 4 refused ticket\n"),
    ];
    for (cause, wanted) in rows {
        let reply = Reply::Refused { number: 4, cause };
        assert!(rt; writes(alloc, &reply, wanted), "{wanted}");
    }
}

#[test]
fn each_mark_is_written(rt: HostRuntime) {
    let alloc = rt.alloc();
    let over = Mark::Over {
        pinned: 0,
        current: 1,
    };
    let full = Mark::Full {
        length: 5,
        reserved: 1,
        needed: 3,
        limit: 8,
    };
    let wide = Mark::Wide {
        bytes: 16385,
        limit: 16384,
    };
    let rows = [
        (over, "bypass over 0 1\n"),
        (full, "bypass full 5 1 3 8\n"),
        (wide, "bypass wide 16385 16384\n"),
        (Mark::Retired, "bypass retired\n"),
    ];
    for (mark, wanted) in rows {
        assert!(rt; writes(alloc, &Reply::Bypass { mark }, wanted), "{wanted}");
    }
}

#[test]
fn each_outcome_is_written(rt: HostRuntime) {
    let alloc = rt.alloc();
    let stale = Why::Stale {
        lifetime: 60,
        age: 61,
    };
    let room = Outcome::NoRoom {
        bytes: 10,
        adds: 11,
        limit: 16,
    };
    let over = Outcome::Over {
        pinned: 0,
        current: 1,
    };
    let rows = [
        (Some(2), Outcome::Stored, "2 stored\n"),
        (Some(3), Outcome::Void(2), "3 void 2\n"),
        (Some(5), room, "5 noroom 10 11 16\n"),
        (Some(2), Outcome::Failed, "2 failed\n"),
        (None, over, "over 0 1\n"),
        (None, Outcome::Bypassed, "bypassed\n"),
        (Some(2), Outcome::Memory, "2 memory\n"),
        (
            Some(2),
            Outcome::Unstorable(Why::Status(503)),
            "2 unstorable status 503\n",
        ),
        (
            Some(2),
            Outcome::Unstorable(Why::Mutation),
            "2 unstorable mutation\n",
        ),
        (
            Some(2),
            Outcome::Unstorable(Why::Uncached),
            "2 unstorable uncached\n",
        ),
        (
            Some(2),
            Outcome::Unstorable(Why::Errors),
            "2 unstorable errors\n",
        ),
        (
            Some(2),
            Outcome::Unstorable(Why::Absent),
            "2 unstorable absent\n",
        ),
        (
            Some(2),
            Outcome::Unstorable(Why::NoStore),
            "2 unstorable nostore\n",
        ),
        (
            Some(2),
            Outcome::Unstorable(stale),
            "2 unstorable stale 60 61\n",
        ),
        (
            Some(2),
            Outcome::Unstorable(Why::Anonymous),
            "2 unstorable anonymous\n",
        ),
        (
            Some(2),
            Outcome::Unstorable(Why::TagCount(17)),
            "2 unstorable tagcount 17\n",
        ),
        (
            Some(2),
            Outcome::Unstorable(Why::TagForm),
            "2 unstorable tagform\n",
        ),
    ];
    for (position, outcome, wanted) in rows {
        let reply = Reply::Settled { position, outcome };
        assert!(rt; writes(alloc, &reply, wanted), "{wanted}");
    }
}
