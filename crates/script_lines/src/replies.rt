ghost use Rattle.std.specs.Prelude.{◌≡◌, codes, ◌∷◌, [], IfOk};
ghost use Rattle.std.specs.Fmt.{decimal};
ghost use Rattle.script_lines.specs.Replies.{line_of, hit_text, miss_text, bypass_text, why_words, outcome_words, settled_text, voided_text, tally_text, refused_text, reply_text};

use cache_terms::{Mark, Outcome, Why};
use flow_base::{Memory, Text};
use std::alloc::Global;

/// Why a line is refused: it is no command, its caller has no pass, or no such permit is in hand.
#[derive(Clone, Copy, Debug, PartialEq, Eq)]
pub enum Cause {
    Word,
    Who,
    Ticket,
}

/// The answer to a line of a script.
#[derive(Debug, Drop)]
pub enum Reply {
    /// To `begin`: the epoch of the caller's pass.
    Epoch {
        epoch: u64,
    },
    /// To a `look` that hit: the position of the lookup and that of the stored record, and its value.
    Hit {
        lookup: u64,
        stored: u64,
        value: Text,
    },
    /// To a `look` that missed: the position of the lookup, and the epoch and the mark of its permit.
    Miss {
        lookup: u64,
        epoch: u64,
        mark: Mark,
    },
    /// To a `look` that went past the cache: why, which is the mark of its permit.
    Bypass {
        mark: Mark,
    },
    /// To `settle`, `reply` and `fail`: the position of the settle where one was appended, and what became
    /// of the permit.
    Settled {
        position: Option<u64>,
        outcome: Outcome,
    },
    /// To `void`: the epoch that it began, if it did, the position of the invalidation, and how many held
    /// records it covers.
    Voided {
        began: Option<u64>,
        position: u64,
        count: u64,
    },
    /// To `tally`: the epoch, the journal's length, the bytes that are kept and the open tickets.
    Tally {
        epoch: u64,
        events: u64,
        bytes: u64,
        pending: u64,
    },
    /// To a line that is refused: its number, from 1, and why.
    Refused {
        number: u64,
        cause: Cause,
    },
}

/// The text of an answer, one line with its line feed.
pub fn reply_line(alloc: Global, reply: &Reply) -> Result<Text, Memory>
    ensures { IfOk result (λ t. t ≡ reply_text reply.now) }
{
    match reply {
        Reply::Epoch { epoch } => epoch_line(alloc, *epoch),
        Reply::Hit {
            lookup,
            stored,
            value,
        } => hit_line(alloc, *lookup, *stored, value),
        Reply::Miss {
            lookup,
            epoch,
            mark,
        } => miss_line(alloc, *lookup, *epoch, *mark),
        Reply::Bypass { mark } => bypass_line(alloc, *mark),
        Reply::Settled { position, outcome } => settled_line(alloc, *position, *outcome),
        Reply::Voided {
            began,
            position,
            count,
        } => voided_line(alloc, *began, *position, *count),
        Reply::Tally {
            epoch,
            events,
            bytes,
            pending,
        } => tally_line(alloc, *epoch, *events, *bytes, *pending),
        Reply::Refused { number, cause } => refused_line(alloc, *number, *cause),
    }
}

fn epoch_line(alloc: Global, epoch: u64) -> Result<Text, Memory>
    ensures { IfOk result (λ t. t ≡ line_of (codes "epoch" ∷ decimal epoch ∷ [])) }
{
    Text::from_string(format!(in alloc; "epoch {epoch}\n")?)
}

fn hit_line(alloc: Global, lookup: u64, stored: u64, value: &Text) -> Result<Text, Memory>
    ensures { IfOk result (λ t. t ≡ hit_text lookup stored value.now) }
{
    let value = value.as_str();
    Text::from_string(format!(in alloc; "{lookup} hit {stored} {value}\n")?)
}

fn miss_line(alloc: Global, lookup: u64, epoch: u64, mark: Mark) -> Result<Text, Memory>
    ensures { IfOk result (λ t. t ≡ miss_text lookup epoch mark) }
{
    match mark {
        Mark::Ticket(ticket) => Ok(Text::from_string(format!(in alloc;
            "{lookup} miss {epoch}.{ticket}\n"
        )?)?),
        _ => Ok(Text::from_string(format!(in alloc; "{lookup} miss {epoch}.\n")?)?),
    }
}

fn bypass_line(alloc: Global, mark: Mark) -> Result<Text, Memory>
    ensures { IfOk result (λ t. t ≡ bypass_text mark) }
{
    match mark {
        Mark::Over { pinned, current } => Text::from_string(format!(in alloc;
            "bypass over {pinned} {current}\n"
        )?),
        Mark::Full {
            length,
            reserved,
            needed,
            limit,
        } => Text::from_string(format!(in alloc;
            "bypass full {length} {reserved} {needed} {limit}\n"
        )?),
        Mark::Wide { bytes, limit } => Text::from_string(format!(in alloc;
            "bypass wide {bytes} {limit}\n"
        )?),
        _ => Text::from_string(format!(in alloc; "bypass retired\n")?),
    }
}

fn why_line(alloc: Global, why: Why) -> Result<Text, Memory>
    ensures { IfOk result (λ t. t ≡ line_of (codes "unstorable" ∷ why_words why)) }
{
    let text = match why {
        Why::Status(status) => format!(in alloc; "unstorable status {status}\n")?,
        Why::Mutation => format!(in alloc; "unstorable mutation\n")?,
        Why::Uncached => format!(in alloc; "unstorable uncached\n")?,
        Why::Errors => format!(in alloc; "unstorable errors\n")?,
        Why::Absent => format!(in alloc; "unstorable absent\n")?,
        Why::NoStore => format!(in alloc; "unstorable nostore\n")?,
        Why::Stale { lifetime, age } => format!(in alloc; "unstorable stale {lifetime} {age}\n")?,
        Why::Anonymous => format!(in alloc; "unstorable anonymous\n")?,
        Why::TagCount(count) => format!(in alloc; "unstorable tagcount {count}\n")?,
        Why::TagForm => format!(in alloc; "unstorable tagform\n")?,
    };
    Text::from_string(text)
}

fn outcome_line(alloc: Global, outcome: Outcome) -> Result<Text, Memory>
    ensures { IfOk result (λ t. t ≡ line_of (outcome_words outcome)) }
{
    match outcome {
        Outcome::Stored => Text::of(alloc, "stored\n"),
        Outcome::Void(position) => { Text::from_string(format!(in alloc; "void {position}\n")?) }
        Outcome::NoRoom { bytes, adds, limit } => Text::from_string(format!(in alloc;
            "noroom {bytes} {adds} {limit}\n"
        )?),
        Outcome::Unstorable(why) => why_line(alloc, why),
        Outcome::Failed => Text::of(alloc, "failed\n"),
        Outcome::Over { pinned, current } => Text::from_string(format!(in alloc;
            "over {pinned} {current}\n"
        )?),
        Outcome::Bypassed => Text::of(alloc, "bypassed\n"),
        Outcome::Memory => Text::of(alloc, "memory\n"),
    }
}

fn settled_line(alloc: Global, position: Option<u64>, outcome: Outcome) -> Result<Text, Memory>
    ensures { IfOk result (λ t. t ≡ settled_text position outcome) }
{
    let line = outcome_line(alloc, outcome)?;
    match position {
        None => Ok(line),
        Some(position) => {
            let rest = line.as_str();
            Ok(Text::from_string(format!(in alloc; "{position} {rest}")?)?)
        }
    }
}

fn voided_line(alloc: Global, began: Option<u64>, position: u64, count: u64) -> Result<Text, Memory>
    ensures { IfOk result (λ t. t ≡ voided_text began position count) }
{
    match began {
        None => Text::from_string(format!(in alloc; "{position} voided {count}\n")?),
        Some(epoch) => Text::from_string(format!(in alloc;
            "turned {epoch} {position} voided {count}\n"
        )?),
    }
}

fn tally_line(
    alloc: Global,
    epoch: u64,
    events: u64,
    bytes: u64,
    pending: u64,
) -> Result<Text, Memory>
    ensures { IfOk result (λ t. t ≡ tally_text epoch events bytes pending) }
{
    Text::from_string(format!(in alloc;
        "epoch {epoch} events {events} bytes {bytes} open {pending}\n"
    )?)
}

fn refused_line(alloc: Global, number: u64, cause: Cause) -> Result<Text, Memory>
    ensures { IfOk result (λ t. t ≡ refused_text number cause) }
{
    match cause {
        Cause::Word => Text::from_string(format!(in alloc; "line {number} refused word\n")?),
        Cause::Who => Text::from_string(format!(in alloc; "line {number} refused who\n")?),
        Cause::Ticket => Text::from_string(format!(in alloc; "line {number} refused ticket\n")?),
    }
}
