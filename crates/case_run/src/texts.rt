//! The lines that are written.

ghost use Rattle.std.specs.Prelude.{◌≡◌, ◌≢◌, ◌++◌, OnOk, IfOk, IfSome, IfNone, string_bytes};
ghost use Rattle.line_base.specs.Told.{entries_told};
ghost use Rattle.case_file.specs.declared.fault.CaseFault.TheVariants as faults;
ghost use Rattle.case_run.specs.Texts as spec;

use case_file::{CaseFault, CaseMember};
use flow_base::{Memory, Text};
use line_base::{Call, Told};
use partial_fetch::Answer;
use std::alloc::Global;

/// What refuses a case, or None for want of memory.
pub fn refusal(fault: CaseFault) -> Option<&'static str>
    ensures text { IfSome result (λ text. text.now ≡ spec.refusal_text fault) }
    ensures memory { IfNone result (fault ≡ faults.Memory) }
    ensures refused { IfSome result (λ _. fault ≢ faults.Memory) }
{
    match fault {
        CaseFault::Json => Some("case refused json\n"),
        CaseFault::Member(member) => Some(member_refusal(member)),
        CaseFault::Schema => Some("case refused schema\n"),
        CaseFault::Plans => Some("case refused plans\n"),
        CaseFault::Site => Some("case refused site\n"),
        CaseFault::Memory => None,
    }
}

fn member_refusal(member: CaseMember) -> &'static str
    ensures { result.now ≡ spec.refusal_text (faults.Member member) }
{
    match member {
        CaseMember::Schema => "case refused member schema\n",
        CaseMember::Plans => "case refused member plans\n",
        CaseMember::Subgraphs => "case refused member subgraphs\n",
        CaseMember::Events => "case refused member events\n",
        CaseMember::Bytes => "case refused member bytes\n",
        CaseMember::Requests => "case refused member requests\n",
        CaseMember::Replies => "case refused member replies\n",
    }
}

fn put_call(alloc: Global, text: &mut String, call: &Call) -> Result<(), Memory>
    ensures { OnOk result (string_bytes text.new ≡ string_bytes text.old
        ++ spec.call_text call.now) }
{
    let name = call.name.as_str();
    let body = call.body.as_str();
    let line = format!(in alloc; "sent {name} {body}\n")?;
    text.push_str(&line)?;
    Ok(())
}

fn put_calls(alloc: Global, text: &mut String, calls: &[Told]) -> Result<(), Memory>
    ensures { OnOk result (string_bytes text.new ≡ string_bytes text.old
        ++ spec.sent_text (entries_told calls.now)) }
{
    for told in calls {
        put_call(alloc, text, &told.call)?;
    }
    Ok(())
}

fn put_lasting(alloc: Global, text: &mut String, answer: &Answer) -> Result<(), Memory>
    ensures { OnOk result (string_bytes text.new ≡ string_bytes text.old
        ++ spec.cache_text answer.now) }
{
    if answer.status != 200 {
        return Ok(());
    }
    if let Some(lasting) = &answer.cache_control {
        let lasting = lasting.as_str();
        let line = format!(in alloc; "cache {lasting}\n")?;
        text.push_str(&line)?;
    }
    Ok(())
}

fn put_answer(alloc: Global, text: &mut String, answer: &Answer) -> Result<(), Memory>
    ensures { OnOk result (string_bytes text.new ≡ string_bytes text.old
        ++ spec.status_text answer.now) }
{
    let status = answer.status;
    let body = answer.body.as_str();
    let line = format!(in alloc; "answer {status} {body}\n")?;
    text.push_str(&line)?;
    Ok(())
}

/// What is written for a request: its calls, how long its answer may be kept, and the answer.
pub fn request_text(alloc: Global, calls: &[Told], answer: &Answer) -> Result<Text, Memory>
    ensures { IfOk result (λ t. t ≡ spec.request_text (entries_told calls.now) answer.now) }
{
    let mut text = String::new(alloc);
    put_calls(alloc, &mut text, calls)?;
    put_lasting(alloc, &mut text, answer)?;
    put_answer(alloc, &mut text, answer)?;
    Text::from_string(text)
}
