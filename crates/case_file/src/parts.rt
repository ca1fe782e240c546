//! The members of a case.

ghost use Rattle.std.specs.Prelude.{◌≡◌, ◌≢◌, Ok, IfOk, IfErr, IsTrue};
ghost use Rattle.cache_model.specs.State.{IsWithinRanges};
ghost use Rattle.plan_tree.specs.Lawful.{differ};
ghost use Rattle.router_config.specs.Rules.{names};
ghost use Rattle.case_file.specs.declared.fault.CaseFault.TheVariants as faults;
ghost use Rattle.case_file.specs.Parts.{parts_of, parts_said, LacksPart};

use crate::content::Timed;
use crate::fault::{CaseFault, CaseMember};
use crate::forms::{number_within, text_member};
use crate::replies::replies;
use crate::requests::requests;
use crate::subgraphs::subgraphs;
use cache_terms::Limits;
use flow_base::Text;
use json_value::{Json, member};
use line_base::Scripted;
use router_config::SubRule;
use std::alloc::Global;
use tree_items::Items;

/// What the members of a case say.
#[derive(Drop)]
pub struct Parts<'a> {
    pub schema: &'a Text,
    pub plans: &'a Json,
    pub subs: Items<SubRule>,
    pub limits: Limits,
    pub requests: Items<Timed>,
    pub replies: Items<Scripted>,
}

/// The members of a case, or the first that is missing or of another form.
pub fn read_parts<'a>(alloc: Global, value: &'a Json) -> Result<Parts<'a>, CaseFault>
    ensures parts { IfOk result (λ p. parts_of value.now ≡ Ok (parts_said p)) }
    ensures limits { IfOk result (λ p. IsWithinRanges p.limits) }
    ensures distinct { IfOk result (λ p. IsTrue (differ (names p.subs))) }
    ensures fault { IfErr result (λ f. f ≢ faults.Memory → LacksPart (parts_of value.now) f) }
{
    let Some(schema) = text_member(value, "schema") else {
        return Err(CaseFault::Member(CaseMember::Schema));
    };
    let Some(plans) = member(value, "plans") else {
        return Err(CaseFault::Member(CaseMember::Plans));
    };
    let Some(subs) = subgraphs(alloc, value)? else {
        return Err(CaseFault::Member(CaseMember::Subgraphs));
    };
    let Some(events) = number_within(value, "events", 8, 65_536) else {
        return Err(CaseFault::Member(CaseMember::Events));
    };
    let Some(bytes) = number_within(value, "bytes", 16, 268_435_456) else {
        return Err(CaseFault::Member(CaseMember::Bytes));
    };
    let Some(requests) = requests(alloc, value)? else {
        return Err(CaseFault::Member(CaseMember::Requests));
    };
    let Some(replies) = replies(alloc, subs.as_slice(), value)? else {
        return Err(CaseFault::Member(CaseMember::Replies));
    };
    Ok(Parts {
        schema,
        plans,
        subs,
        limits: Limits { events, bytes },
        requests,
        replies,
    })
}
