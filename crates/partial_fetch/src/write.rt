ghost use Rattle.std.specs.Prelude.{◌≡◌, length, IfOk};
ghost use Rattle.partial_fetch.specs.Answering.{IsAnswer};

use crate::Answer;
use crate::told::{lasting_all, told_errors};
use answer_text::{answer_body, cache_control};
use flow_base::Memory;
use gql_shape::shape;
use json_value::Json;
use plan_book::Entry;
use plan_run::Outcome;
use router_config::Site;
use std::alloc::Global;

/// The answer of an entry's operation over the value of its plan. Fails only for want of memory.
pub fn write_answer(
    alloc: Global,
    site: &Site,
    entry: &Entry,
    variables: &Json,
    value: &Json,
    outcome: Outcome,
) -> Result<Answer, Memory>
    requires { length entry.now.document.operations ≡ 1 }
    ensures { IfOk result (λ a. IsAnswer site.now entry.now variables.now value.now outcome a) }
{
    let Outcome {
        receipts,
        lasts,
        errors,
    } = outcome;
    let shaped = shape(alloc, &site.schema, &entry.document, variables, value)?;
    let told = told_errors(alloc, site.config.subs.as_slice(), &errors)?;
    let body = answer_body(alloc, told, shaped)?;
    let lasting = lasting_all(alloc, &lasts)?;
    let kept = cache_control(alloc, &lasting)?;
    Ok(Answer {
        status: 200,
        body,
        cache_control: Some(kept),
        receipts,
        errors,
    })
}
