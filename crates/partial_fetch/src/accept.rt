ghost use Rattle.std.specs.Prelude.{◌≡◌, ◌≢◌, IfOk};
ghost use Rattle.std.specs.Option.{option_copied};
ghost use Rattle.gql_terms.specs.declared.faults.GqlFault.TheVariants as unread;
ghost use Rattle.gql_inputs.specs.declared.fault.VarFault.TheVariants as wrong;
ghost use Rattle.answer_text.specs.declared.refusal.Refusal.TheVariants as refusals;
ghost use Rattle.partial_fetch.specs.Accepting as spec;
ghost use Rattle.partial_fetch.specs.Answering.{IsRefusal};

use crate::Answer;
use answer_text::{Refusal, VariableCause, refusal_body};
use flow_base::{Memory, Text};
use gql_inputs::VarFault;
use gql_terms::GqlFault;
use std::alloc::Global;

/// The answer to a request that is refused. Fails only for want of memory.
pub fn refuse(alloc: Global, refusal: Refusal) -> Result<Answer, Memory>
    ensures { IfOk result (λ a. IsRefusal refusal a) }
{
    let status = refusal.status();
    let body = refusal_body(alloc, refusal)?;
    Ok(Answer {
        status,
        body,
        cache_control: None,
        receipts: Vec::new(alloc),
        errors: Vec::new(alloc),
    })
}

/// Why a request with this text is refused. Want of memory is handed on.
pub fn unread(query: &Text, fault: GqlFault) -> Result<Refusal, Memory>
    ensures why { IfOk result (λ r. r ≡ refusals.BadDocument (spec.place_in query.now fault)) }
    ensures memory { IfOk result (λ r. fault ≢ unread.Memory) }
{
    match fault {
        GqlFault::Unexpected(at) => Ok(Refusal::BadDocument(at)),
        GqlFault::Deep(at) => Ok(Refusal::BadDocument(at)),
        GqlFault::Ended => Ok(Refusal::BadDocument(query.len() as u64)),
        GqlFault::Memory => Err(Memory),
    }
}

/// Why a request with this fault in its variables is refused. Want of memory is handed on.
pub fn unfit(fault: VarFault) -> Result<Refusal, Memory>
    ensures why { IfOk result
        (λ r. r ≡ refusals.BadVariables (spec.variable_of fault) (spec.cause_of fault)) }
    ensures memory { IfOk result (λ r. fault ≢ wrong.Memory) }
{
    match fault {
        VarFault::Missing(variable) => Ok(Refusal::BadVariables {
            variable,
            cause: VariableCause::Missing,
        }),
        VarFault::Null(variable) => Ok(Refusal::BadVariables {
            variable,
            cause: VariableCause::Null,
        }),
        VarFault::WrongKind(variable, _) => Ok(Refusal::BadVariables {
            variable,
            cause: VariableCause::Kind,
        }),
        VarFault::Memory => Err(Memory),
    }
}

/// Whether an operation of the second name serves whoever asks for the first.
pub fn is_named(asked: &Option<Text>, name: &Option<Text>) -> bool
    ensures { result ≡ spec.is_named asked.now name.now }
{
    match (asked, name) {
        (None, _) => true,
        (Some(_), None) => false,
        (Some(asked), Some(name)) => asked.as_str() == name.as_str(),
    }
}
