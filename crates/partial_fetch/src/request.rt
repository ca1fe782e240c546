ghost use Rattle.std.specs.Prelude.{◌≡◌, ◌≢◌, ◌∷◌, [], IfOk, OnErr};
ghost use Rattle.plan_book.specs.Book.{IsLawfulEntry};
ghost use Rattle.gql_parser.specs.Faults.{IsText};
ghost use Rattle.router_config.specs.Lawful.{IsLawful};
ghost use Rattle.partial_fetch.specs.Accepting.{HasPlan, IsAccepted};
ghost use Rattle.partial_fetch.specs.Answering.{Answers, RunsOut};
ghost use Rattle.partial_fetch.specs.Causes.{HasCauses};
ghost use Rattle.partial_fetch.specs.Headline.{OverFirst, KeepsPromise};

use crate::Answer;
use crate::accept::{is_named, refuse, unfit, unread};
use crate::laws::each_piece_stands;
use crate::told::subgraphs_of;
use crate::write::write_answer;
use answer_text::Refusal;
use cache_seam::Cache;
use flow_base::{Clock, Memory};
use gql_inputs::coerce;
use gql_print::canonical;
use gql_syntax::parse;
use gql_terms::Document;
use json_value::Json;
use line_base::{Crew, Line};
use plan_book::Entry;
use plan_run::execute;
use router_config::{Request, Site};
use std::alloc::Global;

/// Runs the plan of an accepted request, and writes its answer.
fn answer_plan<C: Cache, L: Line, T: Clock>(
    alloc: Global,
    site: &Site,
    cache: &mut C,
    line: &mut L,
    clock: &mut T,
    request: &Request,
    entry: &Entry,
    variables: &Json,
) -> Result<Answer, Memory>
    requires lawful { IsLawful site.now }
    requires accepted { IsAccepted site.now request.now entry.now variables.now }
    ensures ok { IfOk result
        (λ a. Answers site.now request.now (C.seen cache.old) (C.seen cache.new)
        (L.line line.old) (L.line line.new) (T.log clock.old) (T.log clock.new) a) }
    ensures err { OnErr result (RunsOut site.now request.now (C.seen cache.old) (C.seen cache.new)
        (L.line line.old) (L.line line.new) (T.log clock.old) (T.log clock.new)) }
{
    let subgraphs = subgraphs_of(alloc, site.config.subs.as_slice())?;
    let id = request.id.as_ref();
    match execute(
        alloc,
        &entry.plan,
        subgraphs.as_slice(),
        variables,
        cache,
        line,
        0,
        clock,
        id,
    ) {
        Ok((value, outcome)) => write_answer(alloc, site, entry, variables, &value, outcome),
        Err(memory) => Err(memory),
    }
}

/// Answers a request whose document has a plan.
fn answer_entry<C: Cache, L: Line, T: Clock>(
    alloc: Global,
    site: &Site,
    cache: &mut C,
    line: &mut L,
    clock: &mut T,
    request: &Request,
    entry: &Entry,
) -> Result<Answer, Memory>
    requires lawful { IsLawful site.now }
    requires planned { HasPlan site.now request.now entry.now }
    ensures ok { IfOk result
        (λ a. Answers site.now request.now (C.seen cache.old) (C.seen cache.new)
        (L.line line.old) (L.line line.new) (T.log clock.old) (T.log clock.new) a) }
    ensures err { OnErr result (RunsOut site.now request.now (C.seen cache.old) (C.seen cache.new)
        (L.line line.old) (L.line line.new) (T.log clock.old) (T.log clock.new)) }
{
    let operation = &entry.document.operations.as_slice()[0];
    if !is_named(&request.operation_name, &operation.name) {
        return refuse(alloc, Refusal::OperationUnknown);
    }
    match coerce(alloc, &site.schema, operation, &request.variables) {
        Ok(variables) => answer_plan(alloc, site, cache, line, clock, request, entry, &variables),
        Err(fault) => refuse(alloc, unfit(fault)?),
    }
}

/// Answers a request with this document.
fn answer_document<C: Cache, L: Line, T: Clock>(
    alloc: Global,
    site: &Site,
    cache: &mut C,
    line: &mut L,
    clock: &mut T,
    request: &Request,
    document: &Document,
) -> Result<Answer, Memory>
    requires lawful { IsLawful site.now }
    requires read { IsText document.now request.now.query }
    ensures ok { IfOk result
        (λ a. Answers site.now request.now (C.seen cache.old) (C.seen cache.new)
        (L.line line.old) (L.line line.new) (T.log clock.old) (T.log clock.new) a) }
    ensures err { OnErr result (RunsOut site.now request.now (C.seen cache.old) (C.seen cache.new)
        (L.line line.old) (L.line line.new) (T.log clock.old) (T.log clock.new)) }
{
    let text = canonical(alloc, document)?;
    match site.plans.find(&text) {
        Some(entry) => answer_entry(alloc, site, cache, line, clock, request, entry),
        None => refuse(alloc, Refusal::OperationUnknown),
    }
}

/// Answers a request over one line, which is number 0.
fn answer_request<C: Cache, L: Line, T: Clock>(
    alloc: Global,
    site: &Site,
    cache: &mut C,
    line: &mut L,
    clock: &mut T,
    request: &Request,
) -> Result<Answer, Memory>
    requires lawful { IsLawful site.now }
    ensures ok { IfOk result
        (λ a. Answers site.now request.now (C.seen cache.old) (C.seen cache.new)
        (L.line line.old) (L.line line.new) (T.log clock.old) (T.log clock.new) a) }
    ensures err { OnErr result (RunsOut site.now request.now (C.seen cache.old) (C.seen cache.new)
        (L.line line.old) (L.line line.new) (T.log clock.old) (T.log clock.new)) }
{
    match parse(alloc, &request.query) {
        Ok(document) => { answer_document(alloc, site, cache, line, clock, request, &document) }
        Err(fault) => refuse(alloc, unread(&request.query, fault)?),
    }
}

/// Answers one request, for every cache, line and clock. It is refused, with status 400, and nothing is asked: for a
/// document that can't be read, for an operation without a plan or of another name than the one asked for, and for
/// variables that can't be coerced, the first of these that applies. Else its plan is run, one fetch at a time over
/// line 0: the pieces of a fetch are looked up at one moment, those that are missing are asked for in one call, and each
/// permit is settled. The answer has status 200 also where fetches failed; their errors are told in it.
///
/// Each piece of an answer was fetched by this request, or was recorded from an earlier fetch as cacheable, fresh, public
/// or of the same caller, with no invalidation of its subgraph, type or tags since that fetch began (clause `headline`).
///
/// Fails only for want of memory, and then no permit is in hand. The crew is not asked: there is one call at a time.
pub fn run_request<W: Crew<L>, C: Cache, L: Line, T: Clock>(
    alloc: Global,
    _crew: &W,
    site: &Site,
    cache: &mut C,
    lines: &mut Vec<L>,
    clock: &mut T,
    request: &Request,
) -> Result<Answer, Memory>
    // There is a line, and the site is lawful.
    requires some { lines.old.items ≢ [] }
    requires lawful { IsLawful site.now }

    // It is refused for the first reason that applies, and nothing is asked; or its plan is run over
    // line 0, and it is answered. The other lines stand as before.
    ensures ok { IfOk result (λ a. OverFirst lines.old.items lines.new.items (λ l m.
        Answers site.now request.now (C.seen cache.old) (C.seen cache.new) (L.line l) (L.line m)
        (T.log clock.old) (T.log clock.new) a)) }

    // An answer of status 200 is the shaped execution of its plan over pieces that were fetched by
    // this request or were recorded and stand.
    ensures headline { IfOk result (λ a. OverFirst lines.old.items lines.new.items (λ l m.
        KeepsPromise site.now request.now (C.seen cache.new) (L.line l) (L.line m) a)) }

    // It blames the line for no more than what the line counted, or saw.
    ensures causes { IfOk result (λ a. OverFirst lines.old.items lines.new.items (λ l m.
        HasCauses (L.line l) (L.line m) a)) }

    // For want of memory nothing was asked; or some first fetches were done, and the next one was
    // dropped with each permit settled as Failed; or all were done.
    ensures err { OnErr result (OverFirst lines.old.items lines.new.items (λ l m.
        RunsOut site.now request.now (C.seen cache.old) (C.seen cache.new) (L.line l) (L.line m)
        (T.log clock.old) (T.log clock.new))) }
{
    each_piece_stands();
    answer_request(alloc, site, cache, &mut lines[0], clock, request)
}
