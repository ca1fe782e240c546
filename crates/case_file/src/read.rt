//! Reads a case.

ghost use Rattle.std.specs.Prelude.{◌≡◌, ◌≢◌, IfOk, IfErr, Ok, Err, IsTrue};
ghost use Rattle.cache_model.specs.State.{IsWithinRanges};
ghost use Rattle.plan_book.specs.Book.{AreLawful};
ghost use Rattle.plan_tree.specs.Lawful.{differ};
ghost use Rattle.router_config.specs.Rules.{names};
ghost use Rattle.router_config.specs.Lawful.{IsLawful, IsLawfulConfig};
ghost use Rattle.case_file.specs.declared.fault.CaseFault.TheVariants as faults;
ghost use Rattle.case_file.specs.Parts.{parts_of, parts_said};
ghost use Rattle.case_file.specs.Cases as spec;
ghost use Rattle.case_file.specs.Cases.{IsCase, IsTyped, IsMadeOf, OrMemory, content};

use crate::content::Case;
use crate::fault::CaseFault;
use crate::parts::{Parts, read_parts};
use cache_terms::Limits;
use flow_base::{Memory, Text};
use gql_schema::SdlFault;
use gql_types::Schema;
use json_read::read;
use json_value::{Json, JsonFault};
use plan_book::{PlanBook, PlanFault, read_plans};
use router_config::{Config, Site, SiteFault, SubRule};
use std::alloc::Global;
use tree_items::Items;

fn is_sdl_memory(fault: &SdlFault) -> bool
    ensures { result ≡ spec.is_sdl_memory fault.now }
{
    match fault {
        SdlFault::Memory => true,
        _ => false,
    }
}

/// The schema that the text is, or that it is none.
fn schema_of(alloc: Global, text: &Text) -> Result<Option<Schema>, Memory>
    ensures { IfOk result (λ o. spec.ReadsSchema text.now o) }
{
    match gql_schema::read(alloc, text) {
        Ok(schema) => Ok(Some(schema)),
        Err(fault) => {
            if is_sdl_memory(&fault) {
                Err(Memory)
            } else {
                Ok(None)
            }
        }
    }
}

fn is_plan_memory(fault: &PlanFault) -> bool
    ensures { result ≡ spec.is_plan_memory fault.now }
{
    match fault {
        PlanFault::Memory => true,
        _ => false,
    }
}

/// The plans that the value is, or that it is no plan file.
fn plans_of(alloc: Global, value: &Json) -> Result<Option<PlanBook>, Memory>
    ensures { IfOk result (λ o. spec.ReadsPlans value.now o) }
{
    match read_plans(alloc, value) {
        Ok(plans) => Ok(Some(plans)),
        Err(fault) => {
            if is_plan_memory(&fault) {
                Err(Memory)
            } else {
                Ok(None)
            }
        }
    }
}

/// The configuration of a case: no files, no address, no key and no id header; one worker and one line.
fn config_of(alloc: Global, subs: Items<SubRule>, limits: Limits) -> Result<Config, Memory>
    ensures { IfOk result (λ c. c ≡ spec.config_of subs limits) }
{
    Ok(Config {
        schema: Text::of(alloc, "")?,
        plans: Text::of(alloc, "")?,
        listen: Text::of(alloc, "")?,
        workers: 1,
        lines: 1,
        connections: 0,
        key: Text::of(alloc, "")?,
        id_header: None,
        limits,
        subs,
    })
}

/// The site of these parts, or that something is wrong with it.
fn site_of(config: Config, schema: Schema, plans: PlanBook) -> Result<Option<Site>, Memory>
    requires config { IsLawfulConfig config }
    requires plans { AreLawful plans.entries.items }
    ensures { IfOk result (λ o. spec.Builds config schema plans.entries.items o) }
{
    match Site::build(config, schema, plans) {
        Ok(site) => Ok(Some(site)),
        Err(SiteFault::Memory) => Err(Memory),
        Err(_) => Ok(None),
    }
}

/// The case with these members.
#[tactic(auto, using(crate::proofs::Made::without_schema, crate::proofs::Made::without_plans, crate::proofs::Made::without_site, crate::proofs::Made::with_site, crate::proofs::Made::lawful_config))]
fn case_of<'a>(alloc: Global, parts: Parts<'a>) -> Result<Case, CaseFault>
    requires limits { IsWithinRanges parts.limits }
    requires distinct { IsTrue (differ (names parts.subs)) }
    ensures case { OrMemory (IsTyped (parts_said parts.entry)) result }
    ensures lawful { IfOk result (λ c. IsLawful c.site) }
{
    let Parts {
        schema,
        plans,
        subs,
        limits,
        requests,
        replies,
    } = parts;
    let Some(schema) = schema_of(alloc, schema)? else {
        return Err(CaseFault::Schema);
    };
    let Some(plans) = plans_of(alloc, plans)? else {
        return Err(CaseFault::Plans);
    };
    let config = config_of(alloc, subs, limits)?;
    let Some(site) = site_of(config, schema, plans)? else {
        return Err(CaseFault::Site);
    };
    Ok(Case {
        site,
        requests,
        replies,
    })
}

/// The case that the value is.
fn read_value(alloc: Global, value: &Json) -> Result<Case, CaseFault>
    ensures case { OrMemory (IsMadeOf (parts_of value.now)) result }
    ensures lawful { IfOk result (λ c. IsLawful c.site) }
{
    let parts = read_parts(alloc, value)?;
    case_of(alloc, parts)
}

fn unread(fault: JsonFault) -> CaseFault
    ensures { result ≡ spec.unread fault }
{
    match fault {
        JsonFault::Memory => CaseFault::Memory,
        _ => CaseFault::Json,
    }
}

/// The case that the bytes are, or its first fault: they are no JSON; a member is missing or of another form, the first of
/// them in their order; the schema is none (GraphQL October 2021, section 3); the plans are no plan file; or the plans do not
/// fit the schema and the subgraphs. `Memory` where memory runs out.
///
/// It takes time in the length of the bytes, as `read`, `read_plans` and `Site::build` have it, and compares the names of
/// the subgraphs each with each.
pub fn read_case(alloc: Global, bytes: &[u8]) -> Result<Case, CaseFault>
    // They are a case with this content.
    ensures case { IfOk result (λ c. IsCase bytes.now (Ok (content c))) }

    // Else this is their first fault.
    ensures fault { IfErr result (λ f. f ≢ faults.Memory → IsCase bytes.now (Err f)) }

    // Its parts fit one another, so that its site may be asked.
    ensures lawful { IfOk result (λ c. IsLawful c.site) }
{
    match read(alloc, bytes) {
        Ok(value) => read_value(alloc, &value),
        Err(fault) => Err(unread(fault)),
    }
}
