ghost use Rattle.std.specs.Prelude.{◌≡◌, ◌↔◌, [], IsOk, IfOk, IfErr, OnOk, IsSome, IfSome, Contains};
ghost use Rattle.router_config.specs.Rules.{number_of};

use crate::check::check_entries;
use crate::config::{Config, SubRule};
use crate::fault::SiteFault;
use flow_base::Text;
use gql_types::Schema;
use plan_book::PlanBook;

/// A configuration with the schema and the plans that it names, which fit one another.
#[derive(Drop)]
pub struct Site {
    pub config: Config,
    pub schema: Schema,
    pub plans: PlanBook,
}

impl Site {
    ghost use Rattle.router_config.specs.Rules as rules;
    ghost use Rattle.router_config.specs.Faults.{faults_of, IsFirstFault};
    ghost use Rattle.router_config.specs.Lawful.{EntriesFit, IsLawful, IsLawfulConfig};
    ghost use Rattle.plan_book.specs.Book.{AreLawful};

    /// The site of these parts, or the first fault, entry by entry: in an entry its fetches' subgraphs are looked at first,
    /// then its variables' types. It takes memory only for the name in a fault, and takes time in the number of fetches
    /// times that of the rules, and in the number of variables times that of the types.
    pub fn build(config: Config, schema: Schema, plans: PlanBook) -> Result<Site, SiteFault>
        // Exactly where nothing is wrong there is a site.
        ensures ok { IsOk result ↔ (faults_of config.subs schema plans.entries.items ≡ []) }

        // It has these parts, unchanged.
        ensures config { IfOk result (λ site. site.config ≡ config) }
        ensures schema { IfOk result (λ site. site.schema ≡ schema) }
        ensures plans { IfOk result (λ site. site.plans ≡ plans) }

        // Then each fetch names a rule, and each variable's innermost type is an input type.
        ensures fits { OnOk result (EntriesFit config.subs schema plans.entries.items) }

        // So a site of lawful parts is lawful.
        ensures lawful { IfOk result (λ site.
            IsLawfulConfig config → AreLawful plans.entries.items → IsLawful site) }

        // Else the answer is the first fault.
        ensures fault { IfErr result
            (IsFirstFault (faults_of config.subs schema plans.entries.items)) }
    {
        match check_entries(config.subs.as_slice(), &schema, &plans.entries) {
            Ok(()) => Ok(Site {
                config,
                schema,
                plans,
            }),
            Err(fault) => Err(fault),
        }
    }

    /// The number of the subgraph with this name, which is its place in the configuration, and None exactly where no
    /// subgraph has the name. Takes time in the number of subgraphs.
    pub fn number_of(&self, name: &Text) -> Option<u64>
        ensures number { result ≡ rules.number_of self.now.config.subs name.now }
        ensures rule { IfSome result (rules.IsNumberOf self.now.config.subs name.now) }
        ensures known { IsSome result ↔ Contains (rules.names self.now.config.subs) name.now }
    {
        number_in(self.config.subs.as_slice(), name)
    }
}

fn number_in(rules: &[SubRule], name: &Text) -> Option<u64>
    ensures { result ≡ number_of rules.now name.now }
{
    for i in 0..rules.len() {
        if rules[i].name.as_str() == name.as_str() {
            return Some(i as u64);
        }
    }
    None
}
