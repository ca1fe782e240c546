ghost use Rattle.std.specs.Prelude.{◌≡◌, ◌≤◌};
ghost use Rattle.std.specs.Option.{option_copied};
ghost use Rattle.cache_control.specs.Reading.{verdict_of};
ghost use Rattle.cache_control.specs.Rules.{IsVerdict};

use crate::rules::{age_of, no_rules, rules_of, said};
use cache_terms::Verdict;
use flow_base::Text;

/// What the header texts `Cache-Control` and `Age` of a reply say (RFC 9111, sections 4.2, 5.1 and 5.2): its
/// lifetime and age in seconds, at most 2147483648 each, whether it is for its caller alone, and whether it
/// must not be kept. A `Cache-Control` that is no list of directives says that it must not be kept. Takes no
/// memory, and goes over the texts once.
pub fn verdict(cache_control: Option<&Text>, age: Option<&Text>) -> Verdict
    // By the grammar: the directives of the text count, and a text that has none by it is not kept.
    ensures verdict { IsVerdict (option_copied cache_control.entry)
        (option_copied age.entry) result }

    ensures lifetime { result.lifetime ≤ 2147483648 }
    ensures age { result.age ≤ 2147483648 }
{
    said_by(cache_control, age)
}

fn said_by(cache_control: Option<&Text>, age: Option<&Text>) -> Verdict
    ensures { result ≡ verdict_of (option_copied cache_control.entry) (option_copied age.entry) }
{
    let age = match age {
        None => 0,
        Some(text) => age_of(text.as_str().as_bytes()),
    };
    match cache_control {
        None => said(no_rules(), age),
        Some(text) => match rules_of(text.as_str().as_bytes()) {
            Some(rules) => said(rules, age),
            None => Verdict {
                lifetime: 0,
                age,
                private: false,
                no_store: true,
            },
        },
    }
}
