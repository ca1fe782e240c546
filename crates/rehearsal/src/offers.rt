ghost use Rattle.std.specs.Prelude.{◌≡◌, ◌≤◌};
ghost use Rattle.std.specs.Option.{option_copied};
ghost use Rattle.cache_control.specs.Rules.{IsVerdict};
ghost use Rattle.rehearsal.specs.Acts.{offered, stated};

use cache_control::verdict;
use cache_terms::{Marks, Offer, Tags, Verdict};
use flow_base::Text;

/// A reply as it came, of whose marks only the status is known.
pub fn offered(status: u16, verdict: Verdict, tags: Tags, value: Text) -> Offer
    ensures { result ≡ offered status verdict tags value }
{
    Offer {
        value,
        tags,
        verdict,
        marks: Marks {
            status,
            errors: false,
            absent: false,
            mutation: false,
            uncached: false,
        },
    }
}

/// What a script states in place of headers.
pub fn stated(lifetime: u64, age: u64, private: bool) -> Verdict
    ensures { result ≡ stated lifetime age private }
{
    Verdict {
        lifetime,
        age,
        private,
        no_store: false,
    }
}

/// A reply with these header texts.
pub fn replied(
    status: u16,
    cache_control: Option<&Text>,
    age: Option<&Text>,
    tags: Tags,
    value: Text,
) -> Offer
    ensures verdict { IsVerdict
        (option_copied cache_control.entry) (option_copied age.entry) result.verdict }
    ensures offer { result ≡ offered status result.verdict tags value }
    ensures lifetime { result.verdict.lifetime ≤ 2147483648 }
    ensures age { result.verdict.age ≤ 2147483648 }
{
    offered(status, verdict(cache_control, age), tags, value)
}
