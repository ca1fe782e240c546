ghost use Rattle.std.specs.Prelude.{◌≡◌, IfOk};
ghost use Rattle.cache_terms.specs.Offers.{offer_size, why_of};

use crate::{Tags, Why};
use flow_base::{Memory, Text};

/// How long a reply may be kept, by its headers (RFC 9111, sections 4.2, 5.1 and 5.2). `lifetime` and
/// `age` are seconds, at most 2147483648 each.
#[derive(Clone, Copy, Debug, PartialEq, Eq)]
pub struct Verdict {
    pub lifetime: u64,
    pub age: u64,
    pub private: bool,
    pub no_store: bool,
}

/// What is known of a fetched piece beside its headers: the HTTP status, whether the reply has errors,
/// whether the piece is null, whether the fetch is a mutation, and whether its subgraph is not cached.
#[derive(Clone, Copy, Debug, PartialEq, Eq)]
pub struct Marks {
    pub status: u16,
    pub errors: bool,
    pub absent: bool,
    pub mutation: bool,
    pub uncached: bool,
}

/// A piece as it was fetched.
#[derive(Debug, Drop)]
pub struct Offer {
    pub value: Text,
    pub tags: Tags,
    pub verdict: Verdict,
    pub marks: Marks,
}

impl Offer {
    /// The bytes of the value and of the known tags, or `u64::MAX` where that is more.
    pub fn size(&self) -> u64
        ensures { result ≡ offer_size self.now }
    {
        (self.value.len() as u64).saturating_add(self.tags.size())
    }

    /// A copy. Fails only for want of memory.
    pub fn copy(&self) -> Result<Offer, Memory>
        ensures { IfOk result (λ o. o ≡ self.now) }
    {
        Ok(Offer {
            value: self.value.copy()?,
            tags: self.tags.copy()?,
            verdict: self.verdict,
            marks: self.marks,
        })
    }
}

/// The first reason not to keep a piece, in the order of `Why`. `named` says whether its caller has an
/// id. Takes no memory.
pub fn why(offer: &Offer, named: bool) -> Option<Why>
    ensures { result ≡ why_of offer.now.marks offer.now.verdict offer.now.tags named }
{
    if offer.marks.status != 200 {
        return Some(Why::Status(offer.marks.status));
    }
    if offer.marks.mutation {
        return Some(Why::Mutation);
    }
    if offer.marks.uncached {
        return Some(Why::Uncached);
    }
    if offer.marks.errors {
        return Some(Why::Errors);
    }
    if offer.marks.absent {
        return Some(Why::Absent);
    }
    if offer.verdict.no_store {
        return Some(Why::NoStore);
    }
    if offer.verdict.lifetime <= offer.verdict.age {
        return Some(Why::Stale {
            lifetime: offer.verdict.lifetime,
            age: offer.verdict.age,
        });
    }
    if offer.verdict.private && !named {
        return Some(Why::Anonymous);
    }
    match &offer.tags {
        Tags::Known(_) => None,
        Tags::Many(count) => Some(Why::TagCount(*count)),
        Tags::Malformed => Some(Why::TagForm),
    }
}
