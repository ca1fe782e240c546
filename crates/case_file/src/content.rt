use line_base::Scripted;
use router_config::{Request, Site};
use tree_items::Items;

/// A request of a case, and the moment at which it is made, in milliseconds.
#[derive(Debug, Drop)]
pub struct Timed {
    pub moment: u64,
    pub request: Request,
}

/// A case: the site that its schema, plans and subgraphs make, the requests that are made one after the other, and the
/// replies that come, each for the subgraph with its number in the site.
#[derive(Drop)]
pub struct Case {
    pub site: Site,
    pub requests: Items<Timed>,
    pub replies: Items<Scripted>,
}
