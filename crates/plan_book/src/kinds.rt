/// What a node of a plan is.
#[derive(Clone, Copy)]
pub enum Kind {
    Fetch,
    Flatten,
    Sequence,
    Parallel,
}

/// Where a plan's nodes stand: in which entry, and whether its operation is a query.
#[derive(Clone, Copy)]
pub struct Standing {
    pub entry: u64,
    pub of_query: bool,
}
