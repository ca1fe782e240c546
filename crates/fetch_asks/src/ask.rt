use flow_base::Text;

/// What a fetch asks of its subgraph.
#[derive(Drop)]
pub struct Ask {
    /// The subgraph's number in the site, and its name.
    pub sub: u64,
    pub name: Text,
    /// The body of the call before and behind the representations of the pieces that are asked for.
    pub front: Text,
    pub back: Text,
    /// Whether the pieces are entities; else there is one piece, the data of the operation.
    pub entities: bool,
    /// Whether the operation is a mutation.
    pub mutation: bool,
    /// Whether the site says that nothing of this subgraph is kept.
    pub uncached: bool,
}
