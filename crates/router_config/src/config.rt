use cache_terms::Limits;
use flow_base::Text;
use json_value::Json;
use tree_items::Items;

/// A subgraph: its name, the `host:port` and the path at which it is asked, and whether its pieces may be kept.
#[derive(Debug, Drop)]
pub struct SubRule {
    pub name: Text,
    pub address: Text,
    pub path: Text,
    pub cached: bool,
}

/// What a router is configured with.
#[derive(Debug, Drop)]
pub struct Config {
    /// The file of the schema.
    pub schema: Text,
    /// The file of the plans.
    pub plans: Text,
    /// The `host:port` at which clients are awaited.
    pub listen: Text,
    /// How many workers serve, 1 to 64.
    pub workers: u32,
    /// How many lines to subgraphs each worker has, 1 to 16.
    pub lines: u32,
    /// After how many connections a worker ends; 0 is never.
    pub connections: u64,
    /// The key of whoever may invalidate.
    pub key: Text,
    /// The header field that names the caller, in lower case.
    pub id_header: Option<Text>,
    pub limits: Limits,
    /// The subgraphs. A subgraph's number is its place in this list, from 0.
    pub subs: Items<SubRule>,
}

/// What a client asks: a GraphQL document, the name of its operation, the values of its variables as an object, and who
/// the caller is, where that is known.
#[derive(Debug, Drop)]
pub struct Request {
    pub query: Text,
    pub operation_name: Option<Text>,
    pub variables: Json,
    pub id: Option<Text>,
}
