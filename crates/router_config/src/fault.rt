use flow_base::Text;
use thiserror::Error;

/// Why a configuration, a schema and plans make no site: the first fault, entry by entry of the plans, from 0. In an entry
/// its fetches come first, in their order, then its variables.
#[derive(Debug, Drop, Error)]
pub enum SiteFault {
    /// In this entry, a fetch asks a subgraph of this name, which no rule has.
    #[error("a plan asks an unknown subgraph")]
    UnknownSubgraph(u64, Text),
    /// In this entry, a variable's innermost type is of this name, which is no input type of the schema.
    #[error("a variable is of no input type")]
    UnknownType(u64, Text),
    /// Memory ran out.
    #[error("memory ran out")]
    Memory,
}
