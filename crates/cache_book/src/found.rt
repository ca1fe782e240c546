use crate::Permit;
use flow_base::Text;

/// The answer to one ask: the piece that is chosen, or a permit to settle what is fetched in its place.
///
/// `lookup` is the position of the ask's own event, `stored` that of the piece, and `left_ms` the milliseconds
/// for which the piece is still good.
pub enum Found {
    Hit {
        lookup: u64,
        stored: u64,
        value: Text,
        left_ms: u64,
        private: bool,
    },
    Miss {
        lookup: u64,
        permit: Permit,
    },
    Bypass {
        permit: Permit,
    },
}
