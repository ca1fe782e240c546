use flow_base::Text;
use plan_run::{PieceError, Receipt};

/// What a request is answered with: the status and the body of the response, how long it may be kept (RFC 9111, section
/// 5.2.2), None for a refusal; and where each piece of each fetch came from and what went wrong, in the order in which the
/// fetches were done.
#[derive(Drop)]
pub struct Answer {
    pub status: u16,
    pub body: Text,
    pub cache_control: Option<Text>,
    pub receipts: Vec<Receipt>,
    pub errors: Vec<PieceError>,
}
