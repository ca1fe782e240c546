use crate::{Cause, Lasts};
use cache_terms::Verdict;
use json_tree::Json;
use reply_read::Pieces;

/// What came of a fetch's call: nothing was sent; no readable reply came; or a reply came, with this status and verdict,
/// and gives these pieces.
#[derive(Drop)]
pub enum Coming {
    Nothing,
    Lost(Cause),
    Came {
        status: u16,
        verdict: Verdict,
        pieces: Pieces,
    },
}

/// What a call brings of a piece: the piece, null where it is absent, and how long it lasts.
#[derive(Drop)]
pub struct Brought {
    pub value: Json,
    pub lasts: Option<Lasts>,
}
