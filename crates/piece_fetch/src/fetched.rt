use flow_base::Text;
use json_tree::Json;
use reply_read::ReplyFault;

/// Where a piece comes from: what the cache keeps, by the positions of the lookup and of what is stored; the reply to a
/// call of this fetch, by the numbers of the line and of the call over it; or nowhere, since the call failed or the
/// subgraph answered null.
#[derive(Clone, Copy, Debug, PartialEq, Eq)]
pub enum Origin {
    Hit { lookup: u64, stored: u64 },
    Own { line: u64, call: u64 },
    Absent,
}

/// How long an answer that shows a piece may be kept: the milliseconds that are left to the piece, and whether it is
/// for its caller alone (RFC 9111, sections 4.2 and 5.2.2.7).
#[derive(Clone, Copy, Debug, PartialEq, Eq)]
pub struct Lasts {
    pub left_ms: u64,
    pub private: bool,
}

/// What went wrong with the call of a fetch: no reply came; the reply was too long, with so many bytes; its status is
/// not 200; it can't be read; or it was read, and holds an error of this text.
#[derive(Debug, Drop)]
pub enum Cause {
    Unreachable,
    TooLong(u64),
    Status(u16),
    BadReply(ReplyFault),
    Subgraph(Text),
}

/// What a fetch gives. `pieces`, `origins` and `lasts` have one entry for each key, in order: the piece, null where it
/// is absent; where it comes from; and how long it lasts, None where the call failed, the piece is absent, or there is a
/// reason not to keep it. `causes` says what went wrong, one where no reply was read, else one for each error in it.
/// `first_sent` is the index of the first piece that was asked for, None where nothing was.
#[derive(Drop)]
pub struct Fetched {
    pub pieces: Vec<Json>,
    pub origins: Vec<Origin>,
    pub lasts: Vec<Option<Lasts>>,
    pub causes: Vec<Cause>,
    pub first_sent: Option<u64>,
}
