//! HTTP messages: requests and replies as they are read, responses and calls of subgraphs as they are
//! written (RFC 9112, in a profile that refuses what readers are known to disagree on).
//!
//! A contract relates the bytes to the message: an accepted head is one of `httparse`'s grammar, ends with
//! the first empty line, and says how long the body is. How the input is cut into pieces changes nothing.
#![tactic(auto)]

mod allowed;
mod body;
mod chunked;
mod close;
mod empty_line;
mod faults;
mod fields;
mod framing;
mod gather;
mod head;
mod kept;
mod laws;
mod lengths;
mod lines;
mod message;
mod read;
mod reply;
mod reply_body;
mod reply_head;
mod reply_texts;
mod response;
mod step;
mod wanted;
mod write;

pub use allowed::{can_be_sent, is_field_value, is_target};
pub use faults::WireFault;
pub use kept::Kept;
pub use laws::{
    a_call_has_one_head, a_call_is_read_back, a_response_has_one_head, a_response_is_read_back,
    the_same_bytes_give_one_answer, the_same_bytes_give_one_reply,
};
pub use message::{Field, Message};
pub use read::read_message;
pub use reply::read_reply_message;
pub use response::Response;
pub use write::{write_call, write_message};

#[cfg(test)]
mod tests;
