//! Text, bytes, and the traits of what lies outside the program.
//!
//! A contract sees a text as its UTF-8 bytes and a byte string as its bytes. What is read from and
//! written to lies behind two traits, `Source` and `Sink`, whose clauses say what each call takes or
//! appends and when a failure may be answered. The time comes from a `Clock`, which may tell the
//! moments that it gave.
#![tactic(auto)]

mod bytes;
mod causes;
mod clock;
mod short;
mod sink;
mod source;
mod take;
mod text;

pub use bytes::Bytes;
pub use causes::{Failed, Memory};
pub use clock::{Clock, ListClock};
pub use sink::{MemSink, Sink, put_all};
pub use source::{MemSource, Source};
pub use take::{TakeFault, take_all};
pub use text::Text;

#[cfg(test)]
mod tests;
