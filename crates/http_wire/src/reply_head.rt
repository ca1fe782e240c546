ghost use Rattle.std.specs.Prelude.{◌≡◌, ◌<◌, [], length, IfSome, IfNone};
ghost use Rattle.httparse.specs.Grammar.{ResponseHead, ReadsResponse};
ghost use Rattle.httparse.specs.Spans.{IsResponseAt, IsResponseWithin};
ghost use Rattle.http_wire.specs.Framings.{OpensReplyOr};

use crate::fields::kept_fields;
use crate::framing::{Framing, framing_of};
use crate::head::HeadFault;
use crate::reply_texts::{first_text, joined};
use flow_base::{Memory, Text};
use httparse::Status;
use httparse::spans::{EMPTY_HEADER_SPAN, HeaderSpan, ResponseSpans, parse_response};
use std::alloc::Global;

// What the head of a reply says.
#[derive(Drop)]
pub(crate) struct ReplyHead {
    pub status: u16,
    pub cache_control: Option<Text>,
    pub age: Option<Text>,
    pub framing: Framing,
}

// The parts of the head of a reply that the bytes are.
fn whole_response(bytes: &[u8], spans: &mut [HeaderSpan]) -> Option<ResponseSpans>
    ensures within { IfSome result (IsResponseWithin bytes.now spans.new) }
    ensures found { IfSome result (λ r. (h : ResponseHead) × IsResponseAt bytes.now spans.new r h
        × (r.len ≡ length bytes.now)) }
    ensures none { IfNone result
        ((h : ResponseHead) → ReadsResponse bytes.now h [] → length spans.old < length h.fields) }
    ensures room { length spans.new ≡ length spans.old }
{
    match parse_response(bytes, spans) {
        Ok(Status::Complete(head)) => {
            if head.len == bytes.len() {
                Some(head)
            } else {
                None
            }
        }
        _ => None,
    }
}

// Opens the head of a reply that the bytes are.
pub(crate) fn open_reply(alloc: Global, bytes: &[u8]) -> Result<ReplyHead, HeadFault>
    ensures opens { OpensReplyOr bytes.now result }
{
    let mut spans = [EMPTY_HEADER_SPAN; 100];
    let head = match whole_response(bytes, &mut spans) {
        None => return Err(HeadFault::Bad),
        Some(head) => head,
    };
    let fields = match kept_fields(alloc, bytes, &spans[..head.headers]) {
        Err(Memory) => return Err(HeadFault::Memory),
        Ok(fields) => fields,
    };
    let framing = match framing_of(fields.as_slice()) {
        None => return Err(HeadFault::Bad),
        Some(framing) => framing,
    };
    let cache_control = match joined(alloc, fields.as_slice(), b"cache-control") {
        Err(Memory) => return Err(HeadFault::Memory),
        Ok(text) => text,
    };
    let age = match first_text(alloc, fields.as_slice(), b"age") {
        Err(Memory) => return Err(HeadFault::Memory),
        Ok(text) => text,
    };
    Ok(ReplyHead {
        status: head.code,
        cache_control,
        age,
        framing,
    })
}
