ghost use Rattle.std.specs.Prelude.{◌≡◌, ◌<◌, [], length, IfSome, IfNone};
ghost use Rattle.httparse.specs.Grammar.{RequestHead, ReadsRequest};
ghost use Rattle.httparse.specs.Spans.{IsRequestAt, IsRequestWithin};
ghost use Rattle.http_wire.specs.Heads.{OpensOr};

use crate::Field;
use crate::close::closes;
use crate::fields::{kept_fields, text_of};
use crate::lengths::declared_length;
use flow_base::{Memory, Text};
use httparse::Status;
use httparse::spans::{EMPTY_HEADER_SPAN, HeaderSpan, RequestSpans, parse_request};
use std::alloc::Global;

// What the head of a request says.
#[derive(Drop)]
pub(crate) struct Opened {
    pub method: Text,
    pub target: Text,
    pub fields: Vec<Field>,
    pub close: bool,
    pub length: u64,
}

// Why a head was not opened.
#[derive(Clone, Copy)]
pub(crate) enum HeadFault {
    Bad,
    Memory,
}

// The parts of the request head that the bytes are.
fn whole_request(bytes: &[u8], spans: &mut [HeaderSpan]) -> Option<RequestSpans>
    ensures within { IfSome result (IsRequestWithin bytes.now spans.new) }
    ensures found { IfSome result (λ r. (h : RequestHead) × IsRequestAt bytes.now spans.new r h
        × (r.len ≡ length bytes.now)) }
    ensures none { IfNone result
        ((h : RequestHead) → ReadsRequest bytes.now h [] → length spans.old < length h.fields) }
    ensures room { length spans.new ≡ length spans.old }
{
    match parse_request(bytes, spans) {
        Ok(Status::Complete(head)) => {
            if head.len == bytes.len() {
                Some(head)
            } else {
                None
            }
        }
        _ => None,
    }
}

// Opens the head that the bytes are.
pub(crate) fn open_head(alloc: Global, bytes: &[u8]) -> Result<Opened, HeadFault>
    ensures opens { OpensOr bytes.now result }
{
    let mut spans = [EMPTY_HEADER_SPAN; 100];
    let head = match whole_request(bytes, &mut spans) {
        None => return Err(HeadFault::Bad),
        Some(head) => head,
    };
    let fields = match kept_fields(alloc, bytes, &spans[..head.headers]) {
        Err(Memory) => return Err(HeadFault::Memory),
        Ok(fields) => fields,
    };
    let length = match declared_length(fields.as_slice()) {
        None => return Err(HeadFault::Bad),
        Some(length) => length,
    };
    let close = closes(head.version, fields.as_slice());
    let method = match text_of(alloc, head.method.of(bytes)) {
        Err(Memory) => return Err(HeadFault::Memory),
        Ok(method) => method,
    };
    let target = match text_of(alloc, head.path.of(bytes)) {
        Err(Memory) => return Err(HeadFault::Memory),
        Ok(target) => target,
    };
    Ok(Opened {
        method,
        target,
        fields,
        close,
        length,
    })
}
