ghost use Rattle.std.specs.Prelude.{◌≡◌, ◌≤◌};
ghost use Rattle.http_wire.specs.Replies.{ReplyOr, IsReplyOf};

use crate::gather::gather_head;
use crate::head::HeadFault;
use crate::reply_body::read_body;
use crate::reply_head::{ReplyHead, open_reply};
use crate::{Kept, WireFault};
use cache_terms::Reply;
use flow_base::{Bytes, Source};
use std::alloc::Global;

/// Reads one reply of a subgraph from the source (RFC 9112): a head of HTTP/1.0 or 1.1 with at most 100
/// fields and 16384 bytes, and a body that is chunked, has the length of `content-length`, or goes to the
/// end of the input, of at most 4194304 bytes. The values of several `cache-control` fields are joined by
/// a comma and a space, of several `age` fields the first counts, and a value that is not UTF-8 becomes a
/// question mark. An input that ends at once is `Cut(0)`. The connection is not used again.
pub fn read_reply_message<S: Source>(alloc: Global, source: &mut S) -> Result<Reply, WireFault>
    ensures reads { ReplyOr (S.left source.old) (S.left source.new) (S.faults source.old)
        (S.faults source.new) result }
    ensures later { S.faults source.old ≤ S.faults source.new }
{
    let mut kept = Kept::empty(alloc);
    let count = match gather_head(source, &mut kept) {
        Err(fault) => return Err(fault),
        Ok(None) => return Err(WireFault::Cut(0)),
        Ok(Some(count)) => count,
    };
    let head = match open_reply(alloc, &kept.as_slice()[..count]) {
        Err(HeadFault::Bad) => return Err(WireFault::Bad(count as u64)),
        Err(HeadFault::Memory) => return Err(WireFault::Memory),
        Ok(head) => head,
    };
    match read_body(alloc, source, &mut kept, count, head.framing) {
        Err(fault) => Err(fault),
        Ok(body) => Ok(with_body(head, body)),
    }
}

fn with_body(head: ReplyHead, body: Bytes) -> Reply
    ensures head { IsReplyOf result head }
    ensures body { result.body ≡ body }
{
    let ReplyHead {
        status,
        cache_control,
        age,
        framing: _,
    } = head;
    Reply {
        status,
        cache_control,
        age,
        body,
    }
}
