ghost use Rattle.std.specs.Prelude.{◌≡◌, true, IfOk};
ghost use Rattle.http_wire.specs.Writing.{call_bytes, response_bytes, has_reason};
ghost use Rattle.http_wire.specs.Writing.{can_be_sent_where_there, is_field_value, is_target, is_value_where_there};

use crate::lines::{put_close, put_field, put_id, put_length, put_optional, put_status};
use crate::{Field, Response};
use flow_base::{Bytes, Memory};
use std::alloc::Global;

/// The bytes of a response: status line, `content-type`, `content-length`, `allow` and `cache-control`
/// where they are there, `connection: close` where the connection ends, an empty line, and the body
/// (RFC 9112). The status is 200, 400, 401, 404, 405 or 413, and no value has a line end in it. Fails
/// only for want of memory.
pub fn write_message(alloc: Global, response: &Response) -> Result<Bytes, Memory>
    requires status { has_reason response.now.status ≡ true }
    requires allow { is_value_where_there response.now.allow ≡ true }
    requires cache_control { is_value_where_there response.now.cache_control ≡ true }
    ensures { IfOk result (λ b. b ≡ response_bytes response.now) }
{
    let mut out = Vec::new(alloc);
    put_status(&mut out, response.status)?;
    put_field(&mut out, b"content-type", b"application/json")?;
    put_length(&mut out, response.body.len())?;
    put_optional(&mut out, b"allow", &response.allow)?;
    put_optional(&mut out, b"cache-control", &response.cache_control)?;
    put_close(&mut out, response.close)?;
    out.extend_from_slice(b"\r\n")?;
    out.extend_from_slice(response.body.as_str().as_bytes())?;
    Ok(Bytes::from_vec(out))
}

/// The bytes of a call of a subgraph: `POST path HTTP/1.1`, `host`, `content-type`, `accept`, the field
/// that carries the caller's id where there is one, `content-length`, `connection: close`, an empty line,
/// and the body (RFC 9112). What goes in can't break the framing: no line end stands in it, and the field
/// has neither of the names that frame a body. Fails only for want of memory.
pub fn write_call(
    alloc: Global,
    path: &str,
    host: &str,
    id: &Option<Field>,
    body: &[u8],
) -> Result<Bytes, Memory>
    requires path { is_target path.now ≡ true }
    requires host { is_field_value host.now ≡ true }
    requires id { can_be_sent_where_there id.now ≡ true }
    ensures { IfOk result (λ b. b ≡ call_bytes path.now host.now id.now body.now) }
{
    let mut out = Vec::new(alloc);
    out.extend_from_slice(b"POST ")?;
    out.extend_from_slice(path.as_bytes())?;
    out.extend_from_slice(b" HTTP/1.1\r\n")?;
    put_field(&mut out, b"host", host.as_bytes())?;
    put_field(&mut out, b"content-type", b"application/json")?;
    put_field(&mut out, b"accept", b"application/json")?;
    put_id(&mut out, id)?;
    put_length(&mut out, body.len())?;
    put_field(&mut out, b"connection", b"close")?;
    out.extend_from_slice(b"\r\n")?;
    out.extend_from_slice(body)?;
    Ok(Bytes::from_vec(out))
}
