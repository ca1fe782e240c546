ghost use Rattle.std.specs.Prelude.{◌≡◌, ◌++◌, decimal, codes, true, if◌then◌else◌, OnOk};
ghost use Rattle.http_wire.specs.Writing.{close_line, field_line, has_reason, id_line, optional_line, reason_of, status_line};

use crate::Field;
use flow_base::{Memory, Text};
use itoa::Buffer;

// Appends the line of a field.
pub(crate) fn put_field(out: &mut Vec<u8>, name: &[u8], value: &[u8]) -> Result<(), Memory>
    ensures { OnOk result (out.new.items ≡ out.old.items ++ field_line name.now value.now) }
{
    out.extend_from_slice(name)?;
    out.extend_from_slice(b": ")?;
    out.extend_from_slice(value)?;
    out.extend_from_slice(b"\r\n")?;
    Ok(())
}

// Appends the line of a field, where it has a value.
pub(crate) fn put_optional(
    out: &mut Vec<u8>,
    name: &[u8],
    value: &Option<Text>,
) -> Result<(), Memory>
    ensures { OnOk result (out.new.items ≡ out.old.items ++ optional_line name.now value.now) }
{
    match value {
        None => Ok(()),
        Some(value) => Ok(put_field(out, name, value.as_str().as_bytes())?),
    }
}

// Appends the line of the field that carries the caller's id, where there is one.
pub(crate) fn put_id(out: &mut Vec<u8>, id: &Option<Field>) -> Result<(), Memory>
    ensures { OnOk result (out.new.items ≡ out.old.items ++ id_line id.now) }
{
    match id {
        None => Ok(()),
        Some(field) => Ok(put_field(out, field.name.as_str().as_bytes(), field.value.as_slice())?),
    }
}

// Appends the line that gives a body's length.
pub(crate) fn put_length(out: &mut Vec<u8>, count: usize) -> Result<(), Memory>
    ensures { OnOk result
        (out.new.items ≡ out.old.items ++ field_line (codes "content-length") (decimal count)) }
{
    let mut buffer = Buffer::new();
    Ok(put_field(out, b"content-length", buffer.format(count).as_bytes())?)
}

// Appends the line that says that the connection ends, where it does.
pub(crate) fn put_close(out: &mut Vec<u8>, close: bool) -> Result<(), Memory>
    ensures { OnOk result (out.new.items ≡ out.old.items ++ close_line close) }
{
    if close {
        Ok(put_field(out, b"connection", b"close")?)
    } else {
        Ok(())
    }
}

// Appends the first line of a response.
pub(crate) fn put_status(out: &mut Vec<u8>, status: u16) -> Result<(), Memory>
    requires { has_reason status ≡ true }
    ensures { OnOk result (out.new.items ≡ out.old.items ++ status_line status) }
{
    let mut buffer = Buffer::new();
    out.extend_from_slice(b"HTTP/1.1 ")?;
    out.extend_from_slice(buffer.format(status).as_bytes())?;
    out.extend_from_slice(b" ")?;
    out.extend_from_slice(reason_of(status).as_bytes())?;
    out.extend_from_slice(b"\r\n")?;
    Ok(())
}

fn reason_of(status: u16) -> &'static str
    requires { has_reason status ≡ true }
    ensures { result.now ≡ reason_of status }
{
    match status {
        200 => "OK",
        400 => "Bad Request",
        401 => "Unauthorized",
        404 => "Not Found",
        405 => "Method Not Allowed",
        _ => "Content Too Large",
    }
}
