ghost use Rattle.std.specs.Prelude.{◌≡◌, codes};
ghost use Rattle.http_wire.specs.Framings.{by_coding, by_lengths, framing_of};
ghost use Rattle.http_wire.specs.Heads.{values_of};

use crate::Field;
use crate::fields::first_named;
use crate::lengths::number_of;

// How the end of a reply's body is found.
#[derive(Clone, Copy)]
pub(crate) enum Framing {
    Length(u64),
    Chunked,
    ToEnd,
}

// The framing that the fields of a reply give; None where it is not accepted.
pub(crate) fn framing_of(fields: &[Field]) -> Option<Framing>
    ensures { result ≡ framing_of fields.now }
{
    match first_named(fields, b"transfer-encoding") {
        None => framing_by_length(fields),
        Some((coding, rest)) => match first_named(rest, b"transfer-encoding") {
            Some(_) => None,
            None => framing_by_coding(coding),
        },
    }
}

fn framing_by_coding(coding: &[u8]) -> Option<Framing>
    ensures { result ≡ by_coding coding.now }
{
    if coding.eq_ignore_ascii_case(b"chunked") {
        Some(Framing::Chunked)
    } else {
        None
    }
}

fn framing_by_length(fields: &[Field]) -> Option<Framing>
    ensures { result ≡ by_lengths (values_of (codes "content-length") fields.now) }
{
    match first_named(fields, b"content-length") {
        None => Some(Framing::ToEnd),
        Some((value, rest)) => match first_named(rest, b"content-length") {
            Some(_) => None,
            None => match number_of(value) {
                None => None,
                Some(number) => Some(Framing::Length(number)),
            },
        },
    }
}
