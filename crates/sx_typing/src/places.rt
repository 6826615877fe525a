//! Places in a source's file.

ghost use Rattle.std.specs.Prelude.{◌≡◌, ◌≤◌, drop, length};
ghost use Rattle.sx_typing.specs.Refused.{IsSpot, defect_place, unread_place};
ghost use Rattle.sx_typing.specs.BodySource.{source_of};

use crate::body_source::BodySource;
use crate::spots::{Spot, spot_of};
use sx_interface::Header;
use sx_notation::Unread;
use sx_token::TokenError;

/// The bytes of the body.
pub(crate) fn body_of<'a>(bytes: &'a [u8], header: &Header) -> &'a [u8]
    ensures { result.now ≡ drop header.now.body bytes.entry.now }
{
    match bytes.get(header.body..) {
        Some(body) => body,
        None => &[],
    }
}

/// The line and the column of a place in the body, in the module's file.
pub(crate) fn body_spot(source: &BodySource, place: usize) -> Spot
    requires { place ≤ length (source_of source.now).header.body }
    ensures { IsSpot (source_of source.now) place result.line result.column }
{
    let body = body_of(source.bytes, source.header);
    spot_of(source.bytes, source.bytes.len() - body.len() + place)
}

/// The place that the defect tells, or 0 where it tells none.
pub fn defect_place(error: &TokenError) -> usize
    ensures { result ≡ defect_place error.now }
{
    match error {
        TokenError::NotUtf8(place) => *place as usize,
        TokenError::BadToken(place) => *place as usize,
        TokenError::OpenString(place) => *place as usize,
        _ => 0,
    }
}

/// The place that is told of a text that is not read, or 0 where none is told.
pub fn unread_place(unread: &Unread) -> usize
    ensures { result ≡ unread_place unread.now }
{
    match unread {
        Unread::NoReading(place) => *place,
        _ => 0,
    }
}
