//! Why a text is refused, as plain values.

use sx_lines::Kind;
use sx_notation::{NotationError, Unread};
use sx_token::TokenError;

/// What comes of a text that is read. Lines count from 1, places from 0.
#[derive(Clone, Copy, PartialEq)]
pub enum Told {
    /// It is read.
    Read,
    /// So many bytes are UTF-8.
    NotUtf8(usize),
    /// The line is bad, and what is bad about it.
    BadLine(u32, Kind),
    /// No token begins in the line at this place.
    BadToken(u32, u32),
    /// The line has no reading that goes on at this place.
    NoReading(u32, usize),
    /// Anything else.
    Other,
}

/// Why the text is refused.
pub fn refusal(error: &NotationError) -> Told {
    match error {
        NotationError::NotUtf8(place) => Told::NotUtf8(*place),
        NotationError::Notation { line, kind } => Told::BadLine(*line, *kind),
        NotationError::Token {
            line,
            error: TokenError::BadToken(place),
        } => Told::BadToken(*line, *place),
        NotationError::Read {
            line,
            error: Unread::NoReading(place),
        } => Told::NoReading(*line, *place),
        _ => Told::Other,
    }
}
