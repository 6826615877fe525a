//! Why a text has not one reading.

use sx_term::Text;

/// Why a text has not one reading. Places count its bytes from 0.
#[derive(Drop)]
pub enum Unread {
    /// Reading needs more than 2,000,000 items.
    TooHard,
    /// There is no reading. The place at which the first token begins that no part of a reading
    /// reaches, or the number of the text's bytes where there is no such token.
    NoReading(usize),
    /// A reading is deeper than 1,000; the greatest depth of them.
    TooDeep(u64),
    /// There are two readings; their tree texts, of which the first is not after the second by
    /// bytes.
    Ambiguous(Text, Text),
}
