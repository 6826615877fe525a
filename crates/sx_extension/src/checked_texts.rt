//! The texts of an extension that are checked.

use crate::read_texts::ReadTexts;
use sx_plain::PlainTable;

/// The texts of an extension, and the plain table with its plain bodies.
#[derive(Drop)]
pub(crate) struct CheckedTexts {
    pub(crate) texts: ReadTexts,
    pub(crate) plain: PlainTable,
}
