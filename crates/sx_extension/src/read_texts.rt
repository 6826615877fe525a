//! The texts of an extension.

use crate::plain_body::PlainBody;
use sx_language::ReadRules;

/// The plain bodies of an extension, and its rules with their bodies and the names of their
/// variables.
#[derive(Drop)]
pub(crate) struct ReadTexts {
    pub(crate) plains: Vec<PlainBody>,
    pub(crate) rules: ReadRules,
}
