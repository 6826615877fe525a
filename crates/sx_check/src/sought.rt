//! From where extensions are sought.

use sx_term::Text;

/// The names from which `use` lines are followed, and the language for which extensions are to be
/// written.
#[derive(Drop)]
pub(crate) struct Sought {
    pub(crate) roots: Vec<Text>,
    pub(crate) language: Text,
}
