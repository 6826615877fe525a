//! Forms, found by their names.

use sx_rules::Form;
use sx_term::Names;

/// The forms with the number of each name.
#[derive(Drop)]
pub(crate) struct FormTable {
    pub names: Names,
    pub forms: Vec<Form>,
}
