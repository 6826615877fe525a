//! What is asked of the check of an extension.

use std::alloc::Global;
use sx_extcheck::Budgets;
use sx_term::Text;

/// Where memory is taken from, the name of the extension, the name of its file, and how many tries
/// and nodes each rule may take.
#[derive(Clone, Copy)]
pub(crate) struct Asked<'a> {
    pub(crate) alloc: Global,
    pub(crate) name: &'a Text,
    pub(crate) file: &'a Text,
    pub(crate) budgets: Budgets,
}
