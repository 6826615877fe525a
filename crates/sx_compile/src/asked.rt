//! What is asked of the compiling of a module.

use std::alloc::Global;
use sx_extcheck::Budgets;
use sx_term::Text;

/// The name of the module, the name of its file, and the budgets.
#[derive(Clone, Copy)]
pub(crate) struct Asked<'a> {
    pub(crate) alloc: Global,
    pub(crate) name: &'a Text,
    pub(crate) file: &'a Text,
    pub(crate) budgets: Budgets,
}
