//! What extensions are read and accepted by.

use std::alloc::Global;
use sx_extcheck::Budgets;
use sx_notation::Language;

/// The language that extensions are read after, and the budgets by which each rule is checked.
#[derive(Clone, Copy)]
pub(crate) struct Given<'a> {
    pub(crate) alloc: Global,
    pub(crate) language: &'a Language,
    pub(crate) budgets: Budgets,
}
