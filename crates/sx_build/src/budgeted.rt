//! What every derivation of a build may take.

use std::alloc::Global;
use sx_extcheck::Budgets;

/// Where memory is taken from, and how many tries and nodes each derivation may take.
#[derive(Clone, Copy)]
pub(crate) struct Budgeted {
    pub(crate) alloc: Global,
    pub(crate) budgets: Budgets,
}
