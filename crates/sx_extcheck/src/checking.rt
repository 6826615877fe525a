//! What the rules of an extension are checked against.

use crate::budgets::Budgets;
use std::alloc::Global;
use sx_plain::PlainTable;
use sx_rewrite::Accepted;

/// The set before the extension, the plain table of the extension, and the budgets.
#[derive(Clone, Copy)]
pub(crate) struct Checking<'a> {
    pub alloc: Global,
    pub set: &'a Accepted,
    pub plain: &'a PlainTable,
    pub budgets: Budgets,
}
