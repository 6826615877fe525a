//! What is asked of a build.

use std::alloc::Global;
use sx_accepting::LanguageFile;
use sx_extcheck::Budgets;

/// Where memory is taken from, the language of the modules, and how many tries and nodes each
/// derivation may take.
#[derive(Clone, Copy)]
pub(crate) struct Asked<'a> {
    pub(crate) alloc: Global,
    pub(crate) language: &'a LanguageFile,
    pub(crate) budgets: Budgets,
}
