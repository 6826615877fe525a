//! The terms that are printed of a module.

use sx_term::Term;

/// The terms that are printed of a module: the subject and the output of what its derivation is
/// lowered to, and the output of the derivation, which is the signature as it is stated.
#[derive(Clone, Copy)]
pub(crate) struct PrintedTerms<'a> {
    pub subject: &'a Term,
    pub signature: &'a Term,
    pub stated: &'a Term,
}
