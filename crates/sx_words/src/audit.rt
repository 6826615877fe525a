//! Auditors that the words name.

use sx_term::Text;

/// An option that names an auditor.
#[derive(Drop)]
pub struct Audit {
    /// The auditor's kind: what stands before the first `:`.
    pub kind: Text,
    /// Its setting: what stands after the first `:`.
    pub setting: Text,
    /// The place of the option among the words, from 1.
    pub word: u32,
}
