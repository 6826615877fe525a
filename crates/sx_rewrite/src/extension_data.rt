//! Extensions.

use crate::ext_rule::ExtRule;
use sx_plain::PlainTable;
use sx_term::Text;

/// What an extension adds: its rules, and the plain
/// table with the entries of all extensions up to it.
#[derive(Drop)]
pub struct ExtensionData {
    pub name: Text,
    pub rules: Vec<ExtRule>,
    pub plain: PlainTable,
}
