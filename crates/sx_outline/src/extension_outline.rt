//! What the lines of an extension file state.

use crate::extension_header::ExtensionHeader;
use crate::plain_lines::PlainLines;
use crate::rule_lines::RuleLines;
use sx_directives::VarLine;
use sx_grammar::Production;

/// An extension file before its texts are read by its grammar: its header, its own productions, the
/// stems of metavariables, those of its language first and then its own, its plain pairs, and the
/// lines of its rules.
#[derive(Drop)]
pub struct ExtensionOutline {
    pub header: ExtensionHeader,
    pub productions: Vec<Production>,
    pub vars: Vec<VarLine>,
    pub plains: Vec<PlainLines>,
    pub rules: Vec<RuleLines>,
}
