//! An extension file before its texts are read.

use sx_earley::Metas;
use sx_grammar::Grammar;
use sx_outline::{PlainLines, RuleLines};
use sx_term::Text;

/// The name of an extension, the grammar with its productions and that by which its rules are read,
/// the stems of metavariables, and its plain pairs and rules as they stand in the file.
#[derive(Drop)]
pub(crate) struct Prepared {
    pub(crate) name: Text,
    pub(crate) grammar: Grammar,
    pub(crate) rule_grammar: Grammar,
    pub(crate) metas: Metas,
    pub(crate) plains: Vec<PlainLines>,
    pub(crate) rules: Vec<RuleLines>,
}
