//! A line of a language file or of an extension file as it is read.

use crate::rows::{FormLine, MainLine, PlainLine, VarLine};
use sx_grammar::{Production, SortLine};
use sx_term::Text;

/// What a line of a language file or of an extension file states.
#[derive(Drop)]
pub enum Row {
    /// `language NAME`
    Language(Text),
    /// `sort NAME plain` or `sort NAME typed`, with or without a bracket pair
    Sort(SortLine),
    /// `prod LABEL SORT LEVEL : SYMBOL..`
    Prod(Production),
    /// `var STEM : SORT`
    Var(VarLine),
    /// `form NAME : SYMBOL..`
    Form(FormLine),
    /// `main FORM LABEL LABEL`
    Main(MainLine),
    /// `rule NAME`
    Rule(Text),
    /// `---`
    Bar,
    /// `end`
    End,
    /// `extension NAME`
    Extension(Text),
    /// `use NAME`
    Use(Text),
    /// `plain LABEL VAR..`
    Plain(PlainLine),
    /// `to` and a body: the body at its place in the line, with spaces in place of what stands
    /// before it
    To(Text),
}
