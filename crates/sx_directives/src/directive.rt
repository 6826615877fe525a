//! Lines that extend a language.

use sx_grammar::Production;
use sx_term::Text;

/// What a `prod` or a `var` line states.
#[derive(Drop)]
pub enum Directive {
    Prod(Production),
    Var { stem: Text, sort: Text },
}
