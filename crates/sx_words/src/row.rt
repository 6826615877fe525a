//! The table of the options that each command takes.

ghost use Rattle.std.specs.Prelude.{◌≡◌};
ghost use Rattle.sx_words.specs.Commands as spec;
ghost use Rattle.sx_words.specs.View.{given_view};

use crate::given::Given;
use crate::verb::Verb;

/// The options that a command takes.
#[derive(Clone, Copy)]
pub(crate) struct Row {
    pub core: bool,
    pub tries: bool,
    pub nodes: bool,
    pub audits: bool,
}

impl Row {
    /// Whether the row has the option.
    pub fn has_option(&self, option: &Given<'_>) -> bool
        ensures { result ≡ spec.has_option self.now (given_view option.now) }
    {
        match option {
            Given::Core => self.core,
            Given::Tries(_) => self.tries,
            Given::Nodes(_) => self.nodes,
            Given::Audit(_, _) => self.audits,
        }
    }
}

/// The row of the command in the table of what there is. A new command, or a new option, is said
/// here.
pub(crate) fn row_of(verb: Verb) -> Row
    ensures { result ≡ spec.options_of verb }
{
    match verb {
        Verb::Build => Row {
            core: true,
            tries: true,
            nodes: true,
            audits: true,
        },
        Verb::Compile => Row {
            core: false,
            tries: true,
            nodes: true,
            audits: true,
        },
        Verb::Check => Row {
            core: false,
            tries: true,
            nodes: true,
            audits: false,
        },
        Verb::Verify => Row {
            core: true,
            tries: false,
            nodes: false,
            audits: false,
        },
    }
}
