//! Commands.

use crate::audit::Audit;
use sx_term::Text;

/// A command, as the words spell it. What is not said of tries and nodes is 1,000,000.
#[derive(Drop)]
pub enum Command {
    /// Builds the closure of a module, or with `core` the goal of a core file.
    Build {
        core: bool,
        name: Text,
        tries: u64,
        nodes: u64,
        audits: Vec<Audit>,
    },
    /// Builds one module against the interfaces of its imports.
    Compile {
        name: Text,
        tries: u64,
        nodes: u64,
        audits: Vec<Audit>,
    },
    /// Checks an extension.
    Check {
        name: Text,
        tries: u64,
        nodes: u64,
    },
    /// Replays the written files of a module, or with `core` of a core file.
    Verify {
        core: bool,
        name: Text,
    },
    /// Builds the sample module of this size, from 1 to 300.
    Sample {
        n: u32,
    },
}
