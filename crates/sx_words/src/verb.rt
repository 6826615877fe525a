//! The commands that are given a name.

/// A command that is given the name of a module, a core file or an extension.
#[derive(Clone, Copy)]
pub(crate) enum Verb {
    Build,
    Compile,
    Check,
    Verify,
}
