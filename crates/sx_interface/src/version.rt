//! Versions of interfaces.

/// A version of the text of interfaces.
#[derive(Clone, Copy)]
pub(crate) enum Version {
    /// The version without uses, whose stated signature is its signature.
    One,
    /// The version that is written.
    Two,
}
