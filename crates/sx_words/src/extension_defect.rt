//! Defects of extensions.

ghost use Rattle.std.specs.Prelude.{◌≡◌, ◌++◌, OnOk};
ghost use Rattle.sx_words.specs.RefusalText.{extension_text};

use crate::parts::{put_named, put_words};
use sx_term::{NoMemory, Text};

/// What is wrong with an extension.
#[derive(Drop)]
pub enum ExtensionDefect {
    /// The language that the extension is written for.
    WrongLanguage(Text),
    /// A conclusion with a subject has no body. At `Position::Rule`.
    NoBody,
    /// A conclusion without a subject has a body. At `Position::Rule`.
    BodySort,
    /// A body has syntax that is no base syntax. At `Position::Rule`.
    BodyExtended,
    /// The label of two plain bodies.
    Twice(Text),
    /// The label that a plain body uses before its own body stands. At `Position::Plain`.
    UsesLater(Text),
    /// A part that a plain body drops, with the mark before its name. At `Position::Plain`.
    Drops(Text),
    /// A plain production has no body. At `Position::Production`.
    NoPlain,
}

/// Appends the defect's text.
pub(crate) fn put_extension(defect: &ExtensionDefect, into: &mut Vec<u8>) -> Result<(), NoMemory>
    ensures { OnOk result (into.new.items ≡ into.old.items ++ extension_text defect.now) }
{
    match defect {
        ExtensionDefect::WrongLanguage(text) => put_named(
            b"written for language ",
            text,
            b"",
            into,
        ),
        ExtensionDefect::NoBody => put_words(b"no body", into),
        ExtensionDefect::BodySort => put_words(b"body without a subject", into),
        ExtensionDefect::BodyExtended => put_words(b"body uses extended syntax", into),
        ExtensionDefect::Twice(text) => put_named(b"plain ", text, b" stands twice", into),
        ExtensionDefect::UsesLater(text) => put_named(b"uses ", text, b"", into),
        ExtensionDefect::Drops(text) => put_named(b"", text, b" is not used", into),
        ExtensionDefect::NoPlain => put_words(b"no plain body", into),
    }
}
