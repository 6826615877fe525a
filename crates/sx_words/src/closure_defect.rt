//! Files that do not go together.

ghost use Rattle.std.specs.Prelude.{◌≡◌, ◌++◌, OnOk};
ghost use Rattle.sx_words.specs.RefusalText.{closure_text, kept_text, names_text};

use crate::parts::{put, put_named, put_words};
use sx_term::{NoMemory, Text};

/// A value that a file keeps of another one.
#[derive(Drop)]
pub enum Kept {
    /// The digest of the language file.
    LanguageDigest,
    /// The digest of the base file.
    BaseDigest,
    /// The digest of the interface file of this import.
    ImportDigest(Text),
    /// The signature.
    Signature,
    /// The stated signature.
    Stated,
}

/// Why files do not go together.
#[derive(Drop)]
pub enum ClosureDefect {
    /// The names of a cycle, from one of them to it again.
    Cycle(Vec<Text>),
    /// More modules or extensions than a closure may have.
    TooManyModules,
    /// The language of an import, which is another than that of its importer.
    LanguageDiffers(Text),
    /// A value that is kept, the kept one and the one that was found.
    Differs { what: Kept, kept: Text, found: Text },
    /// A written file of a core file is not what the replay gives.
    CoreDiffers,
}

/// Appends the names, each after a blank.
fn put_names(names: &[Text], into: &mut Vec<u8>) -> Result<(), NoMemory>
    ensures { OnOk result (into.new.items ≡ into.old.items ++ names_text names.now) }
{
    for name in names {
        put(&[b" ", name.bytes()], into)?;
    }
    Ok(())
}

/// Appends the name of the value that is kept.
fn put_kept(what: &Kept, into: &mut Vec<u8>) -> Result<(), NoMemory>
    ensures { OnOk result (into.new.items ≡ into.old.items ++ kept_text what.now) }
{
    match what {
        Kept::LanguageDigest => put_words(b"language digest", into),
        Kept::BaseDigest => put_words(b"base digest", into),
        Kept::ImportDigest(name) => put_named(b"import ", name, b" digest", into),
        Kept::Signature => put_words(b"signature", into),
        Kept::Stated => put_words(b"stated signature", into),
    }
}

/// Appends the defect's text.
pub(crate) fn put_closure(defect: &ClosureDefect, into: &mut Vec<u8>) -> Result<(), NoMemory>
    ensures { OnOk result (into.new.items ≡ into.old.items ++ closure_text defect.now) }
{
    match defect {
        ClosureDefect::Cycle(names) => {
            put_words(b"cycle", into)?;
            put_names(names.as_slice(), into)
        }
        ClosureDefect::TooManyModules => put_words(b"more than 256 files", into),
        ClosureDefect::LanguageDiffers(language) => put_named(
            b"language ",
            language,
            b" differs",
            into,
        ),
        ClosureDefect::Differs { what, kept, found } => {
            put_kept(what, into)?;
            put(&[b" kept ", kept.bytes(), b", found ", found.bytes()], into)
        }
        ClosureDefect::CoreDiffers => put_words(b"differs", into),
    }
}
