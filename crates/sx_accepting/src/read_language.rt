//! The steps that read the file of a language.

ghost use Rattle.std.specs.Prelude.{◌≡◌, ◌≤◌, IfOk, length};
ghost use Rattle.sx_outside.specs.Told.{WhereTold};
ghost use Rattle.sx_notation.specs.Language.{IsLanguage};
ghost use Rattle.sx_steps.specs.Stop.{Gives, OnlyReads, IsNoFault};
ghost use Rattle.sx_accepting.specs.LanguageFiles.{language_file};
ghost use Rattle.sx_accepting.specs.ReadLanguage.{stated_of, StatesLanguage, ReadsLanguage};
ghost use Rattle.sx_accepting.specs.ReadLanguage.{HasText};
ghost use Rattle.sx_term.specs.Limits.{most_bytes};

use crate::language_stops::bad_language;
use std::alloc::Global;
use sx_interface::{Digest, digest};
use sx_language::read_language;
use sx_notation::Language;
use sx_outside::Shelf;
use sx_steps::{StepError, read_file, with_suffix};
use sx_term::{MOST_BYTES, Text};

/// A language, and the digest of its file.
#[derive(Drop)]
pub struct LanguageFile {
    pub language: Language,
    pub digest: Digest,
}

/// The language that the bytes of the file state.
fn state_language(
    alloc: Global,
    file: &Text,
    name: &Text,
    bytes: &[u8],
) -> Result<LanguageFile, StepError>
    requires file { file.now ≡ language_file name.now }
    requires short { length bytes.now ≤ most_bytes }
    ensures step { Gives stated_of (StatesLanguage name.now bytes.now) result }
    ensures fit { IfOk result (λ l. IsLanguage l.language) }
    ensures text { IfOk result (λ l. HasText name.now l.language) }
    ensures no_fault { IsNoFault result }
{
    match read_language(alloc, name, bytes) {
        Ok(language) => Ok(LanguageFile {
            language,
            digest: digest(bytes),
        }),
        Err(error) => match bad_language(alloc, file, error) {
            Ok(stop) => Err(StepError::Stopped(stop)),
            Err(_) => Err(StepError::Memory),
        },
    }
}

/// The language in its file.
pub fn read_language_file<S: Shelf>(
    alloc: Global,
    name: &Text,
    shelf: &mut S,
) -> Result<LanguageFile, StepError>
    ensures step { WhereTold (S.content shelf.old)
        (λ files. Gives stated_of (ReadsLanguage name.now files) result) }
    ensures fit { IfOk result (λ l. IsLanguage l.language) }
    ensures text { IfOk result (λ l. HasText name.now l.language) }
    ensures reads { OnlyReads (S.content shelf.old) (S.content shelf.new)
        (S.read_faults shelf.old) (S.read_faults shelf.new)
        (S.write_faults shelf.old) (S.write_faults shelf.new) result }
{
    let file = with_suffix(alloc, name, ".lang")?;
    match read_file(alloc, &file, MOST_BYTES, shelf) {
        Ok(bytes) => state_language(alloc, &file, name, &bytes),
        Err(e) => Err(e),
    }
}
