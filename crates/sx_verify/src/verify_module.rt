//! The steps of `verify NAME`.

ghost use Rattle.std.specs.Prelude.{◌≡◌, ◌≤◌, length, map};
ghost use Rattle.std.specs.List.{AllByRecursion};
ghost use Rattle.sha2.specs.Sha256.{sha256};
ghost use Rattle.sx_outside.specs.Told.{WhereTold};
ghost use Rattle.sx_environment.specs.SeenFrom.{IsShort, interfaces_of};
ghost use Rattle.sx_steps.specs.Stop.{Gives, OnlyReads};
ghost use Rattle.sx_steps.specs.Work.{plan_of};
ghost use Rattle.sx_verify.specs.AskedFiles.{HasFiles};
ghost use Rattle.sx_verify.specs.VerifyModule as spec;
ghost use Rattle.sx_verify.specs.WrittenFiles.{AreWrittenFiles, written_of};
ghost use Rattle.sx_term.specs.Limits.{most_bytes};

use crate::asked::Asked;
use crate::kept_imports::read_all_kept;
use crate::language_stating::state_language;
use crate::over::Over;
use crate::verify_over::verify_names;
use crate::written_files::{WrittenFiles, read_written};
use std::alloc::Global;
use sx_importing::keep_digest;
use sx_interface::{Digest, Import, digest};
use sx_outside::Shelf;
use sx_steps::{StepError, Work, read_file, with_suffix};
use sx_term::{MOST_BYTES, Text};
use sx_words::Kept;

/// The steps from the interfaces of the imports. The language's file has these bytes and this
/// digest.
fn verify_language<S: Shelf>(
    asked: &Asked,
    written: &WrittenFiles,
    bytes: &[u8],
    found: Digest,
    imports: &[Import],
    shelf: &mut S,
) -> Result<Work, StepError>
    requires files { HasFiles asked.now }
    requires written { AreWrittenFiles written.now }
    requires short { length bytes.now ≤ most_bytes }
    requires found { found.bytes ≡ sha256 bytes.now }
    requires imports { AllByRecursion IsShort (interfaces_of imports.now) }
    requires read { map (λ it. it.name) (interfaces_of imports.now) ≡
        written.now.base.header.imports.items }
    ensures step { WhereTold (S.content shelf.old)
        (λ files. Gives plan_of (spec.VerifiesLanguage asked.now.name.now files
        (written_of written.now) bytes.now (interfaces_of imports.now)) result) }
    ensures reads { OnlyReads (S.content shelf.old) (S.content shelf.new)
        (S.read_faults shelf.old) (S.read_faults shelf.new)
        (S.write_faults shelf.old) (S.write_faults shelf.new) result }
{
    match state_language(asked.alloc, &written.interface.language, bytes, found) {
        Ok(language) => {
            let over = Over {
                written,
                language: &language,
                imports,
            };
            let work = verify_names(asked, &over, shelf);
            drop(language);
            work
        }
        Err(e) => Err(e),
    }
}

/// The steps from the bytes of the language's file, which have the digest that is kept.
fn verify_imports<S: Shelf>(
    asked: &Asked,
    written: &WrittenFiles,
    bytes: &[u8],
    found: Digest,
    shelf: &mut S,
) -> Result<Work, StepError>
    requires files { HasFiles asked.now }
    requires written { AreWrittenFiles written.now }
    requires short { length bytes.now ≤ most_bytes }
    requires found { found.bytes ≡ sha256 bytes.now }
    ensures step { WhereTold (S.content shelf.old)
        (λ files. Gives plan_of (spec.VerifiesImports asked.now.name.now files
        (written_of written.now) bytes.now) result) }
    ensures reads { OnlyReads (S.content shelf.old) (S.content shelf.new)
        (S.read_faults shelf.old) (S.read_faults shelf.new)
        (S.write_faults shelf.old) (S.write_faults shelf.new) result }
{
    let marks = &written.interface.imports;
    match read_all_kept(asked.alloc, asked.interface, marks, shelf) {
        Ok(imports) => {
            let work = verify_language(asked, written, bytes, found, &imports, shelf);
            drop(imports);
            work
        }
        Err(e) => Err(e),
    }
}

/// The steps from the bytes of the language's file.
fn verify_bytes<S: Shelf>(
    asked: &Asked,
    written: &WrittenFiles,
    bytes: &[u8],
    shelf: &mut S,
) -> Result<Work, StepError>
    requires files { HasFiles asked.now }
    requires written { AreWrittenFiles written.now }
    requires short { length bytes.now ≤ most_bytes }
    ensures step { WhereTold (S.content shelf.old)
        (λ files. Gives plan_of (spec.VerifiesDigest asked.now.name.now files
        (written_of written.now) bytes.now) result) }
    ensures reads { OnlyReads (S.content shelf.old) (S.content shelf.new)
        (S.read_faults shelf.old) (S.read_faults shelf.new)
        (S.write_faults shelf.old) (S.write_faults shelf.new) result }
{
    let found = digest(bytes);
    let kept = &written.interface.language_digest;
    match keep_digest(
        asked.alloc,
        asked.interface,
        Kept::LanguageDigest,
        kept,
        &found,
    ) {
        Ok(()) => verify_imports(asked, written, bytes, found, shelf),
        Err(e) => Err(e),
    }
}

/// The steps from the interface and the base file.
fn verify_written<S: Shelf>(
    asked: &Asked,
    written: &WrittenFiles,
    shelf: &mut S,
) -> Result<Work, StepError>
    requires files { HasFiles asked.now }
    requires written { AreWrittenFiles written.now }
    ensures step { WhereTold (S.content shelf.old)
        (λ files. Gives plan_of (spec.VerifiesWritten asked.now.name.now files
        (written_of written.now)) result) }
    ensures reads { OnlyReads (S.content shelf.old) (S.content shelf.new)
        (S.read_faults shelf.old) (S.read_faults shelf.new)
        (S.write_faults shelf.old) (S.write_faults shelf.new) result }
{
    let file = with_suffix(asked.alloc, &written.interface.language, ".lang")?;
    match read_file(asked.alloc, &file, MOST_BYTES, shelf) {
        Ok(bytes) => verify_bytes(asked, written, &bytes, shelf),
        Err(e) => Err(e),
    }
}

/// The steps with the names of the written files.
fn verify_asked<S: Shelf>(asked: &Asked, shelf: &mut S) -> Result<Work, StepError>
    requires { HasFiles asked.now }
    ensures step { WhereTold (S.content shelf.old)
        (λ files. Gives plan_of (spec.VerifiesModule asked.now.name.now files) result) }
    ensures reads { OnlyReads (S.content shelf.old) (S.content shelf.new)
        (S.read_faults shelf.old) (S.read_faults shelf.new)
        (S.write_faults shelf.old) (S.write_faults shelf.new) result }
{
    match read_written(asked, shelf) {
        Ok(written) => {
            let work = verify_written(asked, &written, shelf);
            drop(written);
            work
        }
        Err(e) => Err(e),
    }
}

/// The steps of `verify NAME`: the interface and the base file beside it, the bytes of the
/// language's file and the interfaces of the imports, each compared with the digest that is kept;
/// then the language, the environment of the imports, the body and the list, which is replayed; and
/// the signature is compared. No search is made, and no try.
pub fn plan_verify<S: Shelf>(alloc: Global, name: &Text, shelf: &mut S) -> Result<Work, StepError>
    ensures step { WhereTold (S.content shelf.old)
        (λ files. Gives plan_of (spec.VerifiesModule name.now files) result) }
    ensures reads { OnlyReads (S.content shelf.old) (S.content shelf.new)
        (S.read_faults shelf.old) (S.read_faults shelf.new)
        (S.write_faults shelf.old) (S.write_faults shelf.new) result }
{
    let base = with_suffix(alloc, name, ".base")?;
    let list = with_suffix(alloc, name, ".der")?;
    let interface = with_suffix(alloc, name, ".int")?;
    let asked = Asked {
        alloc,
        name,
        base: &base,
        list: &list,
        interface: &interface,
    };
    verify_asked(&asked, shelf)
}
