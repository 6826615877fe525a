//! The stops of imports of which no environment is made.

ghost use Rattle.std.specs.Prelude.{◌≡◌, ◌<◌, ℕ, List, IfOk, Some, length};
ghost use Rattle.sx_environment.specs.ImportErrors.{HasNoEnvironment};
ghost use Rattle.sx_environment.specs.SeenFrom.{SeenFrom, interfaces_of};
ghost use Rattle.sx_importing.specs.ImportStops as stops;

use crate::kept_values::{digest_differs, kept_differs};
use std::alloc::Global;
use sx_environment::ImportError;
use sx_headers::{uncut_text, unread_text};
use sx_interface::{Digest, Import};
use sx_notation::Unread;
use sx_steps::{Stop, refused, with_suffix};
use sx_term::{NoMemory, Text};
use sx_token::TokenError;
use sx_words::{ClosureDefect, Defect, Kept, TextDefect};

/// The file of the import with this number.
fn file_of(alloc: Global, imports: &[Import], import: usize) -> Result<Text, NoMemory>
    requires { import < length imports.now }
    ensures { IfOk result (λ file. file ≡ stops.import_file (interfaces_of imports.now) import) }
{
    with_suffix(alloc, &imports[import].interface.module, ".int")
}

/// The refusal of an import in another language.
fn other_language(
    alloc: Global,
    imports: &[Import],
    import: usize,
    language: Text,
) -> Result<Stop, NoMemory>
    requires { import < length imports.now }
    ensures { IfOk result (λ stop. (file : List ℕ) → stops.import_stop file
        (interfaces_of imports.now) (ImportError.LanguageDiffers import language) ≡ Some stop) }
{
    let own = file_of(alloc, imports, import)?;
    refused(
        alloc,
        &own,
        Defect::Closure(ClosureDefect::LanguageDiffers(language)),
    )
}

/// The refusal of an import by another file of the language.
fn other_digest(
    alloc: Global,
    imports: &[Import],
    import: usize,
    kept: Digest,
    found: Digest,
) -> Result<Stop, NoMemory>
    requires { import < length imports.now }
    ensures { IfOk result (λ stop. (file : List ℕ) → stops.import_stop file
        (interfaces_of imports.now) (ImportError.Differs import kept found) ≡ Some stop) }
{
    let own = file_of(alloc, imports, import)?;
    digest_differs(alloc, &own, Kept::LanguageDigest, &kept, &found)
}

/// The refusal of an import whose stated signature is another than its signature.
fn other_stated(
    alloc: Global,
    imports: &[Import],
    import: usize,
    kept: Text,
    found: Text,
) -> Result<Stop, NoMemory>
    requires { import < length imports.now }
    ensures { IfOk result (λ stop. (file : List ℕ) → stops.import_stop file
        (interfaces_of imports.now) (ImportError.StatedDiffers import kept found) ≡ Some stop) }
{
    let own = file_of(alloc, imports, import)?;
    kept_differs(alloc, &own, Kept::Stated, kept, found)
}

/// The refusal of an import with a signature that has no tokens, at this place of its file.
fn uncut_row(
    alloc: Global,
    imports: &[Import],
    import: usize,
    line: u64,
    column: u64,
    error: TokenError,
) -> Result<Stop, NoMemory>
    requires { import < length imports.now }
    ensures { IfOk result (λ stop. (file : List ℕ) → stops.import_stop file
        (interfaces_of imports.now) (ImportError.Token import line column error) ≡ Some stop) }
{
    let own = file_of(alloc, imports, import)?;
    uncut_text(alloc, &own, line, column, error)
}

/// The refusal of an import with a signature that has not one reading.
fn unread_row(
    alloc: Global,
    imports: &[Import],
    import: usize,
    line: u64,
    column: u64,
    error: Unread,
) -> Result<Stop, NoMemory>
    requires { import < length imports.now }
    ensures { IfOk result (λ stop. (file : List ℕ) → stops.import_stop file
        (interfaces_of imports.now) (ImportError.Read import line column error) ≡ Some stop) }
{
    let own = file_of(alloc, imports, import)?;
    unread_text(alloc, &own, line, column, error)
}

/// The refusal of these imports. The file is that of the module.
pub(crate) fn bad_import(
    alloc: Global,
    file: &Text,
    imports: &[Import],
    error: ImportError,
) -> Result<Stop, NoMemory>
    requires { (s : SeenFrom) × HasNoEnvironment s (interfaces_of imports.now) error }
    ensures { IfOk result (λ stop.
        stops.import_stop file.now (interfaces_of imports.now) error ≡ Some stop) }
{
    match error {
        ImportError::Memory => Err(NoMemory::Memory),
        ImportError::LanguageDiffers { import, language } => {
            other_language(alloc, imports, import, language)
        }
        ImportError::Differs {
            import,
            kept,
            found,
        } => other_digest(alloc, imports, import, kept, found),
        ImportError::Token {
            import,
            line,
            column,
            error,
        } => uncut_row(alloc, imports, import, line, column, error),
        ImportError::Read {
            import,
            line,
            column,
            error,
        } => unread_row(alloc, imports, import, line, column, error),
        ImportError::StatedDiffers {
            import,
            kept,
            found,
        } => other_stated(alloc, imports, import, kept, found),
        ImportError::TooDeep(depth) => refused(
            alloc,
            file,
            Defect::Text(TextDefect::TooDeep(u64::from(depth))),
        ),
    }
}
