//! The term that is seen of an import.

ghost use Rattle.std.specs.Prelude.{◌≡◌, ◌↔◌, IsTrue, IfOk, IfErr, OnOk};
ghost use Rattle.sx_term.specs.Term.{tree};
ghost use Rattle.sx_term.specs.Tree.{Tree};
ghost use Rattle.sx_interface.specs.InterfaceView.{interface_view, mark_view, marks_view};
ghost use Rattle.sx_typing.specs.Dialects.{IsDialectOf};
ghost use Rattle.sx_environment.specs.ImportErrors.{IsBadImport, IsImportRowDue};
ghost use Rattle.sx_environment.specs.Seen.{HasLanguage, IsGoodImport, IsPlainOf, IsImportRowRead};
ghost use Rattle.sx_environment.specs.Seen.{SeesStated};
ghost use Rattle.sx_environment.specs.SeenFrom.{IsShort, seen_from};

use crate::image_comparing::is_image;
use crate::import_error::ImportError;
use crate::numbered::Numbered;
use crate::row::Row;
use crate::row_reading::read_row;
use crate::surroundings::Surroundings;
use std::alloc::Global;
use sx_interface::{ImportMark, Interface};
use sx_term::{NoMemory, Term};

/// Whether the import is in the language, by the same file.
fn check_language(alloc: Global, given: &Surroundings, import: &Numbered) -> Result<(), ImportError>
    ensures good { OnOk result
        (HasLanguage (seen_from given.now) (interface_view import.now.interface.now)) }
    ensures refused { IfErr result (λ e. (before : Tree) → IsBadImport (seen_from given.now)
        import.now.number before (interface_view import.now.interface.now) e) }
{
    let interface = import.interface;
    if !interface.language.same(&given.dialect.language.name) {
        return Err(ImportError::LanguageDiffers {
            import: import.number,
            language: interface.language.copy(alloc)?,
        });
    }
    if interface.language_digest != *given.digest {
        return Err(ImportError::Differs {
            import: import.number,
            kept: interface.language_digest,
            found: *given.digest,
        });
    }
    Ok(())
}

/// Whether the marks are the same, name and digest.
fn is_same(one: &ImportMark, other: &ImportMark) -> bool
    ensures { IsTrue result ↔ (mark_view one.now ≡ mark_view other.now) }
{
    one.name.same(&other.name) && one.digest == other.digest
}

/// Whether the marks are the same, in the same order.
fn are_same(one: &[ImportMark], other: &[ImportMark]) -> bool
    ensures { IsTrue result ↔ (marks_view one.now ≡ marks_view other.now) }
{
    if one.len() != other.len() {
        return false;
    }
    for i in 0..one.len() {
        let left = &one[i];
        let right = &other[i];
        if !is_same(left, right) {
            return false;
        }
    }
    true
}

/// Whether the stated signature is seen: the import uses extensions, and just those in use.
fn sees_stated(given: &Surroundings, interface: &Interface) -> bool
    ensures { IsTrue result ↔ SeesStated (seen_from given.now) (interface_view interface.now) }
{
    !interface.uses.is_empty() && are_same(&interface.uses, given.uses)
}

/// The refusal of a stated signature whose plain image is not the signature.
fn stated_differs(alloc: Global, import: &Numbered) -> Result<ImportError, NoMemory>
    ensures { IfOk result (λ e. e ≡ ImportError.StatedDiffers import.now.number
        (interface_view import.now.interface.now).signature
        (interface_view import.now.interface.now).stated) }
{
    let kept = import.interface.signature.copy(alloc)?;
    match import.interface.stated.copy(alloc) {
        Ok(found) => Ok(ImportError::StatedDiffers {
            import: import.number,
            kept,
            found,
        }),
        Err(_) => {
            drop(kept);
            Err(NoMemory::Memory)
        }
    }
}

/// The term of the stated signature, which is seen, where its plain image is the signature.
fn stated_term(
    alloc: Global,
    given: &Surroundings,
    import: &Numbered,
    signature: &Term,
) -> Result<Term, ImportError>
    requires dialect { IsDialectOf given.now.dialect }
    requires short { IsShort (interface_view import.now.interface.now) }
    requires due { IsImportRowDue (seen_from given.now) (interface_view import.now.interface.now)
        Row.Stated }
    requires signature { IsImportRowRead (seen_from given.now)
        (interface_view import.now.interface.now)
        Row.Signature (tree signature.now) }
    ensures read { IfOk result (λ t. IsImportRowRead (seen_from given.now)
        (interface_view import.now.interface.now) Row.Stated (tree t)) }
    ensures plain { IfOk result
        (λ t. IsPlainOf (seen_from given.now) (tree t) (tree signature.now)) }
    ensures refused { IfErr result (λ e. (before : Tree) → IsBadImport (seen_from given.now)
        import.now.number before (interface_view import.now.interface.now) e) }
{
    let stated = read_row(alloc, given, import, Row::Stated)?;
    if is_image(given.dialect.accepted.plain(), &stated, signature) {
        return Ok(stated);
    }
    drop(stated);
    Err(stated_differs(alloc, import)?)
}

/// The term that is seen of the import: that of its stated signature where this is seen, and else
/// that of its signature.
pub(crate) fn seen_term(
    alloc: Global,
    given: &Surroundings,
    import: &Numbered,
) -> Result<Term, ImportError>
    requires dialect { IsDialectOf given.now.dialect }
    requires short { IsShort (interface_view import.now.interface.now) }
    ensures good { IfOk result (λ t. IsGoodImport (seen_from given.now)
        (interface_view import.now.interface.now) (tree t)) }
    ensures refused { IfErr result (λ e. (before : Tree) → IsBadImport (seen_from given.now)
        import.now.number before (interface_view import.now.interface.now) e) }
{
    check_language(alloc, given, import)?;
    let signature = read_row(alloc, given, import, Row::Signature)?;
    if !sees_stated(given, import.interface) {
        return Ok(signature);
    }
    let stated = stated_term(alloc, given, import, &signature);
    drop(signature);
    stated
}
