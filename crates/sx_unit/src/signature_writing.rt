//! Writing a module's signatures.

ghost use Rattle.std.specs.Prelude.{◌≡◌, ◌+◌, ◌-◌, ◌≤◌, ◌<◌, length, IfOk, IfErr};
ghost use Rattle.std.specs.Str.{IsUtf8};
ghost use Rattle.sx_typing.specs.BodySource.{CanType};
ghost use Rattle.sx_unit.specs.Modules.{module_data};
ghost use Rattle.sx_unit.specs.PrintedParts.{printed_of};
ghost use Rattle.sx_unit.specs.Texts.{print_text, base_text, interface_text as known_interface};
ghost use Rattle.sx_unit.specs.Written.{ArePrintable, HasFreeNames, IsGoodPart, IsUnwritten};
ghost use Rattle.sx_unit.specs.Written.{file_size};

use crate::captured::captured;
use crate::known_reading::{adds_nothing, check_known};
use crate::module_source::ModuleSource;
use crate::part_check::check_part;
use crate::printed_terms::PrintedTerms;
use crate::showing::show;
use crate::texts::interface_text;
use std::alloc::Global;
use sx_typing::ModuleError;
use sx_words::PrintedPart;

/// The names of the stated signature are no literals of the dialect.
fn check_names(alloc: Global, given: &ModuleSource, terms: &PrintedTerms) -> Result<(), ModuleError>
    requires terms { ArePrintable (module_data given.now).source.dialect (printed_of terms.now) }
    requires body { IsGoodPart (module_data given.now) (printed_of terms.now) PrintedPart.Body }
    requires signature { IsGoodPart (module_data given.now) (printed_of terms.now)
        PrintedPart.Signature }
    ensures free { IfOk result (λ _. HasFreeNames (module_data given.now) (printed_of terms.now)) }
    ensures refused { IfErr result (IsUnwritten (module_data given.now) (printed_of terms.now)) }
{
    match captured(given.source.dialect.grammar, terms.stated) {
        Some(word) => Err(ModuleError::Captured(word.copy(alloc)?)),
        None => Ok(()),
    }
}

/// The signature can be written, printed so in a file of so many bytes without the line of the
/// stated signature.
fn check_signature(
    alloc: Global,
    given: &ModuleSource,
    terms: &PrintedTerms,
    size: usize,
    shown: &[u8],
) -> Result<(), ModuleError>
    requires can { CanType given.now.source }
    requires terms { ArePrintable (module_data given.now).source.dialect (printed_of terms.now) }
    requires body { IsGoodPart (module_data given.now) (printed_of terms.now) PrintedPart.Body }
    requires size { size ≡ file_size (module_data given.now) (printed_of terms.now)
        PrintedPart.Signature }
    requires text { shown.now ≡ print_text (module_data given.now).source.dialect.language.parts
        (printed_of terms.now).signature }
    requires utf8 { IsUtf8 shown.now }
    requires within { length shown.now ≤ size }
    ensures good { IfOk result
        (λ _. IsGoodPart (module_data given.now) (printed_of terms.now) PrintedPart.Signature) }
    ensures refused { IfErr result (IsUnwritten (module_data given.now) (printed_of terms.now)) }
{
    let part = PrintedPart::Signature;
    check_part(
        alloc,
        &given.source.dialect,
        part,
        size,
        terms.signature,
        shown,
    )?;
    Ok(())
}

/// The stated signature can be written, printed so in a file of so many bytes, where the signature
/// can be written. It is read only where it is not printed as the signature is, or where the
/// extensions in use add a production.
fn check_stated(
    alloc: Global,
    given: &ModuleSource,
    terms: &PrintedTerms,
    size: usize,
    signature: &[u8],
    shown: &[u8],
) -> Result<(), ModuleError>
    requires can { CanType given.now.source }
    requires terms { ArePrintable (module_data given.now).source.dialect (printed_of terms.now) }
    requires body { IsGoodPart (module_data given.now) (printed_of terms.now) PrintedPart.Body }
    requires signature { IsGoodPart (module_data given.now) (printed_of terms.now)
        PrintedPart.Signature }
    requires free { HasFreeNames (module_data given.now) (printed_of terms.now) }
    requires size { size ≡ file_size (module_data given.now) (printed_of terms.now)
        PrintedPart.Stated }
    requires printed { signature.now ≡
        print_text (module_data given.now).source.dialect.language.parts
        (printed_of terms.now).signature }
    requires text { shown.now ≡ print_text (module_data given.now).source.dialect.parts
        (printed_of terms.now).stated }
    requires utf8 { IsUtf8 shown.now }
    requires within { length shown.now ≤ size }
    ensures good { IfOk result
        (λ _. IsGoodPart (module_data given.now) (printed_of terms.now) PrintedPart.Stated) }
    ensures refused { IfErr result (IsUnwritten (module_data given.now) (printed_of terms.now)) }
{
    let dialect = &given.source.dialect;
    dialect.language.grammar.facts();
    let part = PrintedPart::Stated;
    if adds_nothing(dialect) && shown == signature {
        return check_known(part, size);
    }
    check_part(alloc, dialect, part, size, terms.stated, shown)?;
    Ok(())
}

/// The interface file with both signatures, for this base file.
pub(crate) fn put_signatures(
    alloc: Global,
    given: &ModuleSource,
    terms: &PrintedTerms,
    base: &[u8],
) -> Result<Vec<u8>, ModuleError>
    requires can { CanType given.now.source }
    requires terms { ArePrintable (module_data given.now).source.dialect (printed_of terms.now) }
    requires base { base.now ≡ base_text (module_data given.now) (printed_of terms.now) }
    requires body { IsGoodPart (module_data given.now) (printed_of terms.now) PrintedPart.Body }
    ensures text { IfOk result
        (λ v. v.items ≡ known_interface (module_data given.now) (printed_of terms.now)) }
    ensures signature { IfOk result
        (λ v. IsGoodPart (module_data given.now) (printed_of terms.now) PrintedPart.Signature) }
    ensures free { IfOk result (λ v. HasFreeNames (module_data given.now) (printed_of terms.now)) }
    ensures stated { IfOk result
        (λ v. IsGoodPart (module_data given.now) (printed_of terms.now) PrintedPart.Stated) }
    ensures refused { IfErr result (IsUnwritten (module_data given.now) (printed_of terms.now)) }
{
    let dialect = &given.source.dialect;
    let signature = show(alloc, &dialect.language.grammar, terms.signature)?;
    let stated = show(alloc, dialect.grammar, terms.stated)?;
    let text = interface_text(alloc, given, base, &signature, &stated)?;
    let size = text.len();
    let less = size - (stated.len() + 1);
    check_signature(alloc, given, terms, less, &signature)?;
    check_names(alloc, given, terms)?;
    check_stated(alloc, given, terms, size, &signature, &stated)?;
    Ok(text)
}
