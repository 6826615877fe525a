//! The texts of a module.

ghost use Rattle.std.specs.Prelude.{◌≡◌, ◌++◌, ◌∷◌, [], List, ℕ, map, codes, IfOk, OnOk};
ghost use Rattle.std.specs.Str.{IsUtf8};
ghost use Rattle.std.specs.List.{AllByRecursion};
ghost use Rattle.sx_rules.specs.EntryView.{entries};
ghost use Rattle.sx_rules.specs.ListText.{IsEntry};
ghost use Rattle.sx_rules.specs.Sets.{names_in, rules_in};
ghost use Rattle.sx_lines.specs.Reading.{written};
ghost use Rattle.sx_interface.specs.StatedHeader.{row_lines};
ghost use Rattle.sx_interface.specs.HeaderView.{header_view};
ghost use Rattle.sx_interface.specs.InterfaceView.{mark_view, interface_view};
ghost use Rattle.sx_interface.specs.Interfaces.{interface_lines};
ghost use Rattle.sx_unit.specs.Modules.{mark, module_data};
ghost use Rattle.sx_unit.specs.Texts.{base_bytes, written_interface, derivation_text};

use crate::module_source::ModuleSource;
use std::alloc::Global;
use sx_interface::{Header, Import, ImportMark, Interface, digest, write_interface};
use sx_rules::{Entry, RuleSet, write_list};
use sx_term::{NoMemory, Text};

/// Appends a line: a front, a name and a line feed.
fn put_row(front: &[u8], name: &[u8], into: &mut Vec<u8>) -> Result<(), NoMemory>
    ensures { OnOk result (into.new.items ≡ into.old.items ++ (front.now ++ name.now ++ 10 ∷ [])) }
{
    into.extend_from_slice(front)?;
    into.extend_from_slice(name)?;
    into.push(b'\n')?;
    Ok(())
}

/// Appends a line for each import.
fn put_imports(imports: &[Text], into: &mut Vec<u8>) -> Result<(), NoMemory>
    ensures { OnOk result (into.new.items ≡ into.old.items ++ written
        (row_lines (codes "import ") imports.now)) }
{
    for i in 0..imports.len() {
        let name = &imports[i];
        put_row(b"import ", name.bytes(), into)?;
    }
    Ok(())
}

/// The base file: the header without extensions, `---`, and the printed body on a line.
pub(crate) fn base_text(alloc: Global, header: &Header, shown: &[u8]) -> Result<Vec<u8>, NoMemory>
    ensures { (bytes : List ℕ) →
        IfOk result (λ v. v.items ≡ base_bytes (header_view bytes header.now) shown.now) }
{
    let mut text = Vec::with_capacity(alloc, shown.len())?;
    put_row(b"module ", header.name.bytes(), &mut text)?;
    put_row(b"language ", header.language.bytes(), &mut text)?;
    put_imports(&header.imports, &mut text)?;
    put_row(b"---", b"", &mut text)?;
    put_row(shown, b"", &mut text)?;
    Ok(text)
}

/// The imports with the digests of their interfaces.
fn import_marks(alloc: Global, imports: &[Import]) -> Result<Vec<ImportMark>, NoMemory>
    ensures { IfOk result (λ v. map mark_view v.items ≡ map mark imports.now) }
{
    let mut marks = Vec::with_capacity(alloc, imports.len())?;
    for i in 0..imports.len() {
        let import = &imports[i];
        marks.push(ImportMark {
            name: import.interface.module.copy(alloc)?,
            digest: import.digest,
        })?;
    }
    Ok(marks)
}

/// The extensions in use with the digests of their files.
fn use_marks(alloc: Global, uses: &[ImportMark]) -> Result<Vec<ImportMark>, NoMemory>
    ensures { IfOk result (λ v. map mark_view v.items ≡ map mark_view uses.now) }
{
    let mut marks = Vec::with_capacity(alloc, uses.len())?;
    for i in 0..uses.len() {
        let mark = &uses[i];
        marks.push(ImportMark {
            name: mark.name.copy(alloc)?,
            digest: mark.digest,
        })?;
    }
    Ok(marks)
}

/// What importers read of a module with this base file, whose signatures are printed so.
fn interface(
    alloc: Global,
    given: &ModuleSource,
    base: &[u8],
    signature: &[u8],
    stated: &[u8],
) -> Result<Interface, NoMemory>
    requires signature { IsUtf8 signature.now }
    requires stated { IsUtf8 stated.now }
    ensures { IfOk result (λ it. interface_view it ≡ written_interface
        (module_data given.now) base.now signature.now stated.now) }
{
    let header = given.source.header;
    Ok(Interface {
        module: header.name.copy(alloc)?,
        language: header.language.copy(alloc)?,
        language_digest: *given.digest,
        uses: use_marks(alloc, given.uses)?,
        base_digest: digest(base),
        imports: import_marks(alloc, given.imports)?,
        signature: Text::of_utf8(alloc, signature)?,
        stated: Text::of_utf8(alloc, stated)?,
    })
}

/// The interface file.
pub(crate) fn interface_text(
    alloc: Global,
    given: &ModuleSource,
    base: &[u8],
    signature: &[u8],
    stated: &[u8],
) -> Result<Vec<u8>, NoMemory>
    requires signature { IsUtf8 signature.now }
    requires stated { IsUtf8 stated.now }
    ensures { IfOk result (λ v. v.items ≡ written (interface_lines (written_interface
        (module_data given.now) base.now signature.now stated.now))) }
{
    let it = interface(alloc, given, base, signature, stated)?;
    let mut text = Vec::new(alloc);
    write_interface(alloc, &it, &mut text)?;
    Ok(text)
}

/// The derivation file.
pub(crate) fn derivation_text(
    alloc: Global,
    rules: &RuleSet,
    list: &[Entry],
) -> Result<Vec<u8>, NoMemory>
    requires { AllByRecursion (IsEntry (names_in rules.now)) list.now }
    ensures { IfOk result (λ v. v.items ≡ derivation_text (rules_in rules.now) (entries list.now)) }
{
    let mut text = Vec::new(alloc);
    write_list(alloc, rules, list, &mut text)?;
    Ok(text)
}
