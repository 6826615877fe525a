//! The step that reads the files of extensions along their `use` lines.

ghost use Rattle.std.specs.Prelude.{◌≤◌, IfOk, IfSome, Ok, length};
ghost use Rattle.std.specs.List.{AllByRecursion};
ghost use Rattle.sx_outside.specs.Told.{WhereTold};
ghost use Rattle.sx_steps.specs.Stop.{Gives, OnlyReads};
ghost use Rattle.sx_uses.specs.ExtensionFile.{extension_of, extensions_of, IsHeaderStated};
ghost use Rattle.sx_uses.specs.ReadExtension.{ReadsFile};
ghost use Rattle.sx_uses.specs.ReadUses.{ReadsUses};

use crate::extension_file::ExtensionFile;
use crate::extension_kind::ExtensionKind;
use std::alloc::Global;
use sx_outside::Shelf;
use sx_steps::StepError;
use sx_term::Text;
use sx_walking::read_reached;

/// The extensions that are reached from the roots by `use` lines, each once and after those that it
/// uses, in the order in which a depth-first walk leaves them; or the first refusal that the walk
/// comes to. An extension is read when the walk comes to it: it stops where its file gives no
/// header, as `read_extension_file` does, and where it is written for another language. A name that
/// stands on the present path is a cycle, and the 257th extension is one too many: these two are
/// told of `file`. The extension that is held was read before, from the same files, and is not read
/// again.
pub fn read_uses<S: Shelf>(
    alloc: Global,
    file: &Text,
    language: &Text,
    held: Option<ExtensionFile>,
    roots: Vec<Text>,
    shelf: &mut S,
) -> Result<Vec<ExtensionFile>, StepError>
    requires stated { IfSome held (λ x. IsHeaderStated (extension_of x)) }
    requires held { WhereTold (S.content shelf.now) (λ files. IfSome held (λ x.
        ReadsFile files x.header.name (Ok (extension_of x)))) }
    ensures step { WhereTold (S.content shelf.old) (λ files.
        Gives extensions_of (ReadsUses file.now language.now roots.items files) result) }
    ensures stated { IfOk result (λ xs. AllByRecursion IsHeaderStated (extensions_of xs)) }
    ensures few { IfOk result (λ xs. length xs.items ≤ 256) }
    ensures reads { OnlyReads (S.content shelf.old) (S.content shelf.new)
        (S.read_faults shelf.old) (S.read_faults shelf.new)
        (S.write_faults shelf.old) (S.write_faults shelf.new) result }
{
    let kind = ExtensionKind { language };
    read_reached(alloc, &kind, file, held, roots, shelf)
}
