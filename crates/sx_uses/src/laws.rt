//! What is proved of reading extensions.

ghost use Rattle.sx_uses.specs.Laws.{FilesAgree, UsesAgree, UsesComeFirst, RootComesLast};

use sx_outline::one_extension_header;

/// By the name and the files there is one result of reading the file of an extension, but for read
/// faults and out of memory.
pub fn files_agree()
    ensures { FilesAgree }
{
    one_extension_header();
}

/// By the roots and the files there is one result of reading the extensions along their `use`
/// lines, but for read faults and out of memory: the same extensions in the same order, or stops
/// that give the same status and the same line.
pub fn uses_agree()
    ensures { UsesAgree }
{
    one_extension_header();
}

/// The extensions that were read are those of their files, and are written for the language. Each
/// stands once and after all that it uses, and the roots are among them.
pub fn uses_come_first()
    ensures { UsesComeFirst }
{}

/// Of the extensions that are reached from one root, the root comes last.
pub fn root_comes_last()
    ensures { RootComesLast }
{}
