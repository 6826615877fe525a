//! What holds of extension files that texts state.

ghost use Rattle.sx_extension.specs.Laws.{OneExtension, LanguagesBegin, ExtensionsGoOn};

/// A text states one extension, or has one refusal, out of memory aside. The two readings that a
/// refusal shows of a line are the same two in the same order, unless the line has more than two.
pub fn one_extension()
    ensures { OneExtension }
{}

/// After a language that a text states the first extension can be read: there is room for 8,190
/// files.
pub fn languages_begin()
    ensures { LanguagesBegin }
{}

/// After an extension that is read and fits the next one can be read, where there is room, and
/// each file takes the room of one.
pub fn extensions_go_on()
    ensures { ExtensionsGoOn }
{}
