//! Laws of typing.

ghost use Rattle.sx_typing.specs.Alike.{OneTyping};
ghost use Rattle.sx_typing.specs.Goals.{TypingsAreFirst};
ghost use Rattle.sx_typing.specs.GoodTypings.{TypingsAreGood};
ghost use Rattle.sx_typing.specs.Growing.{LanguagesAreDialects, DialectsGrow};
ghost use Rattle.sx_typing.specs.Refused.{SourceTypeErrorsAreFinal};

/// What a walk finds is the first derivation of the source's goal.
pub fn typings_are_first()
    ensures { TypingsAreFirst }
{}

/// The subject and the output of a typing are terms of the dialect, and its derivation can be
/// rewritten; what it is lowered to has no literals of the language as names.
pub fn typings_are_good()
    ensures { TypingsAreGood }
{}

/// A type error comes only where the source's goal has no derivation at all.
pub fn source_type_errors_are_final()
    ensures { SourceTypeErrorsAreFinal }
{}

/// What is read and typed is determined by the source, out of memory aside. Only of a text with
/// more than two readings it is free which two a refusal shows.
pub fn one_typing()
    ensures { OneTyping }
{}

/// A language without extensions is a dialect, and a dialect stays one with an extension that fits
/// it and is sound after it.
pub fn dialects_grow()
    ensures first { LanguagesAreDialects }
    ensures next { DialectsGrow }
{}
