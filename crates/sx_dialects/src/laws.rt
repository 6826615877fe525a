//! What is proved of languages with extensions as dialects.

ghost use Rattle.sx_dialects.specs.Dialects.{ExtendedIsDialect};

/// What a language that a text states becomes by extensions is a dialect.
pub fn extended_is_dialect()
    ensures { ExtendedIsDialect }
{}
