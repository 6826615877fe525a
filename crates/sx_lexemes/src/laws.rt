//! Where the lexemes of derivations come from.

ghost use Rattle.sx_lexemes.specs.Laws.{ImagesKeepLexemes, DerivedKeepLexemes};
ghost use Rattle.sx_lexemes.specs.Laws.{LoweredKeepLexemes, GrownSetsKeepLexemes};

/// Each lexeme of a plain image stands in the term or in a flat body.
pub fn images_keep_lexemes()
    ensures { ImagesKeepLexemes }
{}

/// Each lexeme of a judgement that is derived stands at its inputs, in a hypothesis or in a rule.
pub fn derived_keep_lexemes()
    ensures { DerivedKeepLexemes }
{}

/// Each lexeme of a lowered judgement stands at the inputs of the judgement that was derived, in a
/// hypothesis, in a rule, in a flat body or in the plain table.
pub fn lowered_keep_lexemes()
    ensures { LoweredKeepLexemes }
{}

/// Where the lexemes of an accepted set, of an extension's rules and bodies and of its plain table
/// are tokens, so are those of the set with the extension, its flat bodies among them.
pub fn grown_sets_keep_lexemes()
    ensures { GrownSetsKeepLexemes }
{}
