//! The language without extensions, as a dialect.

ghost use Rattle.std.specs.Prelude.{◌≡◌, ℕ, List};
ghost use Rattle.sx_notation.specs.Language.{IsLanguage, language_data};
ghost use Rattle.sx_typing.specs.Dialects.{IsDialectOf, dialect_of};
ghost use Rattle.sx_typing.specs.Growing.{unextended_dialect};
ghost use Rattle.sx_accepting.specs.ExtendedLanguages.{extended_data};
ghost use Rattle.sx_accepting.specs.ExtendedLanguages.{unextended as begun};
ghost use Rattle.sx_accepting.specs.ReadLanguage.{HasText};

use sx_accepting::Extended;
use sx_dialects::dialect;
use sx_notation::Language;
use sx_typing::Dialect;

/// The language, as modules are read and typed in it, where it has no extensions.
pub(crate) fn own_dialect<'a>(language: &'a Language, extended: &'a Extended) -> Dialect<'a>
    requires language { IsLanguage language.now }
    requires text { (name : List ℕ) × HasText name language.now }
    requires extended { extended_data language.now extended.now ≡
        begun (language_data language.now) }
    ensures is { IsDialectOf result }
    ensures data { dialect_of result ≡ unextended_dialect (language_data language.entry.now) }
    ensures language { result.language.now ≡ language.entry.now }
{
    let own = dialect(language, extended);
    Dialect {
        language,
        grammar: own.grammar,
        rule_grammar: own.rule_grammar,
        accepted: own.accepted,
    }
}
