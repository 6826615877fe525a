//! The dialect that a language becomes by extensions.

ghost use Rattle.std.specs.Prelude.{◌≡◌, ℕ, List};
ghost use Rattle.sx_notation.specs.Language.{IsLanguage, language_data};
ghost use Rattle.sx_accepting.specs.ExtendedLanguages.{extended_data};
ghost use Rattle.sx_accepting.specs.ReadLanguage.{HasText};
ghost use Rattle.sx_typing.specs.Dialects.{IsDialectOf, dialect_of};
ghost use Rattle.sx_dialects.specs.Dialects.{HasHistory, dialect_in};

use sx_accepting::Extended;
use sx_notation::Language;
use sx_typing::Dialect;

/// The language with the extensions by which it became this, as modules are read and typed in it.
pub fn dialect<'a>(language: &'a Language, extended: &'a Extended) -> Dialect<'a>
    requires language { IsLanguage language.now }
    requires text { (name : List ℕ) × HasText name language.now }
    requires extended { HasHistory language.now extended.now }
    ensures is { IsDialectOf result }
    ensures language { result.language.now ≡ language.entry.now }
    ensures data { dialect_of result ≡ dialect_in (language_data language.entry.now)
        (extended_data language.entry.now extended.entry.now) }
{
    let accepted = extended.accepted();
    accepted.facts();
    let grammar = extended.grammar(language);
    let rule_grammar = extended.rule_grammar(language);
    Dialect {
        language,
        grammar,
        rule_grammar,
        accepted,
    }
}
