//! The step that compares the signature of an interface.

ghost use Rattle.std.specs.Prelude.{◌≡◌, IfOk};
ghost use Rattle.sx_term.specs.declared.role.Role.TheVariants.{Out};
ghost use Rattle.sx_term.specs.Term.{tree};
ghost use Rattle.sx_notation.specs.Language.{IsLanguage, language_data};
ghost use Rattle.sx_unit.specs.Texts.{print_text};
ghost use Rattle.sx_words.specs.declared.closure_defect.Kept.TheVariants.{Signature};
ghost use Rattle.sx_steps.specs.Stop.{Gives, IsNoFault};
ghost use Rattle.sx_importing.specs.KeptValues.{KeepsText};
ghost use Rattle.sx_verify.specs.Replays.{IsTermOf};

use std::alloc::Global;
use sx_importing::keep_text;
use sx_notation::Language;
use sx_steps::StepError;
use sx_term::{NoMemory, Term, Text};
use sx_unit::show;
use sx_words::Kept;

/// The printed text of an output.
fn shown(alloc: Global, language: &Language, output: &Term) -> Result<Text, NoMemory>
    requires language { IsLanguage language.now }
    requires output { IsTermOf (language_data language.now) Out (tree output.now) }
    ensures { IfOk result (λ text.
        text ≡ print_text (language_data language.now).parts (tree output.now)) }
{
    let bytes = show(alloc, &language.grammar, output)?;
    Text::of_utf8(alloc, &bytes)
}

/// The signature that is kept in the file is the output, printed by the language's grammar.
pub(crate) fn keep_signature(
    alloc: Global,
    file: &Text,
    language: &Language,
    kept: &Text,
    output: &Term,
) -> Result<(), StepError>
    requires language { IsLanguage language.now }
    requires output { IsTermOf (language_data language.now) Out (tree output.now) }
    ensures step { Gives (λ done. done) (KeepsText file.now Signature kept.now
        (print_text (language_data language.now).parts (tree output.now))) result }
    ensures no_fault { IsNoFault result }
{
    match shown(alloc, language, output) {
        Ok(found) => keep_text(alloc, file, Kept::Signature, kept, found),
        Err(_) => Err(StepError::Memory),
    }
}
