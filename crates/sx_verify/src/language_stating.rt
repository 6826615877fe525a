//! The steps from the bytes of a language's file.

ghost use Rattle.std.specs.Prelude.{◌≡◌, ◌≤◌, IfOk, length};
ghost use Rattle.sha2.specs.Sha256.{sha256};
ghost use Rattle.sx_notation.specs.Language.{IsLanguage};
ghost use Rattle.sx_steps.specs.Stop.{Gives, IsNoFault};
ghost use Rattle.sx_accepting.specs.ReadLanguage.{stated_of, StatesLanguage, HasText};
ghost use Rattle.sx_term.specs.Limits.{most_bytes};

use std::alloc::Global;
use sx_accepting::{LanguageFile, bad_language};
use sx_interface::Digest;
use sx_language::read_language;
use sx_steps::{StepError, with_suffix};
use sx_term::Text;

/// The language that the bytes of its file state, which have this digest.
pub(crate) fn state_language(
    alloc: Global,
    name: &Text,
    bytes: &[u8],
    digest: Digest,
) -> Result<LanguageFile, StepError>
    requires short { length bytes.now ≤ most_bytes }
    requires digest { digest.bytes ≡ sha256 bytes.now }
    ensures step { Gives stated_of (StatesLanguage name.now bytes.now) result }
    ensures fit { IfOk result (λ l. IsLanguage l.language) }
    ensures text { IfOk result (λ l. HasText name.now l.language) }
    ensures named { IfOk result (λ l. l.language.name ≡ name.now) }
    ensures no_fault { IsNoFault result }
{
    let file = match with_suffix(alloc, name, ".lang") {
        Ok(file) => file,
        Err(_) => return Err(StepError::Memory),
    };
    match read_language(alloc, name, bytes) {
        Ok(language) => Ok(LanguageFile { language, digest }),
        Err(error) => match bad_language(alloc, &file, error) {
            Ok(stop) => Err(StepError::Stopped(stop)),
            Err(_) => Err(StepError::Memory),
        },
    }
}
