//! The steps that compare what an interface keeps of another file with what is found.

ghost use Rattle.std.specs.Prelude.{◌≡◌, IfOk};
ghost use Rattle.hex.specs.Hex.{encode_lower};
ghost use Rattle.sx_steps.specs.Stop.{Gives, IsNoFault};
ghost use Rattle.sx_importing.specs.KeptValues as spec;
ghost use Rattle.sx_importing.specs.KeptValues.{KeepsText, KeepsDigest};

use std::alloc::Global;
use sx_interface::Digest;
use sx_steps::{StepError, Stop, refused};
use sx_term::{NoMemory, Text};
use sx_words::{ClosureDefect, Defect, Kept};

/// The refusal of a value that is kept in the file.
pub fn kept_differs(
    alloc: Global,
    file: &Text,
    what: Kept,
    kept: Text,
    found: Text,
) -> Result<Stop, NoMemory>
    ensures { IfOk result (λ stop. stop ≡ spec.kept_differs file.now what kept found) }
{
    refused(
        alloc,
        file,
        Defect::Closure(ClosureDefect::Differs { what, kept, found }),
    )
}

/// The digits of the digest.
fn digits(alloc: Global, digest: &Digest) -> Result<Text, NoMemory>
    ensures { IfOk result (λ text. text ≡ encode_lower digest.now.bytes) }
{
    let digits = hex::encode(alloc, digest.bytes.as_slice())?;
    Text::of_str(alloc, digits.as_str())
}

/// The refusal of a digest that is kept in the file.
pub fn digest_differs(
    alloc: Global,
    file: &Text,
    what: Kept,
    kept: &Digest,
    found: &Digest,
) -> Result<Stop, NoMemory>
    ensures { IfOk result (λ stop. stop ≡ spec.kept_differs file.now what
        (encode_lower kept.now.bytes) (encode_lower found.now.bytes)) }
{
    let kept = digits(alloc, kept)?;
    let found = digits(alloc, found)?;
    kept_differs(alloc, file, what, kept, found)
}

/// The digest that is kept in the file is the one that was found.
pub fn keep_digest(
    alloc: Global,
    file: &Text,
    what: Kept,
    kept: &Digest,
    found: &Digest,
) -> Result<(), StepError>
    ensures step { Gives (λ done. done)
        (KeepsDigest file.now what kept.now.bytes found.now.bytes) result }
    ensures no_fault { IsNoFault result }
{
    if kept.bytes == found.bytes {
        return Ok(());
    }
    match digest_differs(alloc, file, what, kept, found) {
        Ok(stop) => Err(StepError::Stopped(stop)),
        Err(_) => Err(StepError::Memory),
    }
}

/// The text that is kept in the file is the one that was found.
pub fn keep_text(
    alloc: Global,
    file: &Text,
    what: Kept,
    kept: &Text,
    found: Text,
) -> Result<(), StepError>
    ensures step { Gives (λ done. done) (KeepsText file.now what kept.now found) result }
    ensures no_fault { IsNoFault result }
{
    if kept.same(&found) {
        return Ok(());
    }
    let kept = match kept.copy(alloc) {
        Ok(kept) => kept,
        Err(_) => return Err(StepError::Memory),
    };
    match kept_differs(alloc, file, what, kept, found) {
        Ok(stop) => Err(StepError::Stopped(stop)),
        Err(_) => Err(StepError::Memory),
    }
}
