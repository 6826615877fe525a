//! What is proved of `verify NAME`.

ghost use Rattle.sx_verify.specs.Laws.{VerifiesAgree, VerifiesWithoutTypeErrors};
ghost use Rattle.sx_verify.specs.VerifiedModule.{VerifiesKeepPromise};

use sx_dialects::extended_is_dialect;
use sx_environment::one_environment;

/// Where the steps end with a plan, and this is carried out, no file has changed. The kept digests
/// are those of the files; no import has a literal as its name; the body has exactly one reading;
/// and the list is that of a derivation, by the language's rules alone, of the main judgement of
/// the environment of the imports, the body and an output, whose print is the signature.
pub fn verifies_keep_promise()
    ensures { VerifiesKeepPromise }
{}

/// The steps have one result, read faults and out of memory aside, and make no try. Two readings
/// that a stop shows of a line of the language's file, of a signature of an import, or of the body
/// are the same two in the same order, unless it has more than two.
pub fn verifies_agree()
    ensures { VerifiesAgree }
{
    one_environment();
    extended_is_dialect();
}

/// No stop is a type error: what is replayed is not searched.
pub fn verifies_without_type_errors()
    ensures { VerifiesWithoutTypeErrors }
{}
