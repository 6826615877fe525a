//! What holds of runs.

ghost use Rattle.sx_top.specs.Denied.{DeniedAreUnwritten};
ghost use Rattle.sx_top.specs.Laws.{OneCoreOutcome, OneOutcome, TypeErrorsAreFinal};
ghost use Rattle.sx_top.specs.Search.{WalksAreWithin};

use sx_auditing::denied_are_kept;
use sx_build::{build_type_errors_are_final, builds_agree, denied_are_unbuilt};
use sx_compile::{compile_type_errors_are_final, compiles_agree, denied_are_uncompiled};
use sx_outline::one_extension_header;
use sx_sampling::{sample_type_errors_are_final, samples_agree};
use sx_verify::verifies_agree;

/// By the words and the files there is one outcome, but for read faults and out of memory: what is
/// to be written, or one refusal, and one number of tries. Two readings that a refusal shows of a
/// text of a module, of an import's row, or of a line of a language's or an extension's file are
/// the same two in the same order, unless it has more than two.
pub fn one_outcome()
    ensures core { OneCoreOutcome }
    ensures whole { OneOutcome }
{
    one_extension_header();
    builds_agree();
    compiles_agree();
    verifies_agree();
    samples_agree();
}

/// A type error comes only where the command's goal has no derivation at all, of whatever depth and
/// size, or where the rule that it is about, of an extension that is checked or used, is not sound.
pub fn type_errors_are_final()
    ensures { TypeErrorsAreFinal }
{
    build_type_errors_are_final();
    compile_type_errors_are_final();
    sample_type_errors_are_final();
}

/// The walk of a core problem's goal makes no more tries than it may spend.
pub fn walks_are_within()
    ensures { WalksAreWithin }
{}

/// Where a word names an auditor, and the first that is handed in under this name has the settings
/// and the step of the kind `deny`, no list that the command writes has a rule that the word lists.
pub fn denied_are_unwritten()
    ensures { DeniedAreUnwritten }
{
    denied_are_unbuilt();
    denied_are_uncompiled();
    denied_are_kept();
}
