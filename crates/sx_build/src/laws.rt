//! What is proved of `build NAME`.

ghost use Rattle.sx_build.specs.BuiltModules.{BuildsKeepPromise, BuiltHaveHeadline};
ghost use Rattle.sx_build.specs.Denied.{DeniedAreUnbuilt};
ghost use Rattle.sx_build.specs.Laws.{BuildsAgree, BuildTypeErrorsAreFinal, BuildWalksAreWithin};

use sx_auditing::{denied_are_unlisted, denying_stays, shows_once};
use sx_compiling::{
    type_errors_of_units_are_final, units_agree, units_have_headline, units_walks_are_within,
};

/// Where it ends with a plan, and this is carried out, the modules of the closure are made in
/// order, each after all that it imports and in its dialect, with the interfaces of its imports;
/// their files hold the texts of their units, to which no auditor objects; and all other files are
/// as before.
pub fn builds_keep_promise()
    ensures { BuildsKeepPromise }
{}

/// The three texts of each of these modules. Read without the source: the header of the base text
/// is that of the module without its `use` lines, its body and the signature of the interface read
/// in exactly one way, and the list is that of a derivation by the language's rules alone, in the
/// environment of the imports by their signatures. Read beside the source: all extensions in use
/// are accepted, and that derivation is what the first derivation of the body's only reading is
/// lowered to.
pub fn built_have_headline()
    ensures { BuiltHaveHeadline }
{
    units_have_headline();
}

/// By the name, the budgets, the auditors and the files there is one result and one number of
/// tries, but for read faults and out of memory. Two readings that a refusal shows of a text of a
/// module, of an import's row, or of a line of the language's or an extension's file are the same
/// two in the same order, unless it has more than two.
pub fn builds_agree()
    ensures { BuildsAgree }
{
    units_agree();
    shows_once();
}

/// A type error comes only where the goal of one of the modules has no derivation at all, or where
/// a rule of one of its extensions is not sound; and it names the file of the one or of the other.
pub fn build_type_errors_are_final()
    ensures { BuildTypeErrorsAreFinal }
{
    type_errors_of_units_are_final();
}

/// Each of at most 256 modules takes at most one walk for each rule of its extensions and one for
/// its goal, and no walk makes more tries than it may spend.
pub fn build_walks_are_within()
    ensures { BuildWalksAreWithin }
{
    units_walks_are_within();
}

/// Where an auditor with the step of the kind `deny` is among those of a build that keeps its
/// promise, no list that it writes has one of the rules that this denies.
pub fn denied_are_unbuilt()
    ensures { DeniedAreUnbuilt }
{
    denied_are_unlisted();
    denying_stays();
}
