//! What is proved of `compile NAME`.

ghost use Rattle.sx_compile.specs.CompiledModule.{CompilesKeepPromise, CompiledHasHeadline};
ghost use Rattle.sx_compile.specs.Denied.{DeniedAreUncompiled};
ghost use Rattle.sx_compile.specs.Laws.{CompilesAgree, CompileTypeErrorsAreFinal};
ghost use Rattle.sx_compile.specs.Laws.{CompileWalksAreWithin};

use sx_auditing::{denied_are_unlisted, shows_once};
use sx_compiling::{
    type_errors_of_units_are_final, units_agree, units_have_headline, units_walks_are_within,
};

/// Where it ends with a plan, and this is carried out, the three files hold the texts of the
/// module's unit in its dialect, in the environment of its imports, to which no auditor objects.
pub fn compiles_keep_promise()
    ensures { CompilesKeepPromise }
{}

/// The three files that it leaves. Read without the source: the header of the base file is that of
/// the module without its `use` lines, its body and the signature of the interface read in exactly
/// one way, and the list is that of a derivation by the language's rules alone, in the environment
/// of the imports by their signatures. Read beside the source: all extensions in use are accepted,
/// and that derivation is what the first derivation of the body's only reading is lowered to.
pub fn compiled_has_headline()
    ensures { CompiledHasHeadline }
{
    units_have_headline();
}

/// By the name, the budgets, the auditors and the files there is one result and one number of
/// tries, but for read faults and out of memory. Two readings that a refusal shows of a text of the
/// module, of an import's row, or of a line of the language's or an extension's file are the same
/// two in the same order, unless it has more than two.
pub fn compiles_agree()
    ensures { CompilesAgree }
{
    units_agree();
    shows_once();
}

/// A type error comes only where the body's goal has no derivation at all, or where a rule of an
/// extension is not sound; and it names the file of the one or of the other.
pub fn compile_type_errors_are_final()
    ensures { CompileTypeErrorsAreFinal }
{
    type_errors_of_units_are_final();
}

/// A module takes at most one walk for each rule of the extensions and one for its goal, and no
/// walk makes more tries than it may spend.
pub fn compile_walks_are_within()
    ensures { CompileWalksAreWithin }
{
    units_walks_are_within();
}

/// Where an auditor with the step of the kind `deny` is among those of the command, the list that
/// it writes has none of the rules that this denies.
pub fn denied_are_uncompiled()
    ensures { DeniedAreUncompiled }
{
    denied_are_unlisted();
}
