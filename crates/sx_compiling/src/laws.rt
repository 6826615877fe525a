//! What is proved of the units of modules.

ghost use Rattle.sx_compiling.specs.Headline.{UnitsKeepPromise, UnitsHaveHeadline};
ghost use Rattle.sx_compiling.specs.Laws.{UnitsAgree, TypeErrorsOfUnitsAreFinal};
ghost use Rattle.sx_compiling.specs.Laws.{UnitsWalksAreWithin};

use sx_interface::interfaces_are_within;
use sx_outline::one_extension_header;

/// Where the steps end with a unit, this is that of the module in its dialect, whose extensions are
/// all accepted, in the environment of its imports.
pub fn units_keep_promise()
    ensures { UnitsKeepPromise }
{}

/// By what is given, the budgets and the files there is one result and one number of tries, but for
/// read faults and out of memory. Two readings that a refusal shows of a text of the module, of an
/// import's row, or of a line of an extension's file are the same two in the same order, unless it
/// has more than two.
pub fn units_agree()
    ensures { UnitsAgree }
{
    one_extension_header();
}

/// A type error comes only where the body's goal has no derivation at all, or where a rule of an
/// extension is not sound; and it names the file of the one or of the other.
pub fn type_errors_of_units_are_final()
    ensures { TypeErrorsOfUnitsAreFinal }
{}

/// The three texts of a unit. Read without the source: the header of the base text is that of the
/// module without its `use` lines, its body and the signature of the interface read in exactly one
/// way, and the list is that of a derivation by the language's rules alone, in the environment of
/// the imports by their signatures. Read beside the source: all extensions in use are accepted, and
/// that derivation is what the first derivation of the body's only reading is lowered to, by the
/// rules of the language and the extensions in the environment of what is seen of the imports.
pub fn units_have_headline()
    ensures { UnitsHaveHeadline }
{
    interfaces_are_within();
}

/// A unit takes at most one walk for each rule of the extensions and one for the module, and no
/// walk makes more tries than it may spend.
pub fn units_walks_are_within()
    ensures { UnitsWalksAreWithin }
{}
