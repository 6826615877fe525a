//! What is proved of `sample N`.

ghost use Rattle.sx_sampling.specs.Laws.{SamplesAgree, SampleTypeErrorsAreFinal};
ghost use Rattle.sx_sampling.specs.Laws.{SampleWalksAreWithin};
ghost use Rattle.sx_sampling.specs.Sampled.{SamplesKeepPromise, SampledHaveHeadline};

use sx_compiling::{
    type_errors_of_units_are_final, units_agree, units_have_headline, units_walks_are_within,
};

/// Where it ends with a plan, and this is carried out, there is a unit of the sample in its
/// dialect, over the files that the sample needs alone; all files are as before, and the line
/// tells how big the unit is.
pub fn samples_keep_promise()
    ensures { SamplesKeepPromise }
{}

/// The unit whose size it tells. Read without the source: the header of the base text is that of
/// the sample without its `use` lines, its body and the signature of the interface read in exactly
/// one way, and the list is that of a derivation by the language's rules alone, in the environment
/// of the imports by their signatures. Read beside the source: all extensions in use are accepted,
/// and that derivation is what the first derivation of the body's only reading is lowered to.
pub fn sampled_have_headline()
    ensures { SampledHaveHeadline }
{
    units_have_headline();
}

/// By the number of names there is one result and one number of tries, but for read faults and out
/// of memory. Two readings that a refusal shows of a text of the sample, of an import's row, or of
/// a line of the language's or an extension's file are the same two in the same order, unless it
/// has more than two.
pub fn samples_agree()
    ensures { SamplesAgree }
{
    units_agree();
}

/// A type error comes only where the body's goal has no derivation at all, or where a rule of an
/// extension is not sound; and it names the file of the one or of the other.
pub fn sample_type_errors_are_final()
    ensures { SampleTypeErrorsAreFinal }
{
    type_errors_of_units_are_final();
}

/// A sample takes at most one walk for each rule of the extensions and one for its goal, and no
/// walk makes more tries than it may spend.
pub fn sample_walks_are_within()
    ensures { SampleWalksAreWithin }
{
    units_walks_are_within();
}
