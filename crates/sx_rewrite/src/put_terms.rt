//! What is put for the variables of a rule.

ghost use Rattle.std.specs.Prelude.{◌≤◌, map};
ghost use Rattle.sx_term.specs.Term.{tree};
ghost use Rattle.sx_term.specs.Tree as deep;
ghost use Rattle.sx_plain.specs.Measures.{greatest};
ghost use Rattle.sx_plain.specs.PartMeasures.{depths_of};
ghost use Rattle.sx_term.specs.Limits.{most_depth};

use sx_plain::Measure;
use sx_term::Term;

/// For each variable of a rule how deep and how big the term is that is put for it, and
/// that term where it passes no limit. In the place of one that passes a limit stands
/// any term, since no instance that passes none has its variable.
#[derive(Drop)]
pub(crate) struct PutTerms {
    pub terms: Vec<Term>,
    pub measures: Vec<Measure>,
    ghost shallow: { deep.greatest_depth (deep.forest (map tree terms.items)) ≤ most_depth },
    ghost measured: { greatest (depths_of measures.items) ≤ 1001000 },
}
