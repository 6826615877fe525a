//! Laws of readings.

ghost use Rattle.sx_forest.specs.Fitting.{ReadingsAreWithin, ReadingsAreMarked};
ghost use Rattle.sx_forest.specs.Fitting.{ReadingsHaveFewNames};
ghost use Rattle.sx_forest.specs.Places.{LeavesTogether};

/// There is no place for a path exactly where it leaves the term of the reading, whatever names the
/// variables have.
pub fn paths_leave_together()
    ensures { LeavesTogether }
{}

/// What reads tokens by a grammar has labels of the grammar, has only these tokens as lexemes and
/// metavariables, and has no more names than it reads tokens. So it can be written and stripped.
pub fn readings_fit()
    ensures within { ReadingsAreWithin }
    ensures marked { ReadingsAreMarked }
    ensures few { ReadingsHaveFewNames }
{}
