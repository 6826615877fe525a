//! Laws of nodes that are shown.

ghost use Rattle.sx_audit.specs.Laws.{DeniedAreAbsent, DerivationsAreByRules, LinesNameNodes};

/// None of the nodes that an auditor of the kind `deny` admits is by one of its rules.
pub fn denied_are_absent()
    ensures { DeniedAreAbsent }
{}

/// A derivation without hypotheses has no givens, and is by its rules.
pub fn derivations_are_by_rules()
    ensures { DerivationsAreByRules }
{}

/// The rules of the nodes of a derivation without hypotheses are those that the lines of its list
/// name.
pub fn lines_name_nodes()
    ensures { LinesNameNodes }
{}
