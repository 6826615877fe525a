//! Laws of lowered derivations by their lists and by the numbers of their terms.

ghost use Rattle.sx_expand.specs.Expansions.{ExpandingIsRewriting};
ghost use Rattle.sx_expand.specs.Laws.{OrdersAreLowered, KidsAreLowered, NodesAreMeasured};
ghost use Rattle.sx_expand.specs.Laws.{NodesHaveSubjects};

/// What a derivation is lowered to has the order that its own order determines.
pub fn orders_are_lowered()
    ensures { OrdersAreLowered }
{}

/// Kids that are read have what they are lowered to, with their subjects at the numbers.
pub fn kids_are_lowered()
    ensures { KidsAreLowered }
{}

/// A node over such kids whose own terms pass no limit has no measured term that passes one, and
/// where it is refused the error tells the first that does.
pub fn nodes_are_measured()
    ensures { NodesAreMeasured }
{}

/// The subject of what such a node is lowered to stands at the number.
pub fn nodes_have_subjects()
    ensures { NodesHaveSubjects }
{}

/// The boxed `rewrite` answers the same of a derivation as `expand` does of its list, unless memory
/// is lacking: a derivation with that list, the same judgement and as many copied nodes, or the
/// same refusal. So do `rewrite_open` and `expand_open`.
pub fn expanding_is_rewriting()
    ensures { ExpandingIsRewriting }
{}
