//! What holds of the size of lowered nodes.

ghost use Rattle.sx_rewrite.specs.CountLaws.{CertificatesUsePremises, NodesAreSummed};
ghost use Rattle.sx_rewrite.specs.CountLaws.{HeightIsGreatest};

/// The nodes of a proof with others in the place of its givens are its own,
/// and those of each other as often as its given stands.
pub fn nodes_are_summed()
    ensures { NodesAreSummed }
{}

/// It is as deep as it is by itself, or as one of the others with the nodes above it.
pub fn height_is_greatest()
    ensures { HeightIsGreatest }
{}

/// A certificate uses the givens of its rule's premises alone.
pub fn certificates_use_premises()
    ensures { CertificatesUsePremises }
{}
