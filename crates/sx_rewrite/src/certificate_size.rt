//! How big certificates are.

ghost use Rattle.std.specs.Prelude.{◌≡◌};

use crate::given_use::GivenUse;
use crate::lowered_tally::LoweredTally;

/// What a node costs whose rule has the certificate, so that nodes are counted without a walk over
/// it: its own nodes and its own height, its givens not counted, and what it does with the given
/// of each premise. The number of nodes stays at the greatest u128 where it would pass it.
#[derive(Drop)]
pub struct CertificateSize {
    pub nodes: u128,
    pub height: u32,
    pub uses: Vec<GivenUse>,
}

impl CertificateSize {
    /// What is counted of the certificate's own nodes.
    pub fn own_tally(&self) -> LoweredTally
        ensures { result ≡ record { nodes = self.now.nodes; height = self.now.height; copied = 0 } }
    {
        LoweredTally {
            nodes: self.nodes,
            height: u64::from(self.height),
            copied: 0,
        }
    }
}
