//! Hypotheses of which there are none.

ghost use Rattle.std.specs.Prelude.{◌≡◌, []};
ghost use Rattle.sx_rules.specs.Rules.{no_hypotheses};
ghost use Rattle.sx_rules.specs.Views.{hypotheses};

use crate::rule::Hyps;
use std::alloc::Global;

impl Hyps {
    /// No hypotheses.
    pub fn none(alloc: Global) -> Hyps
        ensures none { hypotheses result ≡ no_hypotheses }
        ensures holds { result.holds.items ≡ [] }
        ensures apart { result.apart.items ≡ [] }
    {
        Hyps {
            holds: Vec::new(alloc),
            apart: Vec::new(alloc),
        }
    }
}
