//! The makers of the four kinds.

ghost use Rattle.std.specs.Prelude.{◌≡◌, [], codes, IfOk};
ghost use Rattle.sx_audit.specs.Kinds.{deny_kind, depth_kind, nodes_kind, tally_kind};
ghost use Rattle.sx_audit.specs.Kinds.{of_names, of_limit, of_counts};
ghost use Rattle.sx_rules.specs.Limits.{most_levels};
ghost use Rattle.sx_term.specs.Limits.{most_budget};

use crate::auditor::Auditor;
use crate::denying::Deny;
use crate::depths::{Depth, MOST_DEPTH};
use crate::node_count::{MOST_NODES, Nodes};
use crate::tallying::Tally;
use std::alloc::Global;
use sx_term::{NoMemory, Text};

/// The auditor `deny`. It objects to no rule until it is set.
pub fn deny(alloc: Global) -> Result<Deny, NoMemory>
    ensures { IfOk result (λ it. ⟦<Deny as Auditor>⟧.meaning it
        ≡ record { kind = deny_kind (codes "deny"); state = of_names [] }) }
{
    Ok(Deny {
        alloc,
        name: Text::of_str(alloc, "deny")?,
        names: Vec::new(alloc),
    })
}

/// The auditor `depth`. It objects to nodes deeper than 3,000 until it is set.
pub fn depth(alloc: Global) -> Result<Depth, NoMemory>
    ensures { IfOk result (λ it. ⟦<Depth as Auditor>⟧.meaning it
        ≡ record { kind = depth_kind (codes "depth"); state = of_limit most_levels 0 }) }
{
    Ok(Depth {
        name: Text::of_str(alloc, "depth")?,
        limit: MOST_DEPTH,
        greatest: 0,
    })
}

/// The auditor `nodes`. It objects to nodes after the first 1,000,000 until it is set.
pub fn nodes(alloc: Global) -> Result<Nodes, NoMemory>
    ensures { IfOk result (λ it. ⟦<Nodes as Auditor>⟧.meaning it
        ≡ record { kind = nodes_kind (codes "nodes"); state = of_limit most_budget 0 }) }
{
    Ok(Nodes {
        name: Text::of_str(alloc, "nodes")?,
        limit: MOST_NODES,
        seen: 0,
    })
}

/// The auditor `tally`. It counts nothing until it is set.
pub fn tally(alloc: Global) -> Result<Tally, NoMemory>
    ensures { IfOk result (λ it. ⟦<Tally as Auditor>⟧.meaning it
        ≡ record { kind = tally_kind (codes "tally"); state = of_counts [] [] }) }
{
    Ok(Tally {
        alloc,
        name: Text::of_str(alloc, "tally")?,
        rows: Vec::new(alloc),
    })
}
