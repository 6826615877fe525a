//! What a verified name leaves to do: the line.

ghost use Rattle.std.specs.Prelude.{◌≡◌, IfOk};
ghost use Rattle.sx_steps.specs.Work.{plan_of};
ghost use Rattle.sx_verify.specs.Verified.{verified_plan};

use std::alloc::Global;
use sx_steps::{Work, nodes_line};
use sx_term::{NoMemory, Text};

/// No file to write, and the line.
pub fn verified_work(alloc: Global, name: &Text, nodes: u64) -> Result<Work, NoMemory>
    ensures { IfOk result (λ work. plan_of work ≡ verified_plan name.now nodes) }
{
    let lines = nodes_line(alloc, "verified", name, nodes)?;
    Ok(Work {
        files: Vec::new(alloc),
        lines,
    })
}
