//! Plans of modules.

ghost use Rattle.std.specs.Prelude.{◌≡◌, ◌<◌};

use std::alloc::Global;
use std::marker::Brand;
use std::sync::ledger::{Blank, Ledger};
use sx_build::plan_build_module;
use sx_extcheck::Budgets;
use sx_outside::Shelf;
use sx_steps::{StepError, Work};
use sx_term::{Steps, Text};

/// The plan of the module, within so many tries and as many nodes.
fn planned<L: Ledger, S: Shelf>(
    alloc: Global,
    name: &Text,
    most: u64,
    shelf: &mut S,
    blank: Blank,
) -> Result<Work, StepError>
    requires name { blank.name ≡ L.name }
    requires parts { blank.parts ≡ L.parts }
    requires some { 0 < blank.parts }
{
    let mut steps = Steps::<L>::new(blank);
    let budgets = Budgets {
        tries: most,
        nodes: most,
    };
    plan_build_module(alloc, name, budgets, Vec::new(alloc), shelf, &mut steps)
}

/// The plan of `Main`, within so many tries and as many nodes.
pub fn planned_main<S: Shelf>(alloc: Global, most: u64, shelf: &mut S) -> Result<Work, StepError> {
    match Text::make(alloc, b"Main") {
        Ok(name) => {
            let answer = planned::<Brand, S>(alloc, &name, most, shelf, Blank::new(1));
            drop(name);
            answer
        }
        Err(_) => Err(StepError::Memory),
    }
}
