//! Moving what one list has into another one.

ghost use Rattle.std.specs.Prelude.{◌≡◌, ◌++◌, IfOk};

use std::alloc::AllocError;

/// Moves the items behind those of the list.
pub(crate) fn move_behind<T: Drop>(list: &mut Vec<T>, more: Vec<T>) -> Result<(), AllocError>
    ensures { IfOk result (λ _. list.new.items ≡ list.old.items ++ more.items) }
{
    let mut more = more;
    let moved = list.append(&mut more);
    drop(more);
    moved
}
