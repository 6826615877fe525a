//! Reading core files.

ghost use Rattle.sx_core.specs.CoreRead.{IsCoreRead};

use crate::core_lines::read_rows;
use crate::error::CoreFileError;
use crate::problem::CoreProblem;
use crate::sort_reading::find_sorts;
use std::alloc::Global;
use sx_lines::Rest;

/// What a core file states. Lines past 4,294,967,294 have all the number 4,294,967,295. Sorts or
/// forms that a `u32` cannot number are out of memory.
pub fn read_core_file(alloc: Global, bytes: &[u8]) -> Result<CoreProblem, CoreFileError>
    ensures { IsCoreRead bytes.now result }
{
    match std::str::from_utf8(bytes) {
        Ok(_) => {
            let rest = Rest::all(bytes);
            let sorts = find_sorts(alloc, rest)?;
            read_rows(alloc, sorts, rest)
        }
        Err(e) => Err(CoreFileError::NotUtf8(e.valid_up_to())),
    }
}
