//! The limits of terms.

ghost use Rattle.sx_rewrite.specs.Puts.{IsLimited};

use crate::rewrite_error::RewriteError;
use sx_plain::Measure;
use sx_term::{MOST_DEPTH, MOST_SIZE};

/// Refuses a measure that passes a limit: the depth, or else the size.
pub fn check_measure(measure: Measure) -> Result<(), RewriteError>
    ensures { IsLimited measure result }
{
    if measure.depth > MOST_DEPTH {
        return Err(RewriteError::TooDeep(u64::from(measure.depth)));
    }
    if measure.size > MOST_SIZE {
        return Err(RewriteError::TooBig(measure.size));
    }
    Ok(())
}
