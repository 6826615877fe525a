//! The state of a search.

use sx_arena::Limit;

/// A search goes on with its tasks, or it has come to a limit, or memory is lacking.
#[derive(Clone, Copy)]
pub(crate) enum State {
    Open,
    Passed(Limit),
    DepthSpent,
    Failed,
}
