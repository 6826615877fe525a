//! Stems of metavariables.

use sx_term::{Sort, Text};

/// Distinct stems of metavariables, with the sorts of what they stand for. A metavariable's stem is
/// its word without the ASCII digits at its end.
#[derive(Drop)]
pub struct Metas {
    pub stems: Vec<(Text, Sort)>,
}
