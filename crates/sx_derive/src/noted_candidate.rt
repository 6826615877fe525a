//! A candidate of which a premise is noted.

use crate::candidate::Candidate;

/// A goal's first candidate, and the number of the premise that is known to have no answer.
#[derive(Clone, Copy)]
pub(crate) struct NotedCandidate<'a> {
    pub(crate) candidate: Candidate<'a>,
    pub(crate) noted: Option<usize>,
}
