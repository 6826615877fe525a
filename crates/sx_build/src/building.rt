//! How far a build went.

use crate::made::Made;
use crate::remembered::Remembered;
use sx_audit::Auditor;
use sx_outside::CleanShelf;

/// The modules that were made so far, in order, the auditors that were shown them, what is
/// remembered of their interfaces, and the files of their extensions.
#[derive(Drop)]
pub(crate) struct Building {
    pub(crate) made: Vec<Made>,
    pub(crate) auditors: Vec<Box<dyn Auditor>>,
    pub(crate) remembered: Remembered,
    pub(crate) extensions: CleanShelf,
}
