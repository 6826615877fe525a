//! The auditor that objects to depth.

ghost use Rattle.sx_audit.specs.Kinds.{depth_kind, of_limit};

use crate::auditor::Auditor;
use crate::set_error::SetError;
use crate::texts::limit_text;
use std::alloc::Global;
use sx_lines::count_of;
use sx_term::{NoMemory, Text};

/// The greatest limit, which stands until another is set.
pub(crate) const MOST_DEPTH: u64 = sx_rules::MOST_LEVELS as u64;

/// Objects to each node that is deeper than its limit.
#[derive(Drop)]
pub struct Depth {
    pub(crate) name: Text,
    pub(crate) limit: u64,
    pub(crate) greatest: u64,
}

impl Auditor for Depth {
    ghost meaning = { λ it. record {
      kind = depth_kind it.name;
      state = of_limit it.limit it.greatest;
    } };

    fn name(&self) -> &Text {
        &self.name
    }

    fn set(&mut self, setting: &Text) -> Result<(), SetError> {
        match count_of(MOST_DEPTH, setting.bytes()) {
            Some(limit) => {
                self.limit = limit;
                self.greatest = 0;
                Ok(())
            }
            None => Err(SetError::Bad),
        }
    }

    fn see(&mut self, _rule: &Text, depth: u32) -> bool {
        self.greatest = self.greatest.max(u64::from(depth));
        u64::from(depth) <= self.limit
    }

    fn text(&self, alloc: Global, into: &mut Vec<u8>) -> Result<(), NoMemory> {
        let made = limit_text(alloc, b"depth", self.limit, self.greatest)?;
        into.extend_from_slice(&made)?;
        Ok(())
    }
}
