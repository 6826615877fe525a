//! The auditor that objects to too many nodes.

ghost use Rattle.sx_audit.specs.Kinds.{nodes_kind, of_limit};

use crate::auditor::Auditor;
use crate::set_error::SetError;
use crate::texts::limit_text;
use std::alloc::Global;
use sx_lines::count_of;
use sx_term::{NoMemory, Text};

/// The greatest limit, which stands until another is set.
pub(crate) const MOST_NODES: u64 = sx_term::MOST_BUDGET;

/// Objects to each node after as many as its limit.
#[derive(Drop)]
pub struct Nodes {
    pub(crate) name: Text,
    pub(crate) limit: u64,
    pub(crate) seen: u64,
}

impl Auditor for Nodes {
    ghost meaning = { λ it. record {
      kind = nodes_kind it.name;
      state = of_limit it.limit it.seen;
    } };

    fn name(&self) -> &Text {
        &self.name
    }

    fn set(&mut self, setting: &Text) -> Result<(), SetError> {
        match count_of(MOST_NODES, setting.bytes()) {
            Some(limit) => {
                self.limit = limit;
                self.seen = 0;
                Ok(())
            }
            None => Err(SetError::Bad),
        }
    }

    fn see(&mut self, _rule: &Text, _depth: u32) -> bool {
        self.seen = self.seen.saturating_add(1);
        self.seen <= self.limit
    }

    fn text(&self, alloc: Global, into: &mut Vec<u8>) -> Result<(), NoMemory> {
        let made = limit_text(alloc, b"nodes", self.limit, self.seen)?;
        into.extend_from_slice(&made)?;
        Ok(())
    }
}
