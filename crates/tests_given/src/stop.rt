//! An auditor of the tests' own.

ghost use Rattle.std.specs.Prelude.{◌+◌, ◌∷◌, [], Some, codes, nat_lt, slice_index};
ghost use Rattle.sx_audit.specs.Kinds.{as_count};

use std::alloc::Global;
use sx_audit::{Auditor, SetError};
use sx_term::{NoMemory, Text};

/// Objects to its third node and to each after it. It takes every setting, and then begins anew.
#[derive(Drop)]
pub struct Stop {
    name: Text,
    seen: u64,
}

impl Stop {
    /// The auditor `stop`, which has seen no node.
    pub fn new(alloc: Global) -> Result<Stop, NoMemory> {
        Ok(Stop {
            name: Text::of_str(alloc, "stop")?,
            seen: 0,
        })
    }
}

impl Auditor for Stop {
    ghost meaning = { λ it. record {
      kind = record {
        name = it.name;
        step = λ s n. let seen = as_count (slice_index s.numbers 0 + 1) in
            (record { numbers = seen ∷ []; texts = [] }, nat_lt seen 3);
        takes = λ setting. Some (record { numbers = 0 ∷ []; texts = [] });
        text = λ s. codes "stop";
      };
      state = record { numbers = it.seen ∷ []; texts = [] };
    } };

    fn name(&self) -> &Text {
        &self.name
    }

    fn set(&mut self, _setting: &Text) -> Result<(), SetError> {
        self.seen = 0;
        Ok(())
    }

    fn see(&mut self, _rule: &Text, _depth: u32) -> bool {
        self.seen = self.seen.saturating_add(1);
        self.seen < 3
    }

    fn text(&self, _alloc: Global, into: &mut Vec<u8>) -> Result<(), NoMemory> {
        into.extend_from_slice(b"stop")?;
        Ok(())
    }
}
