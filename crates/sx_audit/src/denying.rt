//! The auditor that objects to rules.

ghost use Rattle.std.specs.Prelude.{◌≡◌, ◌++◌, IfOk, codes};
ghost use Rattle.std.specs.List.{flat_map};
ghost use Rattle.sx_audit.specs.Kinds.{deny_kind, of_names, after_blank};

use crate::auditor::Auditor;
use crate::set_error::SetError;
use crate::settings::names;
use crate::texts::put_word;
use std::alloc::Global;
use sx_term::{NoMemory, Text};

/// Objects to each node by one of its rules.
#[derive(Drop)]
pub struct Deny {
    pub(crate) alloc: Global,
    pub(crate) name: Text,
    pub(crate) names: Vec<Text>,
}

/// The names, after the kind's word.
fn names_text(alloc: Global, names: &[Text]) -> Result<Vec<u8>, NoMemory>
    ensures { IfOk result (λ v. v.items ≡ codes "deny" ++ flat_map after_blank names.now) }
{
    let mut made = Vec::new(alloc);
    made.extend_from_slice(b"deny")?;
    for name in names {
        put_word(name.bytes(), &mut made)?;
    }
    Ok(made)
}

impl Auditor for Deny {
    ghost meaning = { λ it. record {
      kind = deny_kind it.name;
      state = of_names it.names.items;
    } };

    fn name(&self) -> &Text {
        &self.name
    }

    fn set(&mut self, setting: &Text) -> Result<(), SetError> {
        match names(self.alloc, setting)? {
            Some(names) => {
                self.names = names;
                Ok(())
            }
            None => Err(SetError::Bad),
        }
    }

    fn see(&mut self, rule: &Text, _depth: u32) -> bool {
        !self.names.contains(rule)
    }

    fn text(&self, alloc: Global, into: &mut Vec<u8>) -> Result<(), NoMemory> {
        let made = names_text(alloc, &self.names)?;
        into.extend_from_slice(&made)?;
        Ok(())
    }
}
