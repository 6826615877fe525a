//! Plain pairs and rules that have been read.

ghost use Rattle.std.specs.Prelude.{OnOk};
ghost use Rattle.sx_outline.specs.Reading.{AddsPlain, AddsRule};

use crate::plain_lines::PlainLines;
use crate::rule_lines::RuleLines;
use sx_term::NoMemory;

/// The plain pairs and the rules that have been read whole.
#[derive(Drop)]
pub(crate) struct ReadLines {
    pub plains: Vec<PlainLines>,
    pub rules: Vec<RuleLines>,
}

impl ReadLines {
    /// Adds a plain pair.
    pub(crate) fn add_plain(&mut self, plain: PlainLines) -> Result<(), NoMemory>
        ensures { OnOk result (AddsPlain self.old plain self.new) }
    {
        self.plains.push(plain)?;
        Ok(())
    }

    /// Adds a rule.
    pub(crate) fn add_rule(&mut self, rule: RuleLines) -> Result<(), NoMemory>
        ensures { OnOk result (AddsRule self.old rule self.new) }
    {
        self.rules.push(rule)?;
        Ok(())
    }
}
