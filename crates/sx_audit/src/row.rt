//! Rows of names with their counts.

ghost use Rattle.std.specs.Prelude.{◌≡◌};
ghost use Rattle.sx_audit.specs.Rows.{row_after};

use sx_term::Text;

/// A rule's name, and how many nodes were by that rule.
#[derive(Drop)]
pub(crate) struct Row {
    pub(crate) name: Text,
    pub(crate) count: u64,
}

/// Counts a node by this rule where the row is that rule's. A count stays at the greatest number
/// once it stands there.
pub(crate) fn count(row: &mut Row, rule: &Text)
    ensures { row.new ≡ row_after rule.now row.old }
{
    if row.name == *rule {
        row.count = row.count.saturating_add(1);
    }
}
