//! The accepted set without extensions.

ghost use Rattle.std.specs.Prelude.{◌≡◌, ◌<◌, ◌^◌, IfOk, length};
ghost use Rattle.sx_term.specs.Untyped.{PlainHaveNoTyped};
ghost use Rattle.sx_rules.specs.Sets.{shapes_in, forms_in, rules_in};
ghost use Rattle.sx_rules.specs.Sets.{bare_rules_in};
ghost use Rattle.sx_rewrite.specs.Extensions.{without_extensions};
ghost use Rattle.sx_rewrite.specs.Kinds.{HaveSortsFor};
ghost use Rattle.sx_rewrite.specs.AcceptedView.{accepted};

use crate::accepted::Accepted;
use crate::grown::Grown;
use crate::rule_sets::copied;
use std::alloc::Global;
use sx_plain::PlainTable;
use sx_rules::RuleSet;
use sx_term::NoMemory;

impl Accepted {
    /// The set without extensions: the base rules alone. The base labels of its plain table
    /// are those of the rules' shapes. The one refusal is out of memory.
    pub fn none(alloc: Global, base: &RuleSet) -> Result<Accepted, NoMemory>
        requires no_typed { PlainHaveNoTyped (shapes_in base.now) }
        requires forms { HaveSortsFor (forms_in base.now) }
        requires labels { length (shapes_in base.now) < 2 ^ 32 }
        ensures set { IfOk result (λ a. accepted a ≡ without_extensions (bare_rules_in base.now)) }
        ensures rules { IfOk result
            (λ a. (rules_in a.base ≡ rules_in base.now) × (rules_in a.rules ≡ rules_in base.now)) }
        ensures shapes { IfOk result
            (λ a. (shapes_in a.base ≡ shapes_in base.now)
            × (shapes_in a.rules ≡ shapes_in base.now)) }
        ensures forms { IfOk result (λ a. forms_in a.base ≡ forms_in base.now) }
    {
        base.facts();
        let first = base.rule_count();
        let labels = base.shapes().cons.len() as u32;
        let own = copied(alloc, base)?;
        own.facts();
        match two_copies(alloc, base) {
            Ok(Grown { rules, plain_rules }) => Ok(Accepted {
                alloc,
                base: own,
                rules,
                plain_rules,
                first,
                plain: PlainTable::new(alloc, labels),
                flats: Vec::new(alloc),
                sizes: Vec::new(alloc),
            }),
            Err(e) => {
                drop(own);
                Err(e)
            }
        }
    }
}

/// Two equal sets. The one refusal is out of memory.
fn two_copies(alloc: Global, set: &RuleSet) -> Result<Grown, NoMemory>
    ensures rules { IfOk result
        (λ x. (shapes_in x.rules ≡ shapes_in set.now) × (forms_in x.rules ≡ forms_in set.now)
        × (rules_in x.rules ≡ rules_in set.now)) }
    ensures plain { IfOk result
        (λ x. (shapes_in x.plain_rules ≡ shapes_in set.now)
        × (forms_in x.plain_rules ≡ forms_in set.now)
        × (rules_in x.plain_rules ≡ rules_in set.now)) }
{
    let rules = copied(alloc, set)?;
    match copied(alloc, set) {
        Ok(plain_rules) => Ok(Grown { rules, plain_rules }),
        Err(e) => {
            drop(rules);
            Err(e)
        }
    }
}
