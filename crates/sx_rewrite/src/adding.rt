//! Adding extensions to accepted sets.

ghost use Rattle.std.specs.Prelude.{◌≡◌, ◌++◌, length, map, IfOk};
ghost use Rattle.sx_term.specs.Shapes.{shapes};
ghost use Rattle.sx_rules.specs.Deep.{RulesAreShallow};
ghost use Rattle.sx_rules.specs.Good.{IsRuleSet};
ghost use Rattle.sx_rules.specs.Sets.{shapes_in, forms_in, rules_in};
ghost use Rattle.sx_rules.specs.Views.{named, rule};
ghost use Rattle.sx_plain.specs.Views.{table_of};
ghost use Rattle.sx_rewrite.specs.Extensions.{FitsRules, with_table};
ghost use Rattle.sx_rewrite.specs.Sound.{AreSoundBy};
ghost use Rattle.sx_rewrite.specs.AcceptedView.{accepted, signature};
ghost use Rattle.sx_rewrite.specs.ExtensionView.{ext_rule, named_rules, extension_with};
ghost use Rattle.sx_rewrite.specs.Shallow.{IsShallowFlat};
ghost use Rattle.sx_rewrite.specs.Adds.{IsExtensionAdded};
ghost use Rattle.std.specs.List.{AllByRecursion};
ghost use Rattle.sx_rewrite.specs.PlainRules.{plain_named, RuleHasImage};

use crate::accepted::Accepted;
use crate::certificates::Certificates;
use crate::ext_rule::ExtRule;
use crate::extension_data::ExtensionData;
use crate::flat::Flat;
use crate::grown::Grown;
use crate::plain_rule::plain_rules;
use crate::rule_sets::with_more;
use crate::sizing::certificate_sizes;
use std::alloc::Global;
use sx_plain::PlainTable;
use sx_rules::{Rule, RuleSet};
use sx_term::{NoMemory, Shapes};

impl Accepted {
    /// The set with the extension after it: its rules, each with the flat body and the
    /// certificate at its place, and its plain table. Bodies and the terms of
    /// certificates are no deeper than 1,000, and certificates no deeper than 3,000. The
    /// one refusal is out of memory, and hands the set back as it was.
    pub fn add(
        self,
        all: &Shapes,
        ext: ExtensionData,
        flats: Vec<Flat>,
    ) -> Result<Accepted, Accepted>
        requires good { IsRuleSet (shapes all.now) (forms_in self.rules)
            (rules_in self.rules ++ named_rules ext) }
        requires shallow { RulesAreShallow (map (λ e. rule e.rule) ext.rules.items) }
        requires stored { AllByRecursion IsShallowFlat flats.items }
        requires images { AllByRecursion
            (λ e. RuleHasImage (table_of ext.plain) (rule e.rule)) ext.rules.items }
        requires labels { ext.plain.base ≡ self.plain.base }
        requires fits { FitsRules (signature self) (shapes_in self.base) (shapes_in self.rules)
            (shapes all.now) (table_of self.plain) (table_of ext.plain)
            (map ext_rule ext.rules.items) }
        requires sound { AreSoundBy (signature self).subjects (length (shapes_in self.base))
            (with_table (accepted self) (table_of ext.plain))
            (map ext_rule ext.rules.items) (extension_with ext flats.items).stored }
        requires many { length flats.items ≡ length ext.rules.items }
        ensures { IsExtensionAdded self (shapes all.now) ext flats.items result }
    {
        self.facts();
        let ExtensionData { name, rules, plain } = ext;
        drop(name);
        let alloc = self.alloc;
        match certificate_sizes(alloc, &rules, &flats) {
            Ok(sizes) => match grown(alloc, &self, all, &plain, rules) {
                Ok(grown) => self.joined(grown, plain, Certificates { flats, sizes }),
                Err(_) => {
                    drop(plain);
                    drop(flats);
                    drop(sizes);
                    Err(self)
                }
            },
            Err(_) => {
                drop(rules);
                drop(plain);
                drop(flats);
                Err(self)
            }
        }
    }
}

/// The rules of the set and then those of an extension, and the plain rules of all.
fn grown(
    alloc: Global,
    set: &Accepted,
    all: &Shapes,
    plain: &PlainTable,
    rules: Vec<ExtRule>,
) -> Result<Grown, NoMemory>
    requires shallow { RulesAreShallow (map (λ e. rule e.rule) rules.items) }
    requires good { IsRuleSet (shapes all.now) (forms_in set.now.rules)
        (rules_in set.now.rules ++ map (λ e. named e.rule) rules.items) }
    requires images { AllByRecursion
        (λ e. RuleHasImage (table_of plain.now) (rule e.rule)) rules.items }
    requires plain_good { IsRuleSet (shapes all.now) (forms_in set.now.plain_rules)
        (rules_in set.now.plain_rules
        ++ map (λ e. plain_named (table_of plain.now) (named e.rule)) rules.items) }
    ensures rules { IfOk result
        (λ x. (shapes_in x.rules ≡ shapes all.now) × (forms_in x.rules ≡ forms_in set.now.rules)
        × (rules_in x.rules ≡ rules_in set.now.rules ++ map (λ e. named e.rule) rules.items)) }
    ensures plain { IfOk result
        (λ x. (shapes_in x.plain_rules ≡ shapes all.now)
        × (forms_in x.plain_rules ≡ forms_in set.now.plain_rules)
        × (rules_in x.plain_rules ≡ rules_in set.now.plain_rules
        ++ map (λ e. plain_named (table_of plain.now) (named e.rule)) rules.items)) }
{
    match grown_plain(alloc, &set.plain_rules, all, plain, &rules) {
        Ok(plain_rules) => match grown_rules(alloc, &set.rules, all, rules) {
            Ok(rules) => Ok(Grown { rules, plain_rules }),
            Err(e) => {
                drop(plain_rules);
                Err(e)
            }
        },
        Err(e) => {
            drop(rules);
            Err(e)
        }
    }
}

/// The plain rules so far and then those of an extension.
fn grown_plain(
    alloc: Global,
    set: &RuleSet,
    all: &Shapes,
    plain: &PlainTable,
    rules: &[ExtRule],
) -> Result<RuleSet, NoMemory>
    requires images { AllByRecursion
        (λ e. RuleHasImage (table_of plain.now) (rule e.rule)) rules.now }
    requires good { IsRuleSet (shapes all.now) (forms_in set.now)
        (rules_in set.now
        ++ map (λ e. plain_named (table_of plain.now) (named e.rule)) rules.now) }
    ensures { IfOk result (λ x. (shapes_in x ≡ shapes all.now) × (forms_in x ≡ forms_in set.now)
        × (rules_in x ≡ rules_in set.now
        ++ map (λ e. plain_named (table_of plain.now) (named e.rule)) rules.now)) }
{
    let more = plain_rules(alloc, plain, rules)?;
    with_more(alloc, set, all, more)
}

/// The rules of the set and then those of an extension, without their bodies.
fn grown_rules(
    alloc: Global,
    set: &RuleSet,
    all: &Shapes,
    rules: Vec<ExtRule>,
) -> Result<RuleSet, NoMemory>
    requires shallow { RulesAreShallow (map (λ e. rule e.rule) rules.items) }
    requires good { IsRuleSet (shapes all.now) (forms_in set.now)
        (rules_in set.now ++ map (λ e. named e.rule) rules.items) }
    ensures { IfOk result (λ x. (shapes_in x ≡ shapes all.now) × (forms_in x ≡ forms_in set.now)
        × (rules_in x ≡ rules_in set.now ++ map (λ e. named e.rule) rules.items)) }
{
    let more = bare(alloc, rules)?;
    with_more(alloc, set, all, more)
}

/// The rules without their bodies.
fn bare(alloc: Global, rules: Vec<ExtRule>) -> Result<Vec<Rule>, NoMemory>
    ensures { IfOk result (λ x. map named x.items ≡ map (λ e. named e.rule) rules.items) }
{
    let mut more = Vec::with_capacity(alloc, rules.len())?;
    for ext in rules {
        let ExtRule { rule, body } = ext;
        drop(body);
        more.push(rule)?;
    }
    Ok(more)
}
