//! The settings of auditors.

ghost use Rattle.std.specs.Prelude.{◌≡◌, ◌==◌, map, true, IfOk, option_map};
ghost use Rattle.std.specs.List.{slice_split};
ghost use Rattle.sx_audit.specs.Kinds as spec;

use std::alloc::{AllocError, Global};
use sx_lines::is_name;
use sx_term::{NoMemory, Text};

/// The most names that a setting lists.
const MOST_NAMES: usize = 64;

/// What stands between the commas.
fn parts(alloc: Global, setting: &str) -> Result<Vec<&str>, AllocError>
    ensures { IfOk result (λ v. map (λ x. x.now) v.items
        ≡ slice_split (λ b. b == 44) setting.now) }
{
    setting.split(',').collect(alloc)
}

/// The names, or None where they are too many or one is no name of a rule.
fn rule_names(alloc: Global, parts: &[&str]) -> Result<Option<Vec<Text>>, NoMemory>
    ensures { IfOk result (λ names. option_map (λ v. v.items) names
        ≡ spec.rule_names (map (λ x. x.now) parts.entry.now)) }
{
    if parts.len() > MOST_NAMES {
        return Ok(None);
    }
    let mut names = Vec::new(alloc);
    for part in parts {
        if !is_name(true, part.as_bytes()) {
            return Ok(None);
        }
        names.push(Text::of_str(alloc, part)?)?;
    }
    Ok(Some(names))
}

/// The names of rules that the setting lists, or None where it is no such list.
pub(crate) fn names(alloc: Global, setting: &Text) -> Result<Option<Vec<Text>>, NoMemory>
    ensures { IfOk result
        (λ names. option_map (λ v. v.items) names ≡ spec.listed_names setting.now) }
{
    let parts = parts(alloc, setting.as_str())?;
    rule_names(alloc, &parts)
}

/// Whether no name stands twice.
pub(crate) fn are_distinct(names: &[Text]) -> bool
    ensures { result ≡ spec.are_distinct names.now }
{
    match names.split_first() {
        None => true,
        Some((first, others)) => !others.contains(first) && are_distinct(others),
    }
}
