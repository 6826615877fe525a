//! Auditors that are named by words.

ghost use Rattle.std.specs.Prelude.{◌≡◌, map, MatchOption, IfOk};
ghost use Rattle.std.specs.List.{AllByRecursion};
ghost use Rattle.std.specs.Str.{bytes_eq};
ghost use Rattle.sx_words.specs.View.{audit_view};
ghost use Rattle.sx_steps.specs.Refusal as refusals;
ghost use Rattle.sx_steps.specs.Stop.{Gives, IsNoFault};
ghost use Rattle.sx_auditing.specs.Naming as spec;
ghost use Rattle.sx_auditing.specs.Setting.{HasOtherName, IsAuditorPlace, IsSetTo, IsSetFirst};

use std::alloc::Global;
use sx_audit::{Auditor, SetError};
use sx_steps::{StepError, Stop, about};
use sx_term::{NoMemory, Text};
use sx_words::{Audit, Defect, FileDefect};

/// An auditor that is handed in, and whether a word has set it.
#[derive(Drop)]
struct Slot {
    auditor: Box<dyn Auditor>,
    is_set: bool,
}

/// The auditors, none of which a word has set.
fn unset(alloc: Global, auditors: Vec<Box<dyn Auditor>>) -> Result<Vec<Slot>, NoMemory>
    ensures { IfOk result (λ v.
        map (λ s. record { auditor = meaning s.auditor; is_set = s.is_set }) v.items
        ≡ map spec.unset (map (λ b. meaning b) auditors.items)) }
{
    let mut slots = Vec::new(alloc);
    for auditor in auditors {
        slots.push(Slot {
            auditor,
            is_set: false,
        })?;
    }
    Ok(slots)
}

/// Sets the auditor.
fn set_one(slot: &mut Slot, setting: &Text) -> Result<(), SetError>
    ensures { IsSetTo setting.now
        (record { auditor = meaning slot.old.auditor; is_set = slot.old.is_set }) result
        (record { auditor = meaning slot.new.auditor; is_set = slot.new.is_set }) }
{
    slot.auditor.set(setting)?;
    slot.is_set = true;
    Ok(())
}

/// Whether this is the auditor's name.
fn has_name(slot: &Slot, name: &Text) -> bool
    ensures { result ≡ bytes_eq (meaning slot.now.auditor).kind.name name.now }
{
    *slot.auditor.name() == *name
}

/// The place of the first auditor with this name.
fn place_of(slots: &[Slot], name: &Text) -> Option<usize>
    ensures { MatchOption result
        (AllByRecursion (HasOtherName name.now)
        (map (λ s. record { auditor = meaning s.auditor; is_set = s.is_set }) slots.now))
        (λ place. IsAuditorPlace name.now
        (map (λ s. record { auditor = meaning s.auditor; is_set = s.is_set }) slots.now) place) }
{
    for place in 0..slots.len() {
        if has_name(&slots[place], name) {
            return Some(place);
        }
    }
    None
}

/// Sets the first auditor that has the word's kind as its name.
fn set_first(slots: &mut Vec<Slot>, audit: &Audit) -> Result<(), SetError>
    ensures { IsSetFirst (audit_view audit.now)
        (map (λ s. record { auditor = meaning s.auditor; is_set = s.is_set }) slots.old.items)
        result
        (map (λ s. record { auditor = meaning s.auditor; is_set = s.is_set }) slots.new.items) }
{
    match place_of(slots, &audit.kind) {
        Some(place) => set_one(&mut slots[place], &audit.setting),
        None => Err(SetError::Bad),
    }
}

/// The refusal of a word that sets no auditor.
fn bad_word(alloc: Global, place: u32) -> Result<Stop, NoMemory>
    ensures { IfOk result (λ stop. stop ≡ refusals.bad_word place) }
{
    let file = Text::of_str(alloc, "words")?;
    Ok(about(file, Defect::File(FileDefect::Word(u64::from(place)))))
}

/// Sets an auditor for each word in order.
fn set_each(alloc: Global, slots: &mut Vec<Slot>, audits: &[Audit]) -> Result<(), StepError>
    ensures step { Gives
        (λ x. map (λ s. record { auditor = meaning s.auditor; is_set = s.is_set }) slots.new.items)
        (spec.Sets (map audit_view audits.now)
        (map (λ s. record { auditor = meaning s.auditor; is_set = s.is_set }) slots.old.items))
        result }
    ensures no_fault { IsNoFault result }
{
    for audit in audits {
        match set_first(slots, audit) {
            Ok(()) => {}
            Err(SetError::Bad) => return Err(StepError::Stopped(bad_word(alloc, audit.word)?)),
            Err(SetError::Memory) => return Err(StepError::Memory),
        }
    }
    Ok(())
}

/// The auditors that a word has set.
fn set_ones(alloc: Global, slots: Vec<Slot>) -> Result<Vec<Box<dyn Auditor>>, NoMemory>
    ensures { IfOk result (λ v. map (λ b. meaning b) v.items ≡ spec.set_ones
        (map (λ s. record { auditor = meaning s.auditor; is_set = s.is_set }) slots.items)) }
{
    let mut kept = Vec::new(alloc);
    for slot in slots {
        if slot.is_set {
            kept.push(slot.auditor)?;
        } else {
            drop(slot);
        }
    }
    Ok(kept)
}

/// The auditors that words name: for each word in order the first auditor that has its kind as its
/// name is set with its setting, and those that are set are kept in the order in which they are
/// handed in. All others are dropped. The stop is that of the first word for whose kind there is no
/// auditor, or whose setting that auditor does not take.
pub fn name_auditors(
    alloc: Global,
    auditors: Vec<Box<dyn Auditor>>,
    audits: &[Audit],
) -> Result<Vec<Box<dyn Auditor>>, StepError>
    ensures step { Gives (λ v. map (λ b. meaning b) v.items)
        (spec.Names (map (λ b. meaning b) auditors.items) (map audit_view audits.now)) result }
    ensures no_fault { IsNoFault result }
{
    let mut slots = unset(alloc, auditors)?;
    match set_each(alloc, &mut slots, audits) {
        Ok(()) => Ok(set_ones(alloc, slots)?),
        Err(e) => {
            drop(slots);
            Err(e)
        }
    }
}
