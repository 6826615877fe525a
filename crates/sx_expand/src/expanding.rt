//! Derivations that are expanded.

ghost use Rattle.std.specs.Prelude.{length, map};
ghost use Rattle.sx_rules.specs.Deep.{AreShallow};
ghost use Rattle.sx_rules.specs.Derivations as spec;
ghost use Rattle.sx_rules.specs.EntryView.{entries};
ghost use Rattle.sx_rules.specs.First.{Answer};
ghost use Rattle.sx_rules.specs.Rules as known;
ghost use Rattle.sx_rules.specs.Sets.{forms_in};
ghost use Rattle.sx_rules.specs.Views.{goal as goal_of, hypotheses};
ghost use Rattle.sx_arena.specs.Arena.{tree_at, AreBelow};
ghost use Rattle.sx_rewrite.specs.AcceptedView.{accepted, signature};
ghost use Rattle.sx_rewrite.specs.PlainRules.{plain_of};
ghost use Rattle.sx_expand.specs.Expansions.{IsListedAnswer, IsListedFrom, IsExpanding};
ghost use Rattle.sx_expand.specs.Expansions.{HasOneSubject};
ghost use Rattle.sx_expand.specs.Listed.{HasEnds, set_in, signature_in, entries_in};
ghost use Rattle.sx_expand.specs.Readers.{terms_in, IsLoweringReader};
ghost use Rattle.sx_expand.specs.Readings.{IsListReading, AreGiven, set_by, signature_by, hyps_by};
ghost use Rattle.sx_expand.specs.Roots.{IsRoot, IsRootLowered};

use crate::ends::ends_of;
use crate::expanded::Expanded;
use crate::list_lowering::lower_listing;
use crate::listing::Listing;
use crate::lowered_list::LoweredList;
use crate::node_reading::read_node;
use crate::reader::Reader;
use crate::reading::Reading;
use crate::root_places::root_judgement;
use std::alloc::Global;
use sx_arena::{Arena, enter_places};
use sx_images::Images;
use sx_rewrite::{Accepted, RewriteError};
use sx_rules::{Entry, Goal, Hyps, Judgement};

/// What the derivation of the goal with this list is lowered to, as a list with its judgement.
/// Where that has more nodes than the budget, is deeper than 3,000, or has a term over a limit, the
/// first of these is refused, in this order. Its nodes are counted before any term is made.
///
/// The derivation is by the extended rules of the set, without hypotheses. No term of the goal, of
/// its outputs or bound in the derivation is deeper than 1,000, and the goal's form has at most one
/// subject. No derivation is made in boxes.
pub fn expand(
    alloc: Global,
    set: &Accepted,
    goal: &Goal,
    list: &[Entry],
    budget: u64,
) -> Result<Expanded, RewriteError>
    requires shallow { AreShallow (goal_of goal.now).terms }
    requires one { HasOneSubject (forms_in set.now.base) goal.now.form }
    requires listed { (answer : Answer)
        × IsListedAnswer (signature set.now).modes (accepted set.now) (goal_of goal.now)
        (entries list.now) answer }
    ensures { (answer : Answer) →
        IsListedAnswer (signature set.now).modes (accepted set.now) (goal_of goal.now)
        (entries list.now) answer →
        IsExpanding (accepted set.now) (signature set.now).subjects known.no_hypotheses answer.0
        budget result }
{
    let ends = ends_of(alloc, set, list)?;
    let listing = Listing {
        set,
        list,
        ends: &ends,
    };
    expand_listing(alloc, &listing, goal, budget)
}

/// The same of a derivation by the plain rules of the set, from base hypotheses that each have a
/// term for each place of their form, and no term that passes a limit.
/// The check of an extension's rules calls it, for their certificates.
pub fn expand_open(
    alloc: Global,
    set: &Accepted,
    goal: &Goal,
    list: &[Entry],
    given: &Hyps,
    budget: u64,
) -> Result<Expanded, RewriteError>
    requires shallow { AreShallow (goal_of goal.now).terms }
    requires one { HasOneSubject (forms_in set.now.base) goal.now.form }
    requires given { AreGiven set.now (hypotheses given.now) }
    requires listed { (answer : Answer)
        × IsListedFrom (signature set.now).modes (plain_of (accepted set.now))
        (hypotheses given.now) (goal_of goal.now) (entries list.now) answer }
    ensures { (answer : Answer) →
        IsListedFrom (signature set.now).modes (plain_of (accepted set.now))
        (hypotheses given.now) (goal_of goal.now) (entries list.now) answer →
        IsExpanding (plain_of (accepted set.now)) (signature set.now).subjects
        (hypotheses given.now) answer.0 budget result }
{
    let ends = ends_of(alloc, set, list)?;
    let listing = Listing {
        set,
        list,
        ends: &ends,
    };
    expand_plain(alloc, &listing, goal, given, budget)
}

/// What the derivation of the goal by the plain rules, from the hypotheses, is lowered to that the
/// listing begins with.
fn expand_plain(
    alloc: Global,
    listing: &Listing,
    goal: &Goal,
    given: &Hyps,
    budget: u64,
) -> Result<Expanded, RewriteError>
    requires ends { HasEnds listing.now }
    requires shallow { AreShallow (goal_of goal.now).terms }
    requires one { HasOneSubject (forms_in listing.now.set.now.base) goal.now.form }
    requires given { AreGiven listing.now.set.now (hypotheses given.now) }
    requires listed { (answer : Answer)
        × IsListedFrom (signature_in listing.now).modes (plain_of (set_in listing.now))
        (hypotheses given.now) (goal_of goal.now) (entries_in listing.now) answer }
    ensures { (answer : Answer) →
        IsListedFrom (signature_in listing.now).modes (plain_of (set_in listing.now))
        (hypotheses given.now) (goal_of goal.now) (entries_in listing.now) answer →
        IsExpanding (plain_of (set_in listing.now)) (signature_in listing.now).subjects
        (hypotheses given.now) answer.0 budget result }
{
    listing.set.facts();
    let reading = Reading {
        listing: *listing,
        rules: listing.set.plain_rules(),
        given,
    };
    expand_reading(alloc, &reading, goal, budget)
}

/// What the derivation of the goal by the extended rules, without hypotheses, is lowered to that
/// the listing begins with.
fn expand_listing(
    alloc: Global,
    listing: &Listing,
    goal: &Goal,
    budget: u64,
) -> Result<Expanded, RewriteError>
    requires ends { HasEnds listing.now }
    requires shallow { AreShallow (goal_of goal.now).terms }
    requires one { HasOneSubject (forms_in listing.now.set.now.base) goal.now.form }
    requires listed { (answer : Answer)
        × IsListedAnswer (signature_in listing.now).modes (set_in listing.now) (goal_of goal.now)
        (entries_in listing.now) answer }
    ensures { (answer : Answer) →
        IsListedAnswer (signature_in listing.now).modes (set_in listing.now) (goal_of goal.now)
        (entries_in listing.now) answer →
        IsExpanding (set_in listing.now) (signature_in listing.now).subjects known.no_hypotheses
        answer.0 budget result }
{
    listing.set.facts();
    let none = Hyps::none(alloc);
    let reading = Reading {
        listing: *listing,
        rules: listing.set.rules(),
        given: &none,
    };
    let answer = expand_reading(alloc, &reading, goal, budget);
    drop(none);
    answer
}

/// What the derivation of the goal is lowered to that the list begins with.
fn expand_reading(
    alloc: Global,
    reading: &Reading,
    goal: &Goal,
    budget: u64,
) -> Result<Expanded, RewriteError>
    requires reading { IsListReading reading.now }
    requires shallow { AreShallow (goal_of goal.now).terms }
    requires one { HasOneSubject (forms_in reading.now.listing.set.now.base) goal.now.form }
    requires listed { (answer : Answer)
        × IsListedFrom (signature_by reading.now).modes (set_by reading.now) (hyps_by reading.now)
        (goal_of goal.now) (entries_in reading.now.listing) answer }
    ensures { (answer : Answer) →
        IsListedFrom (signature_by reading.now).modes (set_by reading.now) (hyps_by reading.now)
        (goal_of goal.now) (entries_in reading.now.listing) answer →
        IsExpanding (set_by reading.now) (signature_by reading.now).subjects (hyps_by reading.now)
        answer.0 budget result }
{
    let lowered = lower_listing(alloc, &reading.listing, budget)?;
    match lowered_root(alloc, reading, goal) {
        Ok(judgement) => {
            let LoweredList { entries, copied } = lowered;
            Ok(Expanded {
                entries,
                judgement,
                copied,
            })
        }
        Err(error) => {
            drop(lowered);
            Err(error)
        }
    }
}

/// The judgement that the derivation of the goal is lowered to, where no term of the lowered
/// derivation passes a limit. The first that does is refused.
fn lowered_root(alloc: Global, reading: &Reading, goal: &Goal) -> Result<Judgement, RewriteError>
    requires reading { IsListReading reading.now }
    requires shallow { AreShallow (goal_of goal.now).terms }
    requires one { HasOneSubject (forms_in reading.now.listing.set.now.base) goal.now.form }
    requires root { (j : known.Judgement) × (p : spec.Proof)
        × IsRoot reading.now (goal_of goal.now) j p }
    ensures { (j : known.Judgement) (p : spec.Proof) → IsRoot reading.now (goal_of goal.now) j p →
        IsRootLowered reading.now p result }
{
    let mut arena = Arena::new(alloc);
    match enter_places(alloc, &mut arena, &[], false, &goal.inputs) {
        Ok(inputs) => {
            let mut reader = Reader {
                arena,
                images: Images::new(alloc),
            };
            let judgement = read_root(alloc, reading, &mut reader, goal.form, &inputs);
            drop(reader);
            drop(inputs);
            judgement
        }
        Err(_) => {
            drop(arena);
            Err(RewriteError::Memory)
        }
    }
}

/// The judgement that the derivation is lowered to whose goal has the form and the terms with these
/// numbers, where no term of the lowered derivation passes a limit. The first that does is
/// refused.
fn read_root(
    alloc: Global,
    reading: &Reading,
    reader: &mut Reader,
    form: u32,
    inputs: &[usize],
) -> Result<Judgement, RewriteError>
    requires reading { IsListReading reading.now }
    requires reader { IsLoweringReader (set_by reading.now).table reader.old }
    requires below { AreBelow (length (terms_in reader.old)) inputs.now }
    requires shallow { AreShallow (map (tree_at (terms_in reader.old)) inputs.now) }
    requires one { HasOneSubject (forms_in reading.now.listing.set.now.base) form }
    requires root { (j : known.Judgement) × (p : spec.Proof)
        × IsRoot reading.now (record {
          form = form;
          terms = map (tree_at (terms_in reader.old)) inputs.now;
        }) j p }
    ensures { (j : known.Judgement) (p : spec.Proof) → IsRoot reading.now (record {
      form = form;
      terms = map (tree_at (terms_in reader.old)) inputs.now;
    }) j p → IsRootLowered reading.now p result }
{
    let read = read_node(alloc, reading, reader, 0, inputs, true)?;
    let judgement = root_judgement(alloc, reading.listing.set, reader, form, inputs, &read);
    drop(read);
    Ok(judgement?)
}
