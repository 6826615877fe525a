//! The entries of a list, one after another.

ghost use Rattle.std.specs.Prelude.{◌≡◌, ◌-◌, ◌^◌, ◌<◌, List, [], IfOk, length};
ghost use Rattle.std.specs.Prelude.{get_or};
ghost use Rattle.sx_rules.specs.Deep.{RulesAreShallow};
ghost use Rattle.sx_rules.specs.Rules.{Judgement};
ghost use Rattle.sx_rules.specs.EntryView.{entries};
ghost use Rattle.sx_arena.specs.Arena.{AreBelow, IsArena};
ghost use Rattle.sx_arena.specs.Facts.{AreFacts};
ghost use Rattle.sx_arena.specs.Pairs.{ArePairs};
ghost use Rattle.sx_arena.specs.Views.{rules_of, set_modes};
ghost use Rattle.sx_replay.specs.Limits.{nothing_noted};
ghost use Rattle.sx_replay.specs.Following.{IsEntryChecked, IsFollowed};
ghost use Rattle.sx_replay.specs.Reader.{IsReplayReader, reader_trees, base_trees, replay_goal};
ghost use Rattle.sx_replay.specs.Reader.{replay_hypotheses};

use crate::entry::try_entry;
use crate::given::Given;
use crate::noted::Noted;
use crate::reader::Reader;
use crate::replay_error::ReplayError;
use crate::step::Step;
use sx_rules::Entry;

/// The entry at an index.
#[tactic(auto, using(crate::proofs::Followed::get_any))]
fn entry_at(list: &[Entry], index: usize) -> Entry
    requires { index < length list.now }
    ensures { result ≡ get_or list.now index result }
{
    list[index]
}

/// The most levels of a derivation.
const MOST_LEVELS: usize = sx_rules::MOST_LEVELS as usize;

/// Whether the entry with this number may stand at a goal for which `level` rules wait, and no term
/// up to the next entry passes a limit.
fn checked(level: usize, noted: Noted, number: u32) -> Result<(), ReplayError>
    ensures { IsEntryChecked level noted number result }
{
    if level >= MOST_LEVELS {
        return Err(ReplayError::DeepList(number));
    }
    match noted.deep {
        Some(depth) => Err(ReplayError::TooDeep(depth)),
        None => match noted.big {
            Some(size) => Err(ReplayError::TooBig(size)),
            None => Ok(()),
        },
    }
}

/// The outputs of the derivation of the goal that has this list.
pub(crate) fn follow(
    given: &Given,
    reader: &mut Reader,
    form: u32,
    terms: Vec<usize>,
    list: &[Entry],
) -> Result<Vec<usize>, ReplayError>
    requires shallow { RulesAreShallow (rules_of given.now.rules.now) }
    requires short { length list.now < 2 ^ 32 }
    requires reader { IsReplayReader (rules_of given.now.rules.now) reader.old }
    requires none { reader.old.waiting.items ≡ [] }
    requires noted { reader.old.noted ≡ nothing_noted }
    requires pairs { ArePairs (length (base_trees reader.old)) given.now.pairs.now }
    requires terms { AreBelow (length (reader_trees reader.old)) terms.items }
    requires facts { (js : List Judgement) ×
        AreFacts (set_modes given.now.rules.now) (base_trees reader.old) js given.now.facts.now }
    ensures arena { IfOk result (λ outs. IsArena reader.new.arena) }
    ensures within { IfOk result (λ outs. AreBelow (length (reader_trees reader.new)) outs.items) }
    ensures followed { (js : List Judgement) →
        AreFacts (set_modes given.now.rules.now) (base_trees reader.old) js given.now.facts.now →
        IsFollowed (set_modes given.now.rules.now) (rules_of given.now.rules.now) (replay_hypotheses
        given.now.pairs.now reader.old js)
        (replay_goal reader.old form terms.items) (entries list.now) reader.new result }
{
    let mut form = form;
    let mut terms = terms;
    for i in 0..list.len() {
        let entry = entry_at(list, i);
        let number = i as u32 + 1;
        let level = reader.waiting.len();
        match try_entry(given, reader, entry, form, &terms)? {
            Step::Clash => return Err(ReplayError::WrongAt(number)),
            Step::Done(outputs) => {
                if let Err(error) = checked(level, reader.noted, number) {
                    return Err(error);
                }
                if i + 1 < list.len() {
                    return Err(ReplayError::LongList(number + 1));
                }
                return Ok(outputs);
            }
            Step::Asks {
                form: next,
                terms: made,
            } => {
                if let Err(error) = checked(level, reader.noted, number) {
                    return Err(error);
                }
                form = next;
                terms = made;
            }
        }
    }
    Err(ReplayError::EndsEarly)
}
