//! What is proved of the walk, of the machine and of the stuck goal.

ghost use Rattle.sx_derive.specs.Samples.{SampleIsFound};
ghost use Rattle.sx_derive.specs.Laws.{
  AnswersAreBounded,
  WalkDecides,
  EventsAreSound,
  EventsAreComplete,
  EachDerivationIsGiven,
  EventsAreInOrder,
  FoundIsFirst,
  ExhaustedMeansNone,
  MachineMakesEvents,
  StuckGoalExists,
  ExhaustedHasNoStop,
  StuckGoalIsUnique,
  StuckGoalHasTexts,
  StuckGoalIsShallow,
  FoundHasFewNodes,
};

/// Whatever is given among the events of a goal derives it.
pub fn events_are_sound()
    ensures { EventsAreSound }
{}

/// Each derivation of a goal is met in its place by order, unless a stop comes before.
pub fn events_are_complete()
    ensures { EventsAreComplete }
{}

/// Each derivation of a goal is given, or a stop stands among the events.
pub fn each_derivation_is_given()
    ensures { EachDerivationIsGiven }
{}

/// Before what is given stands each derivation that is before it in order.
pub fn events_are_in_order()
    ensures { EventsAreInOrder }
{}

/// What a walk finds is the first derivation.
pub fn found_is_first()
    ensures { FoundIsFirst }
{}

/// Where a walk comes to the end of the events, no derivation with outputs that are wanted exists.
pub fn exhausted_means_none()
    ensures { ExhaustedMeansNone }
{}

/// The walk on a small goal, with its answer.
pub fn sample_is_found()
    ensures { SampleIsFound }
{}

/// A stack of tasks makes the events of a goal.
pub fn machine_makes_events()
    ensures { MachineMakesEvents }
{}

/// Where no stop stands among the events of a goal, there is a stuck goal.
pub fn stuck_goal_exists()
    ensures { StuckGoalExists }
{}

/// Where a walk comes to the end of the events, no stop stands among them.
pub fn exhausted_has_no_stop()
    ensures { ExhaustedHasNoStop }
{}

/// There is at most one stuck goal.
pub fn stuck_goal_is_unique()
    ensures { StuckGoalIsUnique }
{}

/// A walk for a judgement's outputs finds a derivation of it, or there is none where it comes to
/// the end of the events.
pub fn walk_decides()
    ensures { WalkDecides }
{}

/// Each proof given has no more levels than stand below its goal, and its terms and outputs are no
/// deeper than the limit.
pub fn answers_are_bounded()
    ensures { AnswersAreBounded }
{}

/// Where the terms of rules, hypotheses and a goal have core texts, so have those of its stuck
/// goal.
pub fn stuck_goal_has_texts()
    ensures { StuckGoalHasTexts }
{}

/// Where the terms of hypotheses and a goal are no deeper than 1,000 and no stop stands among its
/// events, those of its stuck goal are no deeper.
pub fn stuck_goal_is_shallow()
    ensures { StuckGoalIsShallow }
{}

/// What a walk finds has no more nodes than the walk makes tries.
pub fn found_has_few_nodes()
    ensures { FoundHasFewNodes }
{}
