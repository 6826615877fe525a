//! Laws of the goals that modules are compiled by.

ghost use Rattle.sx_typing.specs.Outcomes.{OutputsHaveLexemes, OutputsAreSorted, StuckGoalsFit};
ghost use Rattle.sx_typing.specs.MainGoals.{MainGoalsFit, MainGoalsHaveLexemes};
ghost use Rattle.sx_typing.specs.MainGoals.{MainGoalsAreShallow, PartsHavePlaces};
ghost use Rattle.sx_typing.specs.Searched.{FoundOutputsFit, ExhaustedGoalsFit};

/// Where the lexemes of rules and of a goal are tokens, so are those of the outputs of each
/// derivation of the goal. The outputs are well sorted where the goal is.
pub fn outputs_fit()
    ensures lexemes { OutputsHaveLexemes }
    ensures sorted { OutputsAreSorted }
{}

/// The stuck goal of a well sorted goal is well sorted, as the outputs got are, and its path leads
/// to its subject, or where it has none to a part of the first goal's subject.
pub fn stuck_goals_fit()
    ensures { StuckGoalsFit }
{}

/// The goal of a form with one input, one subject and one output is well sorted where its terms
/// are, the empty path leads to its subject, and its outputs are one term. What was read has a
/// place for each part of its term.
pub fn main_goals_fit()
    ensures fit { MainGoalsFit }
    ensures lexemes { MainGoalsHaveLexemes }
    ensures shallow { MainGoalsAreShallow }
    ensures places { PartsHavePlaces }
{}

/// What is found for a well sorted goal can be printed, and so can what is told where nothing is
/// found.
pub fn searches_fit()
    ensures found { FoundOutputsFit }
    ensures exhausted { ExhaustedGoalsFit }
{}
