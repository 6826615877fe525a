//! Laws of stuck goals.

ghost use Rattle.sx_stuck.specs.StuckGoals.{StuckGoalsAreSorted};
ghost use Rattle.sx_stuck.specs.ToldGoals.{SortedBlamesCanBeTold};

/// The stuck goal of a well sorted goal, from well sorted hypotheses, is well sorted, as the
/// outputs got are.
pub fn stuck_goals_are_sorted()
    ensures { StuckGoalsAreSorted }
{}

/// What is well sorted by a grammar, and no deeper than 1,000, can be told by its grammar of
/// rules, where each variable has a name.
pub fn sorted_blames_can_be_told()
    ensures { SortedBlamesCanBeTold }
{}
