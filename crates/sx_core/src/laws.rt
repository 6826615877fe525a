//! What holds of core files.

ghost use Rattle.sx_core.specs.Laws.{OneProblemIsStated, OneCoreAnswer};

/// What the lines of a core file state is one problem.
pub fn one_problem_is_stated()
    ensures { OneProblemIsStated }
{}

/// Two answers for the bytes of a core file agree, out of memory aside.
pub fn one_core_answer()
    ensures { OneCoreAnswer }
{}
