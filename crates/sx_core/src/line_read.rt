//! A line of a core file as it is read.

use crate::rows::{ConRow, SortRow};
use sx_rules::{Form, Goal, Judgement};
use sx_term::{Con, Sort, Term, Text};

/// What a line of a core file states.
#[derive(Drop)]
pub(crate) enum LineRead {
    Head,
    Sort(SortRow),
    Con(ConRow, Con),
    Form(Form),
    Rule(Text, Vec<Sort>),
    If(Judgement),
    Not(Term, Term),
    Then(Judgement),
    End,
    Goal(Goal),
}
