//! Forms, judgements, goals and rules.

use sx_term::{Role, Sort, Term, Text};

/// A place of a form.
#[derive(Clone, Copy, PartialEq, Eq, Debug)]
pub struct Place {
    pub role: Role,
    pub sort: Sort,
}

/// A form of judgements.
#[derive(Drop)]
pub struct Form {
    pub name: Text,
    pub places: Vec<Place>,
}

/// A form's number and a term for each of its places.
#[derive(Drop)]
pub struct Judgement {
    pub form: u32,
    pub places: Vec<Term>,
}

/// A form's number and a term for each of its inputs.
#[derive(Drop)]
pub struct Goal {
    pub form: u32,
    pub inputs: Vec<Term>,
}

/// A judgement, or two terms that are to be apart.
#[derive(Drop)]
pub enum Premise {
    Holds(Judgement),
    Apart(Term, Term),
}

/// A rule, with the sorts of its variables 0, 1, 2 and so on.
#[derive(Drop)]
pub struct Rule {
    pub name: Text,
    pub vars: Vec<Sort>,
    pub premises: Vec<Premise>,
    pub conclusion: Judgement,
}

/// The judgements that are given, and the pairs that are given to be apart.
#[derive(Drop)]
pub struct Hyps {
    pub holds: Vec<Judgement>,
    pub apart: Vec<(Term, Term)>,
}
