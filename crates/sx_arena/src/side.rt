//! The inputs or the outputs of a judgement.

ghost use Rattle.std.specs.Prelude.{◌≡◌};
ghost use Rattle.sx_rules.specs.SubjectTerms.{output_mask};
ghost use Rattle.sx_arena.specs.Views.{set_modes};

use crate::set::roles;
use sx_rules::{Judgement, Place, RuleSet};
use sx_term::Term;

/// The outputs of a judgement, or else its inputs: its places, with the roles that they have.
#[derive(Clone, Copy)]
pub struct Side<'a> {
    pub roles: &'a [Place],
    pub outputs: bool,
    pub places: &'a [Term],
}

impl<'a> Side<'a> {
    /// The outputs of the judgement, or else its inputs.
    pub fn new(rules: &'a RuleSet, judgement: &'a Judgement, outputs: bool) -> Side<'a>
        ensures roles { output_mask result.roles.now ≡ set_modes rules.now judgement.now.form }
        ensures outputs { result.outputs ≡ outputs }
        ensures places { result.places.now ≡ judgement.now.places.items }
    {
        Side {
            roles: roles(rules, judgement.form),
            outputs,
            places: &judgement.places,
        }
    }
}
