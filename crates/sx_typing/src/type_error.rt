//! Type errors.

ghost use Rattle.std.specs.Prelude.{◌≡◌, ◌+◌, ◌-◌, ◌≤◌, ℕ, List, [], Some, length, IfOk};
ghost use Rattle.std.specs.List.{AllByRecursion};
ghost use Rattle.sx_grammar.specs.Told.{shapes_of};
ghost use Rattle.sx_grammar.specs.Print.{term_of};
ghost use Rattle.sx_earley.specs.Tokens.{plain_tokens};
ghost use Rattle.sx_forest.specs.Places.{place_at};
ghost use Rattle.sx_forest.specs.Readings.{plain_reading};
ghost use Rattle.sx_rules.specs.Sets.{forms_in};
ghost use Rattle.sx_derive.specs.Blames.{blame_of};
ghost use Rattle.sx_derive.specs.BlameTerms.{BlameIsShallow};
ghost use Rattle.sx_stuck.specs.StuckText.{CanTell};
ghost use Rattle.sx_typing.specs.Body.{IsCut};
ghost use Rattle.sx_typing.specs.Dialects.{IsDialectOf, dialect_of};
ghost use Rattle.sx_typing.specs.Outcomes.{IsBlameIn};
ghost use Rattle.sx_typing.specs.Refused as refused;
ghost use Rattle.sx_typing.specs.TypeErrors.{IsPartPlace, TellsTypeError};

use crate::body::Body;
use crate::dialect::Dialect;
use crate::module_error::ModuleError;
use crate::spots::spot_of;
use std::alloc::Global;
use sx_derive::Blame;
use sx_forest::{Reading, place_of};
use sx_notation::place_in;
use sx_stuck::Telling;
use sx_term::{NoMemory, Path, Vars};
use sx_token::Token;
use sx_words::GoalDefect;

/// The stuck goal's text, and why it is stuck. The goal has no variables.
fn stuck_text(alloc: Global, dialect: &Dialect, blame: &Blame) -> Result<GoalDefect, NoMemory>
    requires { CanTell (refused.telling_in (dialect_of dialect.now)) (blame_of blame.now) }
    ensures { IfOk result (λ text. text ≡ refused.told_goal (dialect_of dialect.now)
        (blame_of blame.now).goal (blame_of blame.now).reason) }
{
    let vars = Vars::new(alloc);
    let telling = Telling {
        language: dialect.language,
        grammar: dialect.rule_grammar,
        vars: &vars,
        rules: dialect.rules(),
    };
    sx_stuck::stuck_text(alloc, &telling, blame)
}

/// Where the part begins that the path leads to.
fn part_place(tokens: &[Token], size: usize, reading: &Reading, path: &Path) -> usize
    requires place { (number : ℕ) ×
        (place_at (plain_reading reading.now) path.now.steps.items ≡ Some number) }
    requires tokens { AllByRecursion (λ t. t.from ≤ size) tokens.now }
    ensures place { IsPartPlace tokens.now (plain_reading reading.now) path.now.steps.items size
        result }
    ensures within { result ≤ size }
{
    match place_of(reading, path) {
        Some(number) => place_in(tokens, size, number),
        None => unreachable!(),
    }
}

/// The type error of a stuck goal of the body's goal, where the body stands at the end of the file
/// and so many bytes before it.
pub(crate) fn type_error(
    alloc: Global,
    dialect: &Dialect,
    file: &[u8],
    before: usize,
    body: &Body,
    blame: &Blame,
) -> Result<ModuleError, NoMemory>
    requires dialect { IsDialectOf dialect.now }
    requires before { before ≤ length file.now }
    requires cut { (text : List ℕ) × IsCut dialect.now.grammar.now.parts text
        body.now.tokens.items × (length text ≡ length file.now - before) }
    requires blame { IsBlameIn (shapes_of dialect.now.grammar.now.parts)
        (forms_in dialect.now.language.now.rules) []
        (term_of (plain_tokens [] body.now.tokens.items) [] (plain_reading body.now.reading))
        (blame_of blame.now) }
    requires shallow { BlameIsShallow (blame_of blame.now) }
    ensures { IfOk result (TellsTypeError (dialect_of dialect.now) file.now before
        (length file.now - before) body.now.tokens.items (plain_reading body.now.reading)
        (blame_of blame.now)) }
{
    dialect.grammar.facts();
    let stuck = stuck_text(alloc, dialect, blame)?;
    let size = file.len() - before;
    let place = part_place(&body.tokens, size, &body.reading, &blame.path);
    let spot = spot_of(file, before + place);
    Ok(ModuleError::TypeError {
        line: spot.line,
        column: spot.column,
        stuck,
    })
}
