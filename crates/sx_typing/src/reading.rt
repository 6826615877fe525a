//! Reading a source's body.

ghost use Rattle.std.specs.Prelude.{◌≡◌, ◌⊎◌, ◌<◌, ℕ, length, IfOk, IfErr};
ghost use Rattle.sx_term.specs.Term.{tree};
ghost use Rattle.sx_term.specs.declared.role.Role.TheVariants.{Sub};
ghost use Rattle.sx_rules.specs.Sets.{forms_in};
ghost use Rattle.sx_forest.specs.Readings.{plain_reading};
ghost use Rattle.sx_notation.specs.Language.{language_data, sorts_with};
ghost use Rattle.sx_typing.specs.declared.module_error.ModuleError.TheVariants.{Memory};
ghost use Rattle.sx_typing.specs.Goals.{IsBody};
ghost use Rattle.sx_typing.specs.Refused.{HasReadBody, IsBadSource};
ghost use Rattle.sx_typing.specs.BodySource.{source_of, CanType, IsTermFor, main_sort, only_sort};
ghost use Rattle.sx_typing.specs.Unread.{IsUnreadText};

use crate::body::Body;
use crate::body_source::BodySource;
use crate::module_error::ModuleError;
use crate::places::{body_of, body_spot, defect_place, unread_place};
use crate::text_reading::read_body_text;
use crate::unread_text::UnreadText;
use std::alloc::Global;
use sx_notation::Language;
use sx_rules::Place;
use sx_term::{LexKind, Role, Sort};

/// The sort of the first of the places that has this role.
fn sort_with(places: &[Place], role: Role) -> Sort
    ensures { result ≡ only_sort (sorts_with role places.now) }
{
    for i in 0..places.len() {
        let place = &places[i];
        match (role, place.role) {
            (Role::In, Role::In) => return place.sort,
            (Role::Sub, Role::Sub) => return place.sort,
            (Role::Out, Role::Out) => return place.sort,
            _ => {}
        }
    }
    Sort::Lex(LexKind::Id)
}

/// The sort of the place of the main form with this role.
pub fn main_sort(language: &Language, role: Role) -> Sort
    requires { language.now.main.form < length (forms_in language.now.rules) }
    ensures { result ≡ main_sort (language_data language.now) role }
{
    let form = language.main.form as usize;
    sort_with(&language.rules.forms()[form].places, role)
}

/// The refusal of the body, with its place.
fn refusal(source: &BodySource, error: UnreadText) -> ModuleError
    requires { IsUnreadText (source_of source.now).dialect.parts
        (main_sort (source_of source.now).dialect.language Sub) (source_of source.now).header.body
        error }
    ensures bad { (tries : ℕ) → IsBadSource (source_of source.now) tries result }
    ensures none { (result ≡ Memory) ⊎ (HasReadBody (source_of source.now) → ⊥) }
{
    match error {
        UnreadText::Memory => ModuleError::Memory,
        UnreadText::Token(error) => {
            let spot = body_spot(source, defect_place(&error));
            ModuleError::Token {
                line: spot.line,
                column: spot.column,
                error,
            }
        }
        UnreadText::Read(error) => {
            let spot = body_spot(source, unread_place(&error));
            ModuleError::Read {
                line: spot.line,
                column: spot.column,
                error,
            }
        }
    }
}

/// Reads the body of the source by the grammar of its dialect, as the sort of the main form's
/// subject. It is refused where it has no tokens, and where these have not one reading.
///
/// The header is that of the bytes, and the environment is a term of the dialect.
pub fn read_source(alloc: Global, source: &BodySource) -> Result<Body, ModuleError>
    requires { CanType source.now }

    // The body has only this reading, and its term can be typed.
    ensures read { IfOk result (λ b.
        IsBody (source_of source.now) b.tokens.items (plain_reading b.reading) (tree b.term)) }
    ensures good { IfOk result (λ b. IsTermFor (source_of source.now).dialect Sub (tree b.term)) }
    // The refusal is the one that is due, and the body has not one reading.
    ensures refused { IfErr result (λ e. (tries : ℕ) → IsBadSource (source_of source.now) tries e) }
    ensures none { IfErr result (λ e. (e ≡ Memory) ⊎ (HasReadBody (source_of source.now) → ⊥)) }
{
    let dialect = &source.dialect;
    let sort = main_sort(dialect.language, Role::Sub);
    let body = body_of(source.bytes, source.header);
    match read_body_text(alloc, dialect.grammar, sort, body) {
        Ok(body) => Ok(body),
        Err(error) => Err(refusal(source, error)),
    }
}
