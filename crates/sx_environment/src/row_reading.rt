//! Reading the rows of an interface.

ghost use Rattle.std.specs.Prelude.{◌≡◌, IfOk, IfErr};
ghost use Rattle.sx_term.specs.Term.{tree};
ghost use Rattle.sx_term.specs.Tree.{Tree};
ghost use Rattle.sx_interface.specs.InterfaceView.{interface_view};
ghost use Rattle.sx_typing.specs.Dialects.{IsDialectOf};
ghost use Rattle.sx_typing.specs.Unread.{IsUnreadText};
ghost use Rattle.sx_environment.specs.ImportErrors.{IsBadImport, IsImportRowDue};
ghost use Rattle.sx_environment.specs.Seen.{IsImportRowRead, row_parts, row_sort, import_row_text};
ghost use Rattle.sx_environment.specs.SeenFrom.{IsShort, SeenFrom, seen_from};

use crate::import_error::ImportError;
use crate::numbered::Numbered;
use crate::row::Row;
use crate::surroundings::Surroundings;
use std::alloc::Global;
use sx_grammar::Grammar;
use sx_term::{Role, Term};
use sx_typing::{Body, Dialect, UnreadText, defect_place, main_sort, read_body_text, unread_place};

/// The grammar by which the row is read.
fn row_grammar<'a>(given: &Surroundings<'a>, row: Row) -> &'a Grammar
    ensures { result.now.parts ≡ row_parts (seen_from given.entry.now) row }
{
    match row {
        Row::Signature => &given.dialect.language.grammar,
        Row::Stated => given.dialect.grammar,
    }
}

/// The refusal of a row that is not read, with its place.
fn refusal(import: &Numbered, row: Row, error: UnreadText) -> ImportError
    requires short { IsShort (interface_view import.now.interface.now) }
    requires unread { (s : SeenFrom) × IsUnreadText (row_parts s row) (row_sort s)
        (import_row_text (interface_view import.now.interface.now) row) error }
    ensures { (s : SeenFrom) (before : Tree) →
        IsUnreadText (row_parts s row) (row_sort s)
        (import_row_text (interface_view import.now.interface.now) row) error →
        IsImportRowDue s (interface_view import.now.interface.now) row →
        IsBadImport s import.now.number before (interface_view import.now.interface.now) result }
{
    let line = row.line(import.interface);
    match error {
        UnreadText::Memory => ImportError::Memory,
        UnreadText::Token(error) => ImportError::Token {
            import: import.number,
            line,
            column: 1 + defect_place(&error) as u64,
            error,
        },
        UnreadText::Read(error) => ImportError::Read {
            import: import.number,
            line,
            column: 1 + unread_place(&error) as u64,
            error,
        },
    }
}

/// The term of what was read.
fn term_of(body: Body) -> Term
    ensures { result ≡ body.term }
{
    let Body {
        tokens,
        reading,
        term,
    } = body;
    drop(reading);
    drop(tokens);
    term
}

/// Reads the row as the sort of the main form's output.
pub(crate) fn read_row(
    alloc: Global,
    given: &Surroundings,
    import: &Numbered,
    row: Row,
) -> Result<Term, ImportError>
    requires dialect { IsDialectOf given.now.dialect }
    requires short { IsShort (interface_view import.now.interface.now) }
    ensures read { IfOk result (λ t. IsImportRowRead (seen_from given.now)
        (interface_view import.now.interface.now) row (tree t)) }
    ensures refused { IfErr result (λ e. (before : Tree) →
        IsImportRowDue (seen_from given.now) (interface_view import.now.interface.now) row →
        IsBadImport (seen_from given.now) import.now.number before
        (interface_view import.now.interface.now) e) }
{
    let sort = main_sort(given.dialect.language, Role::Out);
    let text = row.text(import.interface);
    match read_body_text(alloc, row_grammar(given, row), sort, text.bytes()) {
        Ok(body) => Ok(term_of(body)),
        Err(error) => Err(refusal(import, row, error)),
    }
}
