//! Printed texts whose only reading is known before they are read.
//!
//! Where the extensions in use add no production, the dialect reads as the language does. So a body
//! that is printed as it was written was read already, and so was a stated signature that is
//! printed as the signature is.

ghost use Rattle.std.specs.Prelude.{◌≡◌, ◌≤◌, ◌++◌, ◌∷◌, [], List, ℕ, length, IsTrue};
ghost use Rattle.std.specs.Prelude.{IfOk, IfErr};
ghost use Rattle.std.specs.Str.{IsUtf8};
ghost use Rattle.sx_term.specs.Term.{tree};
ghost use Rattle.sx_term.specs.Tree.{Tree};
ghost use Rattle.sx_term.specs.Limits.{most_bytes};
ghost use Rattle.sx_grammar.specs.Tables.{literals_of};
ghost use Rattle.sx_grammar.specs.Told.{shapes_of};
ghost use Rattle.sx_forest.specs.Readings.{plain_reading};
ghost use Rattle.sx_typing.specs.BodySource.{CanType, IsGoodTerm};
ghost use Rattle.sx_typing.specs.Dialects.{DialectData, dialect_of, IsDialectOf};
ghost use Rattle.sx_typing.specs.Goals.{IsBody};
ghost use Rattle.sx_unit.specs.Known.{behind_blanks, token_line};
ghost use Rattle.sx_unit.specs.Modules.{module_data};
ghost use Rattle.sx_unit.specs.PartRefused.{IsPartRefusal};
ghost use Rattle.sx_unit.specs.PrintedParts.{part_sort_of};
ghost use Rattle.sx_unit.specs.Texts.{printed, print_line};
ghost use Rattle.sx_unit.specs.Unprinted.{IsPrintable};

use crate::module_source::ModuleSource;
use crate::part_check::check_part;
use crate::print_check::MOST_BYTES;
use std::alloc::Global;
use sx_lines::after;
use sx_term::Term;
use sx_token::Token;
use sx_typing::{Body, Dialect, ModuleError};
use sx_words::{PrintDefect, PrintedPart};

/// What ends a line.
const LINE_END: &[u8] = b"\n";

/// Whether the extensions in use add no production, so that the dialect is read and printed as the
/// language is.
pub(crate) fn adds_nothing(dialect: &Dialect) -> bool
    requires { IsDialectOf dialect.now }
    ensures { IsTrue result →
        (dialect_of dialect.now).parts ≡ (dialect_of dialect.now).language.parts }
{
    let own = dialect.language.grammar.productions();
    let all = dialect.grammar.productions();
    all.len() == own.len()
}

/// Whether the text is that of the tokens, each with a blank before it, and a line feed.
fn goes_on(tokens: &[Token], text: &[u8]) -> bool
    ensures { IsTrue result → text.now ≡ behind_blanks tokens.now ++ 10 ∷ [] }
{
    let mut rest = text;
    for token in tokens {
        let Some(more) = after(rest, b" ") else {
            return false;
        };
        let Some(next) = after(more, token.text.bytes()) else {
            return false;
        };
        rest = next;
    }
    rest == LINE_END
}

/// Whether the line is that of the tokens: their texts with one blank between them, and a line
/// feed.
fn is_line_of(tokens: &[Token], line: &[u8]) -> bool
    ensures { IsTrue result → line.now ≡ token_line tokens.now }
{
    let Some((first, others)) = tokens.split_first() else {
        return line == LINE_END;
    };
    match after(line, first.text.bytes()) {
        Some(rest) => goes_on(others, rest),
        None => false,
    }
}

/// Whether a part whose printed text is known to have only one reading can be written: its file is
/// not too long.
pub(crate) fn check_known(part: PrintedPart, size: usize) -> Result<(), ModuleError>
    ensures short { IfOk result (λ _. size ≤ most_bytes) }
    ensures refused { IfErr result (λ e. (d : DialectData) (shown : List ℕ) (t : Tree) →
        IsPartRefusal d part size shown t e) }
{
    if size > MOST_BYTES {
        let defect = PrintDefect::Bytes(size as u64);
        return Err(ModuleError::Print { part, defect });
    }
    Ok(())
}

/// How many tokens the printed body has, where it can be written. The text is what is printed of
/// the term, in a file of so many bytes. It is read only where it is not the line of the tokens
/// that were read, or where the extensions in use add a production.
pub(crate) fn check_body(
    alloc: Global,
    given: &ModuleSource,
    body: &Body,
    size: usize,
    term: &Term,
    shown: &[u8],
) -> Result<u32, ModuleError>
    requires can { CanType given.now.source }
    requires body { IsBody (module_data given.now).source body.now.tokens.items
        (plain_reading body.now.reading) (tree body.now.term) }
    requires good { IsGoodTerm (literals_of (module_data given.now).source.dialect.language.parts)
        (shapes_of (module_data given.now).source.dialect.language.parts)
        (part_sort_of (module_data given.now).source.dialect PrintedPart.Body) (tree term.now) }
    requires text { shown.now ≡
        print_line (module_data given.now).source.dialect.language.parts (tree term.now) }
    requires utf8 { IsUtf8 shown.now }
    requires within { length shown.now ≤ size }
    ensures good { IfOk result
        (λ _. IsPrintable (module_data given.now).source.dialect.language.parts
        (part_sort_of (module_data given.now).source.dialect PrintedPart.Body) size shown.now
        (tree term.now)) }
    ensures tokens { IfOk result
        (λ n. n ≡ length (printed (module_data given.now).source.dialect.language.parts
        (tree term.now))) }
    ensures refused { IfErr result (IsPartRefusal (module_data given.now).source.dialect
        PrintedPart.Body size shown.now (tree term.now)) }
{
    let dialect = &given.source.dialect;
    dialect.language.grammar.facts();
    let part = PrintedPart::Body;
    if adds_nothing(dialect) && is_line_of(&body.tokens, shown) {
        check_known(part, size)?;
        return Ok(body.tokens.len() as u32);
    }
    check_part(alloc, dialect, part, size, term, shown)
}
