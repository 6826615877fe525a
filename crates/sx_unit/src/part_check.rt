//! Whether a printed part can be written.

ghost use Rattle.std.specs.Prelude.{◌≡◌, ◌≤◌, ◌++◌, ℕ, List, length, IfOk, IfErr};
ghost use Rattle.std.specs.Str.{IsUtf8};
ghost use Rattle.sx_term.specs.Spaced.{AreBlanks};
ghost use Rattle.sx_term.specs.Term.{tree};
ghost use Rattle.sx_grammar.specs.Tables.{literals_of};
ghost use Rattle.sx_grammar.specs.Told.{shapes_of};
ghost use Rattle.sx_typing.specs.Dialects.{dialect_of, IsDialectOf};
ghost use Rattle.sx_typing.specs.BodySource.{IsGoodTerm};
ghost use Rattle.sx_unit.specs.PartRefused.{refusal_of, IsPartRefusal};
ghost use Rattle.sx_unit.specs.PrintedParts.{part_grammar_of, part_sort_of};
ghost use Rattle.sx_unit.specs.Texts.{printed, print_text};
ghost use Rattle.sx_unit.specs.Unprinted.{IsPrintable};

use crate::parts::{part_grammar, part_sort};
use crate::print_check::{PrintRefusal, check_print};
use std::alloc::Global;
use sx_term::Term;
use sx_typing::{Dialect, ModuleError};
use sx_words::PrintedPart;

/// The refusal of a printed part.
fn print_error(part: PrintedPart, refusal: PrintRefusal) -> ModuleError
    ensures { result ≡ refusal_of part refusal }
{
    match refusal {
        PrintRefusal::Memory => ModuleError::Memory,
        PrintRefusal::Defect(defect) => ModuleError::Print { part, defect },
    }
}

/// How many tokens are printed of a part, whose file has so many bytes, where it can be written.
pub(crate) fn check_part(
    alloc: Global,
    dialect: &Dialect,
    part: PrintedPart,
    size: usize,
    term: &Term,
    shown: &[u8],
) -> Result<u32, ModuleError>
    requires dialect { IsDialectOf dialect.now }
    requires good { IsGoodTerm (literals_of (part_grammar_of (dialect_of dialect.now) part))
        (shapes_of (part_grammar_of (dialect_of dialect.now) part)) (part_sort_of
        (dialect_of dialect.now) part)
        (tree term.now) }
    requires text { (blanks : List ℕ) × AreBlanks blanks × (shown.now ≡
        print_text (part_grammar_of (dialect_of dialect.now) part) (tree term.now) ++ blanks) }
    requires utf8 { IsUtf8 shown.now }
    requires within { length shown.now ≤ size }
    ensures good { IfOk result (λ n. IsPrintable (part_grammar_of (dialect_of dialect.now) part)
        (part_sort_of (dialect_of dialect.now) part) size shown.now (tree term.now)) }
    ensures tokens { IfOk result
        (λ n. n ≡ length (printed (part_grammar_of (dialect_of dialect.now) part)
        (tree term.now))) }
    ensures refused { IfErr result
        (IsPartRefusal (dialect_of dialect.now) part size shown.now (tree term.now)) }
{
    let sort = part_sort(dialect, part);
    let grammar = part_grammar(dialect, part);
    match check_print(alloc, grammar, sort, size, term, shown) {
        Ok(tokens) => Ok(tokens),
        Err(refusal) => Err(print_error(part, refusal)),
    }
}
