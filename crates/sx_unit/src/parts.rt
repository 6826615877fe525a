//! The grammars and the sorts of printed parts.

ghost use Rattle.std.specs.Prelude.{◌≡◌, ◌<◌, length};
ghost use Rattle.sx_rules.specs.Sets.{forms_in};
ghost use Rattle.sx_typing.specs.Dialects.{dialect_of};
ghost use Rattle.sx_unit.specs.PrintedParts as known;

use sx_grammar::Grammar;
use sx_term::{Role, Sort};
use sx_typing::{Dialect, main_sort};
use sx_words::PrintedPart;

/// The grammar by which a part is printed.
pub(crate) fn part_grammar<'a>(dialect: &Dialect<'a>, part: PrintedPart) -> &'a Grammar
    ensures { result.now.parts ≡ known.part_grammar_of (dialect_of dialect.entry.now) part }
{
    match part {
        PrintedPart::Body | PrintedPart::Signature => &dialect.language.grammar,
        PrintedPart::Stated => dialect.grammar,
    }
}

/// The sort as which a part is printed.
pub(crate) fn part_sort(dialect: &Dialect, part: PrintedPart) -> Sort
    requires { dialect.now.language.now.main.form
        < length (forms_in dialect.now.language.now.rules) }
    ensures { result ≡ known.part_sort_of (dialect_of dialect.now) part }
{
    match part {
        PrintedPart::Body => main_sort(dialect.language, Role::Sub),
        PrintedPart::Signature | PrintedPart::Stated => main_sort(dialect.language, Role::Out),
    }
}
