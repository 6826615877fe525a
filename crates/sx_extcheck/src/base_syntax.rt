//! Bodies whose typed syntax is base.

ghost use Rattle.std.specs.Prelude.{◌≡◌, option_map};
ghost use Rattle.sx_term.specs.Term.{tree};
ghost use Rattle.sx_rules.specs.Deep.{AreShallow};
ghost use Rattle.sx_plain.specs.Views.{table_of};
ghost use Rattle.sx_extcheck.specs.Checks as known;
ghost use Rattle.sx_extcheck.specs.FlatTerms.{listed_term};

use sx_plain::{PlainTable, first_later};
use sx_term::Term;

/// Whether there is no body, or its typed syntax is base: each label of it is base or has an entry.
pub(crate) fn has_base_syntax(plain: &PlainTable, body: &Option<Term>) -> bool
    requires { AreShallow (listed_term (option_map tree body.now)) }
    ensures { result
        ≡ known.has_base_syntax plain.now.base (table_of plain.now) (option_map tree body.now) }
{
    match body {
        Some(term) => first_later(plain, term).is_none(),
        None => true,
    }
}
