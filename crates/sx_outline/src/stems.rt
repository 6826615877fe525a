//! The stems of names.

ghost use Rattle.std.specs.Prelude.{◌≡◌};
ghost use Rattle.sx_grammar.specs.Stems.{without_digits};

use sx_grammar::without_digits;
use sx_term::Text;

/// The stem of the name: what stands before the digits at its end.
pub(crate) fn stem_of(name: &Text) -> &str
    ensures { result.now ≡ without_digits name.now }
{
    match std::str::from_utf8(without_digits(name.bytes())) {
        Ok(stem) => stem,
        Err(_) => unreachable!(),
    }
}
