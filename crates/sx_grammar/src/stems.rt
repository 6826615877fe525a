//! The stems of the names of metavariables.

ghost use Rattle.std.specs.Prelude.{◌≡◌};
ghost use Rattle.sx_grammar.specs.Stems.{without_digits};

/// The bytes without the ASCII digits at their end.
pub fn without_digits(bytes: &[u8]) -> &[u8]
    ensures { result.now ≡ without_digits bytes.now }
{
    let mut rest = bytes;
    while let Some((last, front)) = rest.split_last() {
        if last.is_ascii_digit() {
            rest = front;
        } else {
            return rest;
        }
    }
    rest
}
