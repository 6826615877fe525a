//! The places of parts.

ghost use Rattle.std.specs.Prelude.{◌≡◌};
ghost use Rattle.sx_forest.specs.Readings.{plain_reading};
ghost use Rattle.sx_forest.specs.Places.{unbracketed, start_of, place_at};

use crate::reading::Reading;
use sx_term::Path;

/// The reading without the brackets that stand round it.
fn unbracketed(reading: &Reading) -> &Reading
    ensures { plain_reading result.now ≡ unbracketed (plain_reading reading.now) }
{
    let mut here = reading;
    while let Reading::Bracket {
        inner,
        from: _,
        to: _,
    } = here
    {
        here = inner;
    }
    here
}

/// The number of the first token of a reading without brackets round it.
fn start(reading: &Reading) -> u32
    ensures { result ≡ start_of (plain_reading reading.now) }
{
    match reading {
        Reading::Node {
            label: _,
            kids: _,
            from,
            to: _,
        } => *from,
        Reading::Bracket {
            inner: _,
            from,
            to: _,
        } => *from,
        Reading::Lex { token } => *token,
        Reading::Var { token } => *token,
    }
}

/// The number of the first token of the part of the term at the path, or the place where the part
/// would stand if it reads no token. Brackets round the part do not belong to it. None comes
/// exactly where the path leaves the term.
pub fn place_of(reading: &Reading, path: &Path) -> Option<u32>
    ensures { result ≡ place_at (plain_reading reading.now) path.now.steps.items }
{
    let mut here = unbracketed(reading);
    for step in &path.steps {
        match here {
            Reading::Node {
                label: _,
                kids,
                from: _,
                to: _,
            } => match kids.get(*step) {
                Some(kid) => here = unbracketed(kid),
                None => return None,
            },
            _ => return None,
        }
    }
    Some(start(here))
}
