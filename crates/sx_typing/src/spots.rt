//! Lines and columns of places.

ghost use Rattle.std.specs.Prelude.{◌≡◌, ◌≤◌, length};
ghost use Rattle.sx_typing.specs.Spots.{line_at, column_at};

/// A line and a column, both counted from 1, the column in bytes.
#[derive(Clone, Copy, PartialEq, Eq, Debug)]
pub(crate) struct Spot {
    pub(crate) line: u64,
    pub(crate) column: u64,
}

/// The line of the place and its column.
pub(crate) fn spot_of(bytes: &[u8], place: usize) -> Spot
    requires { place ≤ length bytes.now }
    ensures { (result.line ≡ line_at bytes.now place) ×
        (result.column ≡ column_at bytes.now place) }
{
    let before = &bytes[..place];
    let mut feeds: u64 = 0;
    let mut behind: u64 = 0;
    for b in before {
        if *b == b'\n' {
            feeds += 1;
            behind = 0;
        } else {
            behind += 1;
        }
    }
    Spot {
        line: 1 + feeds,
        column: 1 + behind,
    }
}
