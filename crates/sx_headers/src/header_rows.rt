//! The lines on which the rows of a header stand.

ghost use Rattle.std.specs.Prelude.{◌≡◌};
ghost use Rattle.sx_lines.specs.Lines.{lines_from};
ghost use Rattle.sx_lines.specs.Reading.{kept};
ghost use Rattle.sx_headers.specs.HeaderRows.{number_at};

use sx_lines::Rest;

/// The number of the line of the row with this number, from 0, in the header of a file with these
/// bytes. Past the last line it is that of a line that is missing. Lines past 4,294,967,294 have
/// all the number 4,294,967,295.
pub fn row_line(bytes: &[u8], row: usize) -> u32
    ensures { result ≡ number_at (kept (lines_from 1 bytes.now)) row }
{
    let mut rest = Rest::all(bytes);
    for _ in 0..row {
        match rest.next_kept() {
            Ok((_, more)) => rest = more,
            Err(e) => return e.number,
        }
    }
    match rest.next_kept() {
        Ok((line, _)) => line.number,
        Err(e) => e.number,
    }
}
