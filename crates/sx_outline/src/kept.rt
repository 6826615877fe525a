//! The lines that language files and extension files keep.

ghost use Rattle.std.specs.Prelude.{◌≡◌, ◌<◌, length, MatchResult, IfOk};
ghost use Rattle.std.specs.Str.{IsUtf8};
ghost use Rattle.sx_lines.specs.Lines.{over, line, next_number};
ghost use Rattle.sx_lines.specs.Left.{left};
ghost use Rattle.sx_directives.specs.Parts.{parts_of};
ghost use Rattle.sx_outline.specs.Known as spec_of;
ghost use Rattle.sx_outline.specs.Known.{kept_lines};

use sx_directives::is_blank;
use sx_lines::{Line, NoLine, Rest, after};

/// Whether the line has no parts, or its first part begins with `//`.
fn is_dropped(text: &[u8]) -> bool
    ensures { result ≡ spec_of.is_dropped (parts_of text.now) }
{
    for (at, b) in text.iter().enumerate() {
        if !is_blank(*b) {
            let (_blanks, rest) = text.split_at(at);
            return after(rest, b"//").is_some();
        }
    }
    true
}

/// The first line that a language file or an extension file keeps, and what is left after it. It
/// goes by the line's parts, so blanks may stand before the `//` of a comment, where
/// `Rest::next_kept` asks for it at the line's first byte. `NoLine` comes exactly where no such
/// line is left.
pub(crate) fn next_line_of_parts<'a>(rest: Rest<'a>) -> Result<(Line<'a>, Rest<'a>), NoLine>
    ensures first { MatchResult result
        (λ x. kept_lines (left rest.entry) ≡ line x.0.number x.0.text.now x.1.bytes.now
        (kept_lines (left x.1)))
        (λ e. kept_lines (left rest.entry) ≡ over e.number) }
    ensures shorter { IfOk result (λ x. length x.1.bytes.now < length rest.entry.bytes.now) }
    ensures numbers { IfOk result (λ x. x.1.number ≡ next_number x.0.number) }
    ensures utf8 { IsUtf8 rest.entry.bytes.now →
        IfOk result (λ x. IsUtf8 x.0.text.now × IsUtf8 x.1.bytes.now) }
{
    let mut lines = rest;
    'kept: loop {
        match lines.next() {
            Err(e) => return Err(e),
            Ok((line, more)) => {
                if !is_dropped(line.text) {
                    return Ok((line, more));
                }
                lines = more;
            }
        }
    }
}
