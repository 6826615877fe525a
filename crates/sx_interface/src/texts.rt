//! Texts of names.

ghost use Rattle.std.specs.Prelude.{◌≡◌, true, false, IfOk};
ghost use Rattle.sx_lines.specs.Words.{is_name};

use std::alloc::Global;
use sx_term::{NoMemory, Text};

/// The text of a name, whose bytes are ASCII.
pub fn name_text(alloc: Global, name: &[u8]) -> Result<Text, NoMemory>
    requires { is_name false name.now ≡ true }
    ensures { IfOk result (λ t. t ≡ name.now) }
{
    Text::of_utf8(alloc, name)
}
