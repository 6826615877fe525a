//! Tokens.

ghost use Rattle.std.specs.Prelude.{◌≡◌, IfOk};
ghost use Rattle.sx_term.specs.Vars.{without_tilde};

use std::alloc::Global;
use sx_term::{Mark, NoMemory, Text};

/// A token: its mark, its text, and the places of its first byte and of the byte after it, in bytes
/// from 0.
#[derive(Drop)]
pub struct Token {
    pub mark: Mark,
    pub text: Text,
    pub from: u32,
    pub to: u32,
}

impl Token {
    /// The name of a metavariable: the text behind the `~` that it begins with, or all of it where
    /// it begins with something else.
    pub fn name(&self, alloc: Global) -> Result<Text, NoMemory>
        ensures { IfOk result (λ t. t ≡ without_tilde self.now.text) }
    {
        match self.text.as_str().strip_prefix('~') {
            Some(name) => Text::of_str(alloc, name),
            None => self.text.copy(alloc),
        }
    }
}
