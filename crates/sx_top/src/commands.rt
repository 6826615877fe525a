//! The words, and the command that they spell.

ghost use Rattle.std.specs.Prelude.{◌≡◌, IfOk};
ghost use Rattle.sx_words.specs.View.{command_view};
ghost use Rattle.sx_top.specs.Commands.{Commands};
ghost use Rattle.sx_steps.specs.Refusal as refusals;
ghost use Rattle.sx_steps.specs.Stop.{Gives, IsNoFault};

use std::alloc::Global;
use sx_steps::{StepError, Stop, about};
use sx_term::{NoMemory, Text};
use sx_words::{Command, Defect, FileDefect, WordsError, read_words};

/// The refusal of words that are no command.
fn bad_word(alloc: Global, place: u64) -> Result<Stop, NoMemory>
    ensures { IfOk result (λ stop. stop ≡ refusals.bad_word place) }
{
    let file = Text::of_str(alloc, "words")?;
    Ok(about(file, Defect::File(FileDefect::Word(place))))
}

/// The command that the words spell.
pub fn read_command(alloc: Global, words: &[Text]) -> Result<Command, StepError>
    ensures step { Gives command_view (Commands words.now) result }
    ensures no_fault { IsNoFault result }
{
    match read_words(alloc, words) {
        Ok(command) => Ok(command),
        Err(WordsError::Memory) => Err(StepError::Memory),
        Err(WordsError::Words(place)) => Err(StepError::Stopped(bad_word(alloc, place)?)),
    }
}
