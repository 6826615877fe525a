//! Reading the words from the left.

ghost use Rattle.std.specs.Prelude.{◌≡◌, ◌+◌, ◌<◌, ◌^◌, ℕ, List, [], drop};
ghost use Rattle.std.specs.Prelude.{is_some, Ok};
ghost use Rattle.sx_lines.specs.Reading.{GivesRead};
ghost use Rattle.sx_lines.specs.Words.{count_of};
ghost use Rattle.sx_words.specs.Commands as command;
ghost use Rattle.sx_words.specs.Commands.{Meant, SpellsCommand, IsWordMisfit};
ghost use Rattle.sx_words.specs.Reading as spec;
ghost use Rattle.sx_words.specs.View.{command_view, settings_view, RefusesWords, IsCommandAnswer};

use crate::command::Command;
use crate::options::{Options, command, option_after, say};
use crate::verb::Verb;
use crate::words_error::WordsError;
use std::alloc::Global;
use sx_lines::{after, count_of, is_name};
use sx_term::Text;

/// Whether the word begins with `--`.
#[tactic(auto, unfolding(crate::specs::Reading::is_option))]
fn is_option(word: &[u8]) -> bool
    ensures { result ≡ spec.is_option word.now }
{
    after(word, b"--").is_some()
}

/// The command whose last word is the one at this place.
#[tactic(auto, unfolding(crate::specs::Reading::last_word))]
fn last_word(
    alloc: Global,
    verb: Verb,
    said: Options,
    name: &Text,
    place: u64,
    rest: &[Text],
) -> Result<Command, WordsError>
    requires { place + 1 < 2 ^ 64 }
    ensures { GivesRead command_view RefusesWords result
        (spec.last_word verb place (settings_view said) name.now rest.now) }
{
    if !is_name(false, name.bytes()) {
        drop(said);
        return Err(WordsError::Words(place));
    }
    match rest {
        [] => Ok(command(alloc, verb, said, name)?),
        [_, ..] => {
            drop(said);
            Err(WordsError::Words(place + 1))
        }
    }
}

/// The command that the words after its first one make.
fn after_verb(alloc: Global, verb: Verb, words: &[Text]) -> Result<Command, WordsError>
    ensures { GivesRead command_view RefusesWords result
        (spec.after_verb verb 2 command.nothing_said words.now) }
{
    let mut said = Options::new(alloc);
    let mut at = 0;
    while at < words.len() {
        let word = &words[at];
        let place = at as u64 + 2;
        if !is_option(word.bytes()) {
            let (_, rest) = words.split_at(at + 1);
            return last_word(alloc, verb, said, word, place, rest);
        }
        match option_after(verb, &said, word.bytes()) {
            Some(option) => match say(alloc, &mut said, option, place) {
                Ok(()) => {}
                Err(e) => {
                    drop(said);
                    return Err(e.into());
                }
            },
            None => {
                drop(said);
                return Err(WordsError::Words(place));
            }
        }
        at += 1;
    }
    drop(said);
    Err(WordsError::Words(at as u64 + 2))
}

/// The sample of the size that a word spells, where no word follows it.
fn sample(size: &Text, rest: &[Text]) -> Result<Command, WordsError>
    ensures { GivesRead command_view RefusesWords result
        (spec.sample_of (count_of 300 size.now) rest.now) }
{
    match count_of(300, size.bytes()) {
        Some(n) => {
            if !rest.is_empty() {
                return Err(WordsError::Words(3));
            }
            Ok(Command::Sample { n: n as u32 })
        }
        None => Err(WordsError::Words(2)),
    }
}

/// The command that the words after `sample` make.
#[tactic(auto, unfolding(crate::specs::Reading::after_sample))]
fn after_sample(words: &[Text]) -> Result<Command, WordsError>
    ensures { GivesRead command_view RefusesWords result (spec.after_sample words.now) }
{
    match words.split_first() {
        None => Err(WordsError::Words(2)),
        Some((size, rest)) => sample(size, rest),
    }
}

/// The command that a word is.
#[tactic(auto, unfolding(crate::specs::Reading::verb_of))]
fn verb_of(word: &[u8]) -> Option<Verb>
    ensures { result ≡ spec.verb_of word.now }
{
    if word == b"build".as_slice() {
        Some(Verb::Build)
    } else if word == b"compile".as_slice() {
        Some(Verb::Compile)
    } else if word == b"check".as_slice() {
        Some(Verb::Check)
    } else if word == b"verify".as_slice() {
        Some(Verb::Verify)
    } else {
        None
    }
}

/// The command that the words make whose first one is this.
#[tactic(auto, unfolding(crate::specs::Reading::command_from))]
fn command_from(alloc: Global, first: &Text, rest: &[Text]) -> Result<Command, WordsError>
    ensures { GivesRead command_view RefusesWords result
        (spec.command_from first.now (spec.verb_of first.now) rest.now) }
{
    match verb_of(first.bytes()) {
        Some(verb) => after_verb(alloc, verb, rest),
        None => {
            if first.bytes() != b"sample".as_slice() {
                return Err(WordsError::Words(1));
            }
            after_sample(rest)
        }
    }
}

/// The command that the words make, read from the left.
#[tactic(auto, unfolding(crate::specs::Reading::command_of))]
fn command_of(alloc: Global, words: &[Text]) -> Result<Command, WordsError>
    ensures { GivesRead command_view RefusesWords result (spec.command_of words.now) }
{
    match words.split_first() {
        None => Err(WordsError::Words(1)),
        Some((first, rest)) => command_from(alloc, first, rest),
    }
}

/// The command that the words spell: the words of the command line, without the program's name.
///
/// The first word is `build`, `compile`, `check`, `verify` or `sample`. Then come options, in any
/// order and each at most once: `--tries=N` and `--nodes=N` of `build`, `compile` and `check`;
/// `--audit=KIND:SETTING`, once for each kind, of `build` and `compile`; `--core` of `build` and
/// `verify`, not with `--nodes` and `--audit`. The last word is a name, or for `sample` a number
/// from 1 to 300. N is a number from 1 to 1,000,000 without a leading zero.
///
/// `Words` comes exactly where the words spell no command, with the number of the first word after
/// which none can follow. The place of an auditor is below 2^32: where more words stand before it,
/// memory is lacking.
pub fn read_words(alloc: Global, words: &[Text]) -> Result<Command, WordsError>
    ensures answer { IsCommandAnswer words.now result }
    // What is spelled is read, unless memory runs out.
    ensures only { (c : Meant) → SpellsCommand words.now c →
        GivesRead command_view RefusesWords result (Ok c) }
{
    command_of(alloc, words)
}

/// Words have one answer: they spell one command, or they have one first word that does not fit.
pub fn one_command_is_due()
    ensures command { (words : List (List ℕ)) (one other : Meant) →
        SpellsCommand words one → SpellsCommand words other → one ≡ other }
    ensures misfit { (words : List (List ℕ)) (one other : ℕ) →
        IsWordMisfit words one → IsWordMisfit words other → one ≡ other }
    ensures either { (words : List (List ℕ)) (c : Meant) (n : ℕ) →
        SpellsCommand words c → IsWordMisfit words n → ⊥ }
{}
