//! What the options say.

ghost use Rattle.std.specs.Prelude.{◌≡◌, ◌≤◌, ◌^◌, ◌&&◌, true, OnOk, IfOk, IfSome, MatchResult};
ghost use Rattle.std.specs.Prelude.{option_map, map};
ghost use Rattle.sx_words.specs.Commands as spec;
ghost use Rattle.sx_words.specs.Reading.{next_option};
ghost use Rattle.sx_words.specs.View.{audit_view, given_view, settings_view, command_view};
ghost use Rattle.sx_words.specs.View.{HasKinds};
ghost use Rattle.sx_words.specs.Texts.{IsGivenUtf8};
ghost use Rattle.std.specs.Str.{IsUtf8};

use crate::audit::Audit;
use crate::command::Command;
use crate::given::{Given, option_of};
use crate::row::row_of;
use crate::verb::Verb;
use indexmap::IndexSet;
use std::alloc::Global;
use sx_term::{MOST_BUDGET, NoMemory, Text};

/// What the options say so far.
#[derive(Drop)]
pub(crate) struct Options {
    pub core: bool,
    pub tries: Option<u64>,
    pub nodes: Option<u64>,
    /// The kinds of the auditors, found by their hash.
    pub kinds: IndexSet<Vec<u8>>,
    pub audits: Vec<Audit>,
}

impl Options {
    /// Nothing is said.
    pub fn new(alloc: Global) -> Options
        ensures said { settings_view result ≡ spec.nothing_said }
        ensures kinds { HasKinds result }
    {
        Options {
            core: false,
            tries: None,
            nodes: None,
            kinds: IndexSet::new(alloc),
            audits: Vec::new(alloc),
        }
    }

    /// Whether an auditor of the kind is named.
    fn has_kind(&self, kind: &[u8]) -> bool
        requires { HasKinds self.now }
        ensures { result ≡ spec.has_kind (map audit_view self.now.audits.items) kind.now }
    {
        self.kinds.contains(kind)
    }
}

/// Whether the command takes the option.
fn takes(verb: Verb, option: &Given<'_>) -> bool
    ensures { result ≡ spec.takes verb (given_view option.now) }
{
    row_of(verb).has_option(option)
}

/// Whether the option may stand after what was said.
#[tactic(auto, unfolding(crate::specs::Commands::is_new))]
fn is_new(said: &Options, option: &Given<'_>) -> bool
    requires { HasKinds said.now }
    ensures { result ≡ spec.is_new (settings_view said.now) (given_view option.now) }
{
    match option {
        Given::Core => !said.core && said.nodes.is_none() && said.audits.is_empty(),
        Given::Tries(_) => said.tries.is_none(),
        Given::Nodes(_) => said.nodes.is_none() && !said.core,
        Given::Audit(kind, _) => !said.core && !said.has_kind(kind),
    }
}

/// The option that the word spells, where it may stand there.
#[tactic(auto, unfolding(crate::specs::Reading::next_option))]
pub(crate) fn option_after<'a>(verb: Verb, said: &Options, word: &'a [u8]) -> Option<Given<'a>>
    requires { HasKinds said.now }
    ensures value { option_map given_view result
        ≡ next_option verb (settings_view said.now) word.entry.now }
    ensures utf8 { IsUtf8 word.entry.now → IfSome result IsGivenUtf8 }
{
    match option_of(word) {
        Some(option) => {
            if takes(verb, &option) && is_new(said, &option) {
                return Some(option);
            }
            None
        }
        None => None,
    }
}

/// The place, where it is below 2^32. Words that many do not stand in memory.
fn small_place(place: u64) -> Result<u32, NoMemory>
    ensures { MatchResult result (λ small. small ≡ place) (λ _. 2 ^ 32 ≤ place) }
{
    if place > u32::MAX as u64 {
        return Err(NoMemory::Memory);
    }
    Ok(place as u32)
}

/// Says what the option at this place among the words says.
#[tactic(auto, unfolding(crate::specs::Commands::with_option))]
pub(crate) fn say(
    alloc: Global,
    said: &mut Options,
    option: Given<'_>,
    place: u64,
) -> Result<(), NoMemory>
    requires utf8 { IsGivenUtf8 option }
    requires kinds { HasKinds said.old }
    ensures said { OnOk result (settings_view said.new
        ≡ spec.with_option place (settings_view said.old) (given_view option.entry)) }
    ensures kinds { OnOk result (HasKinds said.new) }
{
    match option {
        Given::Core => said.core = true,
        Given::Tries(tries) => said.tries = Some(tries),
        Given::Nodes(nodes) => said.nodes = Some(nodes),
        Given::Audit(kind, setting) => {
            let word = small_place(place)?;
            said.kinds.insert(Vec::from_slice(alloc, kind)?)?;
            let kind = Text::of_utf8(alloc, kind)?;
            let setting = Text::of_utf8(alloc, setting)?;
            said.audits.push(Audit {
                kind,
                setting,
                word,
            })?;
        }
    }
    Ok(())
}

/// The command of this name, with what the options say.
#[tactic(auto, unfolding(crate::specs::Commands::meant))]
pub(crate) fn command(
    alloc: Global,
    verb: Verb,
    said: Options,
    name: &Text,
) -> Result<Command, NoMemory>
    ensures { IfOk result (λ c. command_view c ≡ spec.meant verb (settings_view said) name.now) }
{
    let name = match name.copy(alloc) {
        Ok(name) => name,
        Err(e) => {
            drop(said);
            return Err(e);
        }
    };
    let Options {
        core,
        tries,
        nodes,
        kinds,
        audits,
    } = said;
    drop(kinds);
    let tries = tries.unwrap_or(MOST_BUDGET);
    let nodes = nodes.unwrap_or(MOST_BUDGET);
    match verb {
        Verb::Build => Ok(Command::Build {
            core,
            name,
            tries,
            nodes,
            audits,
        }),
        Verb::Compile => Ok(Command::Compile {
            name,
            tries,
            nodes,
            audits,
        }),
        Verb::Check => {
            drop(audits);
            Ok(Command::Check { name, tries, nodes })
        }
        Verb::Verify => {
            drop(audits);
            Ok(Command::Verify { core, name })
        }
    }
}
