//! Refusals and their lines.

ghost use Rattle.std.specs.Prelude.{◌≡◌, ◌++◌, OnOk, OnErr, IfOk};
ghost use Rattle.sx_words.specs.Lines.{line_text};
ghost use Rattle.sx_words.specs.RefusalText.{defect_text, refusal_text};

use crate::budget_defect::{BudgetDefect, put_budget};
use crate::closure_defect::{ClosureDefect, put_closure};
use crate::extension_defect::{ExtensionDefect, put_extension};
use crate::file_defect::{FileDefect, put_file};
use crate::goal_defect::{GoalDefect, put_goal};
use crate::grammar_defect::{GrammarDefect, put_grammar};
use crate::line::append_line;
use crate::list_defect::{ListDefect, put_list};
use crate::parts::{number, put};
use crate::position::{Position, put_place};
use crate::print_defect::{PrintDefect, PrintedPart, put_part, put_print};
use crate::rule_defect::{RuleDefect, put_rule};
use crate::text_defect::{TextDefect, put_text};
use std::alloc::Global;
use std::fmt;
use sx_term::{NoMemory, Text};

/// What is wrong.
#[derive(Drop)]
pub enum Defect {
    /// With the words or a file as a whole.
    File(FileDefect),
    /// With a text that is read.
    Text(TextDefect),
    /// With a grammar.
    Grammar(GrammarDefect),
    /// With a set of rules.
    Rule(RuleDefect),
    /// With an extension.
    Extension(ExtensionDefect),
    /// A goal has no derivation.
    Goal(GoalDefect),
    /// A derivation passes a budget or a limit.
    Budget(BudgetDefect),
    /// A printed text cannot be written.
    Print {
        part: PrintedPart,
        defect: PrintDefect,
    },
    /// A name in the stated signature, the first such, is this literal.
    Captured(Text),
    /// Files do not go together.
    Closure(ClosureDefect),
    /// A derivation list fits no derivation.
    List(ListDefect),
    /// An auditor objects to a node of a derivation, counted from 1, by this rule.
    Objected {
        auditor: Text,
        node: u64,
        rule: Text,
    },
}

/// A refusal, as its line names it.
#[derive(Drop)]
pub struct Refusal {
    /// Where the thing stands.
    pub place: Position,
    /// What is wrong with it.
    pub defect: Defect,
}

/// Says no more than that it is a refusal: `write_refusal` says which.
impl fmt::Debug for Refusal {
    fn fmt<W: fmt::Write>(&self, f: &mut fmt::Formatter<W>) -> fmt::Result {
        f.write_str("a refusal")
    }
}

/// Appends the defect's text.
fn put_defect(alloc: Global, defect: &Defect, into: &mut Vec<u8>) -> Result<(), NoMemory>
    ensures { OnOk result (into.new.items ≡ into.old.items ++ defect_text defect.now) }
{
    match defect {
        Defect::File(file) => put_file(alloc, file, into),
        Defect::Text(text) => put_text(alloc, text, into),
        Defect::Grammar(grammar) => put_grammar(grammar, into),
        Defect::Rule(rule) => put_rule(alloc, rule, into),
        Defect::Extension(extension) => put_extension(extension, into),
        Defect::Goal(goal) => put_goal(alloc, goal, into),
        Defect::Budget(budget) => put_budget(alloc, budget, into),
        Defect::Print { part, defect } => {
            put_part(*part, into)?;
            put_print(alloc, defect, into)
        }
        Defect::Captured(word) => put(
            &[
                b"stated signature has the literal ",
                word.bytes(),
                b" as a name",
            ],
            into,
        ),
        Defect::Closure(closure) => put_closure(closure, into),
        Defect::List(list) => put_list(alloc, list, into),
        Defect::Objected {
            auditor,
            node,
            rule,
        } => {
            let node = number(alloc, *node)?;
            put(
                &[
                    auditor.bytes(),
                    b" objects to node ",
                    node.as_str().as_bytes(),
                    b", ",
                    rule.bytes(),
                ],
                into,
            )
        }
    }
}

/// The text of the refusal.
fn refusal_text(alloc: Global, refusal: &Refusal) -> Result<Vec<u8>, NoMemory>
    ensures { IfOk result (λ text. text.items ≡ refusal_text refusal.now) }
{
    let mut text = Vec::new(alloc);
    put_place(alloc, &refusal.place, &mut text)?;
    put_defect(alloc, &refusal.defect, &mut text)?;
    Ok(text)
}

/// Appends the one line that names the refusal: `soundx: `, the file in which the thing stands, `:
/// `, the text of the refusal and a line feed. After out of memory `into` is as before.
pub fn write_refusal(
    alloc: Global,
    file: &Text,
    refusal: &Refusal,
    into: &mut Vec<u8>,
) -> Result<(), NoMemory>
    ensures ok { OnOk result (into.new.items ≡ into.old.items
        ++ line_text file.now (refusal_text refusal.now)) }
    ensures err { OnErr result (into.new.items ≡ into.old.items) }
{
    let text = refusal_text(alloc, refusal)?;
    append_line(file, text.as_slice(), into)
}
