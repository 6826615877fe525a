//! The reading of a core file, line by line.

ghost use Rattle.std.specs.Prelude.{◌≡◌, ℕ, Contains, IsOk, MatchResult};
ghost use Rattle.sx_rules.specs.Views.{premise};
ghost use Rattle.sx_core.specs.Machine.{IsFresh, CoreSteps, StepRefused, TakesPremise, keyword_of};
ghost use Rattle.sx_core.specs.declared.line_read.LineRead.TheVariants as line;
ghost use Rattle.sx_core.specs.declared.keyword.Keyword.TheVariants as keyword;
ghost use Rattle.sx_core.specs.declared.stage.Stage.TheVariants.{Declaring};
ghost use Rattle.sx_core.specs.declared.step_error.StepError.TheVariants.{Memory, Order};

use crate::found::{Found, add_con, add_form, add_sort};
use crate::line_read::LineRead;
use crate::rows::{ConRow, SortRow};
use crate::stage::{Open, Stage};
use crate::step_error::StepError;
use std::alloc::Global;
use sx_rules::{Form, Goal, Judgement, Premise, Rule};
use sx_term::{Con, NoMemory, Sort, Text};

/// What has been read of a core file: what was found, the rules that are ended, and where the
/// reading stands.
#[derive(Drop)]
pub(crate) struct Reader {
    pub found: Found,
    pub rules: Vec<Rule>,
    pub stage: Stage,
}

/// Lets go of what a reader has that does not take a line there.
fn out_of_order(found: Found, rules: Vec<Rule>, stage: Stage) -> StepError
    ensures { result ≡ Order }
{
    drop(stage);
    drop(rules);
    drop(found);
    StepError::Order
}

/// What is read after a declaration that was added, where there was room for it.
fn declared(
    found: Found,
    rules: Vec<Rule>,
    added: Result<(), NoMemory>,
) -> Result<Reader, StepError>
    ensures { MatchResult result
        (λ r. IsOk added × (r.found ≡ found) × (r.rules ≡ rules) × (r.stage ≡ Declaring))
        (λ e. e ≡ Memory) }
{
    match added {
        Ok(()) => Ok(Reader {
            found,
            rules,
            stage: Stage::Declaring,
        }),
        Err(_) => {
            drop(found);
            drop(rules);
            Err(StepError::Memory)
        }
    }
}

impl Reader {
    /// Takes the first line.
    pub(crate) fn take_head(self) -> Result<Reader, StepError>
        ensures { (n : ℕ) → MatchResult result (λ r. CoreSteps self n line.Head r)
            (λ e. StepRefused self keyword.Head e) }
    {
        let Reader {
            found,
            rules,
            stage,
        } = self;
        match stage {
            Stage::Start => Ok(Reader {
                found,
                rules,
                stage: Stage::Declaring,
            }),
            _ => Err(out_of_order(found, rules, stage)),
        }
    }

    /// Takes the line of a sort.
    fn take_sort(self, alloc: Global, row: SortRow) -> Result<Reader, StepError>
        requires { Contains self.found.taken row.name → ⊥ }
        ensures { (n : ℕ) → MatchResult result (λ r. CoreSteps self n (line.Sort row) r)
            (λ e. StepRefused self keyword.Sort e) }
    {
        let Reader {
            mut found,
            rules,
            stage,
        } = self;
        match stage {
            Stage::Declaring => {
                let added = add_sort(alloc, &mut found, &row);
                drop(row);
                declared(found, rules, added)
            }
            _ => {
                drop(row);
                Err(out_of_order(found, rules, stage))
            }
        }
    }

    /// Takes the line of a constructor.
    fn take_con(self, alloc: Global, row: ConRow, con: Con) -> Result<Reader, StepError>
        requires { Contains self.found.con_names row.name → ⊥ }
        ensures { (n : ℕ) → MatchResult result (λ r. CoreSteps self n (line.Con row con) r)
            (λ e. StepRefused self keyword.Con e) }
    {
        let Reader {
            mut found,
            rules,
            stage,
        } = self;
        match stage {
            Stage::Declaring => {
                let added = add_con(alloc, &mut found, &row, con);
                drop(row);
                declared(found, rules, added)
            }
            _ => {
                drop(row);
                drop(con);
                Err(out_of_order(found, rules, stage))
            }
        }
    }

    /// Takes the line of a form.
    fn take_form(self, alloc: Global, one: Form) -> Result<Reader, StepError>
        requires { Contains self.found.forms.names one.name → ⊥ }
        ensures { (n : ℕ) → MatchResult result (λ r. CoreSteps self n (line.Form one) r)
            (λ e. StepRefused self keyword.Form e) }
    {
        let Reader {
            mut found,
            rules,
            stage,
        } = self;
        match stage {
            Stage::Declaring => {
                let added = add_form(alloc, &mut found, one);
                declared(found, rules, added)
            }
            _ => {
                drop(one);
                Err(out_of_order(found, rules, stage))
            }
        }
    }

    /// Takes the line of this number, which begins a rule.
    fn take_rule(
        self,
        alloc: Global,
        number: u32,
        name: Text,
        sorts: Vec<Sort>,
    ) -> Result<Reader, StepError>
        ensures { MatchResult result (λ r. CoreSteps self number (line.Rule name sorts) r)
            (λ e. StepRefused self keyword.Rule e) }
    {
        let Reader {
            found,
            rules,
            stage,
        } = self;
        let open = Open {
            line: number,
            name,
            sorts,
            premises: Vec::new(alloc),
        };
        match stage {
            Stage::Declaring | Stage::Between => Ok(Reader {
                found,
                rules,
                stage: Stage::Premising(open),
            }),
            _ => {
                drop(open);
                Err(out_of_order(found, rules, stage))
            }
        }
    }

    /// Takes the line of a premise.
    fn take_premise(self, one: Premise) -> Result<Reader, StepError>
        ensures { MatchResult result (TakesPremise self (premise one))
            (λ e. StepRefused self keyword.If e × StepRefused self keyword.Not e) }
    {
        let Reader {
            found,
            rules,
            stage,
        } = self;
        match stage {
            Stage::Premising(mut open) => {
                match open.premises.push(one) {
                    Ok(_) => {}
                    Err(_) => {
                        drop(found);
                        drop(rules);
                        drop(open);
                        return Err(StepError::Memory);
                    }
                }
                Ok(Reader {
                    found,
                    rules,
                    stage: Stage::Premising(open),
                })
            }
            _ => {
                drop(one);
                Err(out_of_order(found, rules, stage))
            }
        }
    }

    /// Takes the line of a conclusion.
    fn take_then(self, one: Judgement) -> Result<Reader, StepError>
        ensures { (n : ℕ) → MatchResult result (λ r. CoreSteps self n (line.Then one) r)
            (λ e. StepRefused self keyword.Then e) }
    {
        let Reader {
            found,
            rules,
            stage,
        } = self;
        match stage {
            Stage::Premising(open) => Ok(Reader {
                found,
                rules,
                stage: Stage::Concluded(open, one),
            }),
            _ => {
                drop(one);
                Err(out_of_order(found, rules, stage))
            }
        }
    }

    /// Takes the line that ends a rule.
    fn take_end(self) -> Result<Reader, StepError>
        ensures { (n : ℕ) → MatchResult result (λ r. CoreSteps self n line.End r)
            (λ e. StepRefused self keyword.End e) }
    {
        let Reader {
            found,
            mut rules,
            stage,
        } = self;
        match stage {
            Stage::Concluded(open, conclusion) => {
                let Open {
                    line: _,
                    name,
                    sorts,
                    premises,
                } = open;
                let rule = Rule {
                    name,
                    vars: sorts,
                    premises,
                    conclusion,
                };
                match rules.push(rule) {
                    Ok(_) => {}
                    Err(_) => {
                        drop(found);
                        drop(rules);
                        return Err(StepError::Memory);
                    }
                }
                Ok(Reader {
                    found,
                    rules,
                    stage: Stage::Between,
                })
            }
            _ => Err(out_of_order(found, rules, stage)),
        }
    }

    /// Takes the line of the goal.
    fn take_goal(self, goal: Goal) -> Result<Reader, StepError>
        ensures { (n : ℕ) → MatchResult result (λ r. CoreSteps self n (line.Goal goal) r)
            (λ e. StepRefused self keyword.Goal e) }
    {
        let Reader {
            found,
            rules,
            stage,
        } = self;
        match stage {
            Stage::Declaring | Stage::Between => Ok(Reader {
                found,
                rules,
                stage: Stage::Over(goal),
            }),
            _ => {
                drop(goal);
                Err(out_of_order(found, rules, stage))
            }
        }
    }

    /// Takes what the line of this number states.
    pub(crate) fn take(
        self,
        alloc: Global,
        number: u32,
        read: LineRead,
    ) -> Result<Reader, StepError>
        requires { IsFresh self.found read }
        ensures { MatchResult result (λ r. CoreSteps self number read r)
            (λ e. StepRefused self (keyword_of read) e) }
    {
        match read {
            LineRead::Head => self.take_head(),
            LineRead::Sort(row) => self.take_sort(alloc, row),
            LineRead::Con(row, con) => self.take_con(alloc, row, con),
            LineRead::Form(one) => self.take_form(alloc, one),
            LineRead::Rule(name, sorts) => self.take_rule(alloc, number, name, sorts),
            LineRead::If(one) => self.take_premise(Premise::Holds(one)),
            LineRead::Not(left, right) => self.take_premise(Premise::Apart(left, right)),
            LineRead::Then(one) => self.take_then(one),
            LineRead::End => self.take_end(),
            LineRead::Goal(goal) => self.take_goal(goal),
        }
    }
}
