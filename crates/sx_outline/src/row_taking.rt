//! Taking the rows of a language file or of an extension file.

ghost use Rattle.std.specs.Prelude.{◌≡◌, ◌≤◌, IfOk};
ghost use Rattle.sx_directives.specs.declared.row.Row.{Row as RowOf};
ghost use Rattle.sx_directives.specs.declared.row.Row.TheVariants as rows;
ghost use Rattle.sx_lines.specs.declared.kind.Kind.TheVariants as kinds;
ghost use Rattle.sx_outline.specs.declared.outline_error.OutlineError.TheVariants as errors;
ghost use Rattle.sx_outline.specs.Declarations.{Declared};
ghost use Rattle.sx_outline.specs.Reading.{IsBodyTaken, IsPlainBegun, CanCountOne, GrowsByOne};
ghost use Rattle.sx_outline.specs.Reading.{IsDeclaration, IsRowTaken, stage as stage_of};
ghost use Rattle.sx_outline.specs.View as view;

use crate::known::Known;
use crate::outline_error::{OutlineError, bad_line};
use crate::reader::Reader;
use crate::rule_lines::{RuleLine, RuleLines};
use crate::stage::{Begun, BegunPlain, Stage};
use std::alloc::Global;
use sx_directives::{MainLine, PlainLine, Row};
use sx_lines::Kind;
use sx_term::Text;

/// The refusal of a line that may not stand there.
fn out_of_order(number: u32) -> OutlineError
    ensures { result ≡ errors.Notation number kinds.Order }
{
    bad_line(number, Kind::Order)
}

/// The stage with this body, where a rule has its conclusion and no body.
fn with_body(stage: Stage, number: u32, body: Text) -> Option<Stage>
    ensures { IsBodyTaken (stage_of stage) (record { number = number; text = body }) result }
{
    match stage {
        Stage::End(rule) => {
            let RuleLines {
                number: first,
                name,
                premises,
                conclusion,
                body: given,
            } = rule;
            match given {
                None => Some(Stage::End(RuleLines {
                    number: first,
                    name,
                    premises,
                    conclusion,
                    body: Some(RuleLine { number, text: body }),
                })),
                Some(_) => None,
            }
        }
        other => {
            drop(other);
            drop(body);
            None
        }
    }
}

/// The stage after the first line of a plain pair, where one may begin.
fn with_plain(stage: Stage, number: u32, plain: PlainLine) -> Option<Stage>
    ensures { IsPlainBegun (stage_of stage) number plain result }
{
    let PlainLine { label, names } = plain;
    let begun = BegunPlain {
        number,
        label,
        names,
    };
    match stage {
        Stage::Declarations | Stage::Plains => Some(Stage::Body(begun)),
        _ => {
            drop(begun);
            drop(stage);
            None
        }
    }
}

impl Reader {
    /// Takes a row that declares so many forms and stems.
    fn take_declaration(
        self,
        number: u32,
        more_forms: usize,
        more_vars: usize,
    ) -> Result<Reader, OutlineError>
        requires counted { CanCountOne self }
        requires few { (more_forms ≤ 1) × (more_vars ≤ 1) }
        ensures taken { (known : Declared) (row : RowOf) → IsDeclaration more_forms more_vars row →
            IsRowTaken known self number row result }
        ensures grows { IfOk result (GrowsByOne self) }
    {
        let Reader {
            stage,
            forms,
            vars,
            main,
            read,
        } = self;
        match stage {
            Stage::Declarations => Ok(Reader {
                stage: Stage::Declarations,
                forms: forms + more_forms,
                vars: vars + more_vars,
                main,
                read,
            }),
            _ => {
                drop(read);
                drop(stage);
                Err(out_of_order(number))
            }
        }
    }

    /// Takes a main line.
    fn take_main(self, known: &Known, number: u32, line: MainLine) -> Result<Reader, OutlineError>
        ensures taken { IsRowTaken (view.known known.now) self number (rows.Main line) result }
        ensures grows { IfOk result (GrowsByOne self) }
    {
        let Reader {
            stage,
            forms,
            vars,
            main,
            read,
        } = self;
        let found = known.main_of(&line);
        drop(line);
        match stage {
            Stage::Declarations => match main {
                Some(_) => {
                    drop(read);
                    Err(out_of_order(number))
                }
                None => match found {
                    Some(main) => Ok(Reader {
                        stage: Stage::Declarations,
                        forms,
                        vars,
                        main: Some(main),
                        read,
                    }),
                    None => {
                        drop(read);
                        Err(bad_line(number, Kind::Main))
                    }
                },
            },
            _ => {
                drop(read);
                drop(stage);
                Err(out_of_order(number))
            }
        }
    }

    /// Takes the first line of a rule.
    fn take_rule(self, alloc: Global, number: u32, name: Text) -> Result<Reader, OutlineError>
        ensures taken { (known : Declared) → IsRowTaken known self number (rows.Rule name) result }
        ensures grows { IfOk result (GrowsByOne self) }
    {
        let Reader {
            stage,
            forms,
            vars,
            main,
            read,
        } = self;
        let begun = Begun {
            number,
            name,
            premises: Vec::new(alloc),
        };
        match stage {
            Stage::Declarations | Stage::Plains | Stage::Rules => Ok(Reader {
                stage: Stage::Premises(begun),
                forms,
                vars,
                main,
                read,
            }),
            _ => {
                drop(begun);
                drop(read);
                drop(stage);
                Err(out_of_order(number))
            }
        }
    }

    /// Takes the first line of a plain pair.
    fn take_plain(self, number: u32, plain: PlainLine) -> Result<Reader, OutlineError>
        ensures taken { (known : Declared) →
            IsRowTaken known self number (rows.Plain plain) result }
        ensures grows { IfOk result (GrowsByOne self) }
    {
        let Reader {
            stage,
            forms,
            vars,
            main,
            read,
        } = self;
        match with_plain(stage, number, plain) {
            Some(stage) => Ok(Reader {
                stage,
                forms,
                vars,
                main,
                read,
            }),
            None => {
                drop(read);
                Err(out_of_order(number))
            }
        }
    }

    /// Takes the last line of a rule.
    fn take_end(self, number: u32) -> Result<Reader, OutlineError>
        ensures taken { (known : Declared) → IsRowTaken known self number rows.End result }
        ensures grows { IfOk result (GrowsByOne self) }
    {
        let Reader {
            stage,
            forms,
            vars,
            main,
            mut read,
        } = self;
        match stage {
            Stage::End(rule) => match read.add_rule(rule) {
                Ok(()) => Ok(Reader {
                    stage: Stage::Rules,
                    forms,
                    vars,
                    main,
                    read,
                }),
                Err(_) => {
                    drop(read);
                    Err(OutlineError::Memory)
                }
            },
            _ => {
                drop(read);
                drop(stage);
                Err(out_of_order(number))
            }
        }
    }

    /// Takes the body of a rule.
    fn take_body(self, number: u32, body: Text) -> Result<Reader, OutlineError>
        ensures taken { (known : Declared) → IsRowTaken known self number (rows.To body) result }
        ensures grows { IfOk result (GrowsByOne self) }
    {
        let Reader {
            stage,
            forms,
            vars,
            main,
            read,
        } = self;
        match with_body(stage, number, body) {
            Some(stage) => Ok(Reader {
                stage,
                forms,
                vars,
                main,
                read,
            }),
            None => {
                drop(read);
                Err(out_of_order(number))
            }
        }
    }

    /// Takes a row that fits.
    pub(crate) fn take_row(
        self,
        alloc: Global,
        known: &Known,
        number: u32,
        row: Row,
    ) -> Result<Reader, OutlineError>
        requires { CanCountOne self }
        ensures taken { IsRowTaken (view.known known.now) self number row result }
        ensures grows { IfOk result (GrowsByOne self) }
    {
        match row {
            Row::Sort(sort) => {
                drop(sort);
                self.take_declaration(number, 0, 0)
            }
            Row::Prod(production) => {
                drop(production);
                self.take_declaration(number, 0, 0)
            }
            Row::Var(var) => {
                drop(var);
                self.take_declaration(number, 0, 1)
            }
            Row::Form(form) => {
                drop(form);
                self.take_declaration(number, 1, 0)
            }
            Row::Main(line) => self.take_main(known, number, line),
            Row::Rule(name) => self.take_rule(alloc, number, name),
            Row::End => self.take_end(number),
            Row::Language(name) | Row::Extension(name) | Row::Use(name) => {
                drop(name);
                drop(self);
                Err(out_of_order(number))
            }
            Row::Bar => {
                drop(self);
                Err(out_of_order(number))
            }
            Row::Plain(plain) => self.take_plain(number, plain),
            Row::To(body) => self.take_body(number, body),
        }
    }
}
