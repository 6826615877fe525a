//! The end of the reading of a language file.

ghost use Rattle.std.specs.Prelude.{◌≡◌, [], map};
ghost use Rattle.sx_outline.specs.Stages.{State, IsWhole, rule_data};
ghost use Rattle.sx_outline.specs.Reading.{IsOutlineReader, IsMainRead, IsEndRead};
ghost use Rattle.sx_outline.specs.View as view;

use crate::known::Known;
use crate::main_form::MainForm;
use crate::open_line::open_line;
use crate::outline::Outline;
use crate::outline_error::{OutlineError, bad_line};
use crate::read_lines::ReadLines;
use crate::reader::Reader;
use crate::rule_lines::RuleLines;
use crate::stage::Stage;
use sx_lines::Kind;

/// The outline of what is known, if a main line was read. A further line would have this number.
fn finish_whole(
    known: Known,
    main: Option<MainForm>,
    rules: Vec<RuleLines>,
    number: u32,
) -> Result<Outline, OutlineError>
    requires { (view.known known).uses ≡ [] }
    ensures { (s : State) → IsWhole s.stage → s.declared ≡ view.known known →
        IsMainRead (view.known known) main s.declared.mains
        → map rule_data rules.items ≡ s.rules → IsEndRead s number result }
{
    match main {
        Some(main) => {
            let (parts, vars, forms) = known.into_parts();
            Ok(Outline {
                parts,
                vars,
                forms,
                main,
                rules,
            })
        }
        None => {
            drop(known);
            drop(rules);
            Err(bad_line(number, Kind::Main))
        }
    }
}

/// What comes of a reader where no line is left. A further line would have this number.
pub(crate) fn finish(known: Known, reader: Reader, number: u32) -> Result<Outline, OutlineError>
    requires { (view.known known).uses ≡ [] }
    ensures { (s : State) → IsOutlineReader (view.known known) reader s →
        (IsWhole s.stage → s.declared ≡ view.known known) → IsEndRead s number result }
{
    let Reader {
        stage,
        forms: _,
        vars: _,
        main,
        read,
    } = reader;
    let ReadLines { plains, rules } = read;
    drop(plains);
    match open_line(&stage) {
        Some(first) => {
            drop(known);
            drop(rules);
            drop(stage);
            Err(bad_line(first, Kind::Unfinished))
        }
        None => match stage {
            Stage::Start => {
                drop(known);
                drop(rules);
                Err(bad_line(number, Kind::Head))
            }
            _ => {
                drop(stage);
                finish_whole(known, main, rules, number)
            }
        },
    }
}
