//! The step that compares the header of a base file with the interface beside it.

ghost use Rattle.std.specs.Prelude.{◌≡◌, ◌≤◌, IfOk, IfSome, IfNone, length, map};
ghost use Rattle.sx_interface.specs.HeaderView.{header_view};
ghost use Rattle.sx_interface.specs.InterfaceView.{interface_view, mark_view};
ghost use Rattle.sx_steps.specs.Stop.{Gives, IsNoFault};
ghost use Rattle.sx_headers.specs.ReadModule.{module_of};
ghost use Rattle.sx_verify.specs.BaseFits.{mark_names, IsOtherName, IsFirstNumber, IsBaseOf};
ghost use Rattle.sx_verify.specs.BaseFits.{IsMisfit};
ghost use Rattle.sx_verify.specs.BaseFits.{FitsBeside};
ghost use Rattle.sx_term.specs.Limits.{most_bytes};

use std::alloc::Global;
use sx_headers::{ModuleFile, bad_line_of_header, row_line};
use sx_interface::{ImportMark, Interface};
use sx_steps::StepError;
use sx_term::Text;

/// The row of the language.
const LANGUAGE_ROW: usize = 1;

/// The first row of names.
const NAMES_ROW: usize = 2;

/// The number of the first of the names that is not the one of these imports at its place, or that
/// of the first import that is missing.
fn first_other(names: &[Text], marks: &[ImportMark]) -> Option<usize>
    ensures other { IfSome result
        (IsFirstNumber (IsOtherName names.now (mark_names (map mark_view marks.now)))) }
    ensures same { IfNone result (names.now ≡ mark_names (map mark_view marks.now)) }
{
    for i in 0..names.len() {
        let name = &names[i];
        match marks.get(i) {
            Some(mark) => {
                if !name.same(&mark.name) {
                    return Some(i);
                }
            }
            None => return Some(i),
        }
    }
    if names.len() < marks.len() {
        return Some(names.len());
    }
    None
}

/// The number of the first row of the header that does not fit the interface.
fn first_misfit(interface: &Interface, base: &ModuleFile) -> Option<usize>
    ensures misfit { IfSome result (IsFirstNumber (IsMisfit (interface_view interface.now)
        (header_view base.now.bytes.items base.now.header))) }
    ensures fits { IfNone result (IsBaseOf (interface_view interface.now)
        (header_view base.now.bytes.items base.now.header)) }
{
    let header = &base.header;
    if !header.language.same(&interface.language) {
        return Some(LANGUAGE_ROW);
    }
    if !header.uses.is_empty() {
        return Some(NAMES_ROW);
    }
    match first_other(&header.imports, &interface.imports) {
        Some(number) => Some(NAMES_ROW + number),
        None => None,
    }
}

/// The header of the base file fits the interface. The first row that does not is refused, at its
/// line.
pub(crate) fn fit_beside(
    alloc: Global,
    file: &Text,
    interface: &Interface,
    base: &ModuleFile,
) -> Result<(), StepError>
    requires { length base.now.bytes.items ≤ most_bytes }
    ensures step { Gives (λ done. done)
        (FitsBeside file.now (interface_view interface.now) (module_of base.now)) result }
    ensures fits { IfOk result
        (λ _. IsBaseOf (interface_view interface.now) (module_of base.now).header) }
    ensures no_fault { IsNoFault result }
{
    match first_misfit(interface, base) {
        None => Ok(()),
        Some(row) => match bad_line_of_header(alloc, file, row_line(&base.bytes, row)) {
            Ok(stop) => Err(StepError::Stopped(stop)),
            Err(_) => Err(StepError::Memory),
        },
    }
}
