//! Laws of units.

ghost use Rattle.sx_unit.specs.Alike.{OneUnit};
ghost use Rattle.sx_unit.specs.Refused.{ModuleTypeErrorsAreFinal};
ghost use Rattle.sx_unit.specs.Unit.{UnitsAreMade};

/// What a walk finds is the first derivation, so what is made is the unit of the module.
pub fn units_are_made()
    ensures { UnitsAreMade }
{}

/// A type error comes only where the module's main goal has no derivation at all.
pub fn module_type_errors_are_final()
    ensures { ModuleTypeErrorsAreFinal }
{}

/// What compiling answers is determined by what it is compiled from, out of memory aside. Only of a
/// text with more than two readings it is free which two a refusal shows.
pub fn one_unit()
    ensures { OneUnit }
{}
