//! Laws of environments.

ghost use Rattle.sx_environment.specs.Alike.{OneEnvironment, RowsHaveLines};
ghost use Rattle.sx_environment.specs.BaseEnvironment.{BaseEnvironmentIsImage};

/// Imports have one environment or one refusal, out of memory aside. Only of a text with more than
/// two readings it is free which two a refusal shows.
pub fn one_environment()
    ensures { OneEnvironment }
{}

/// The signature and the stated signature stand in the text of an interface on the lines that
/// refusals tell.
pub fn rows_have_lines()
    ensures { RowsHaveLines }
{}

/// The environment of the same imports by the language alone, without extensions, is the plain
/// image of the environment that is seen by a dialect.
pub fn base_environment_is_image()
    ensures { BaseEnvironmentIsImage }
{}
