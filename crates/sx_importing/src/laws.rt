//! What is proved of the steps with the interfaces of imports.

ghost use Rattle.sx_importing.specs.Laws.{EnvironmentsAgree, ImportsAreOne};

use sx_environment::one_environment;

/// Reading the interfaces of imports has one result, read faults aside.
pub fn imports_are_one()
    ensures { ImportsAreOne }
{}

/// Making the environment of imports has one result, out of memory aside. The two readings that a
/// stop shows are free where the text has more than two.
pub fn environments_agree()
    ensures { EnvironmentsAgree }
{
    one_environment();
}
