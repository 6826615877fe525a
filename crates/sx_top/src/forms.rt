//! Names of forms by number.

ghost use Rattle.std.specs.Prelude.{◌≡◌};
ghost use Rattle.std.specs.Str.{IsUtf8};
ghost use Rattle.sx_rules.specs.Views.{forms};
ghost use Rattle.sx_top.specs.CoreTexts.{form_name};

use sx_rules::Form;

/// The name of the form with this number; empty where there is no such form.
pub fn name_of(all: &[Form], number: u32) -> &[u8]
    ensures value { result.now ≡ form_name (forms all.now) number }
    ensures utf8 { IsUtf8 result.now }
{
    match all.get(number as usize) {
        Some(form) => form.name.bytes(),
        None => &[],
    }
}
