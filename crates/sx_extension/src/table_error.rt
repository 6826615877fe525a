//! Why an extension has no plain table.

use sx_plain::PlainError;
use sx_term::NoMemory;

/// Why an extension has no plain table.
#[derive(Drop)]
pub(crate) enum TableError {
    /// Memory is lacking.
    Memory,
    /// The plain body with this number, counted from 0, is refused.
    Plain(usize, PlainError),
    /// The plain production with this label has no plain body.
    NoPlain(u32),
}

impl From<NoMemory> for TableError {
    ghost use Rattle.std.specs.Prelude.{◌≡◌};
    ghost use Rattle.sx_extension.specs.declared.table_error.TableError.TheVariants.{Memory};

    ghost from_gives = { λ _ e. e ≡ Memory };

    fn from(_e: NoMemory) -> TableError {
        TableError::Memory
    }
}
