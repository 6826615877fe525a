//! Why no environment is made of imports.

use std::alloc::AllocError;
use std::fmt;
use sx_interface::Digest;
use sx_notation::Unread;
use sx_term::{NoMemory, Text};
use sx_token::TokenError;
use thiserror::Error;

/// Why no environment is made of imports. `import` is the number of the import that is refused,
/// from 0. Lines and columns are those of its interface's file, from 1; a column counts bytes.
#[derive(Drop, Error)]
pub enum ImportError {
    /// Memory is lacking.
    #[error("out of memory")]
    Memory,
    /// The import is in another language, of this name.
    #[error("an import in another language")]
    LanguageDiffers {
        import: usize,
        language: Text,
    },
    /// The import keeps another digest of the language's file than that which was found.
    #[error("an import by another file of the language")]
    Differs {
        import: usize,
        kept: Digest,
        found: Digest,
    },
    /// The signature, or the stated signature that is seen, has no tokens: its first defect.
    #[error("a signature without tokens")]
    Token {
        import: usize,
        line: u64,
        column: u64,
        error: TokenError,
    },
    /// The signature, or the stated signature that is seen, has not one reading.
    #[error("a signature without one reading")]
    Read {
        import: usize,
        line: u64,
        column: u64,
        error: Unread,
    },
    /// The plain image of the stated signature that is seen is not the signature: the text of the
    /// signature, and that of the stated one.
    #[error("a stated signature that is another than the signature")]
    StatedDiffers {
        import: usize,
        kept: Text,
        found: Text,
    },
    /// The environment with this import has this depth, over 1,000.
    #[error("an environment is too deep")]
    TooDeep(u32),
}

impl fmt::Debug for ImportError {
    fn fmt<W: fmt::Write>(&self, f: &mut fmt::Formatter<W>) -> fmt::Result {
        fmt::Display::fmt(self, f)
    }
}

impl From<NoMemory> for ImportError {
    ghost use Rattle.std.specs.Prelude.{◌≡◌};
    ghost use Rattle.sx_environment.specs.declared.import_error.ImportError.TheVariants.{Memory};

    ghost from_gives = { λ _ e. e ≡ Memory };

    fn from(_: NoMemory) -> ImportError {
        ImportError::Memory
    }
}

impl From<AllocError> for ImportError {
    ghost use Rattle.std.specs.Prelude.{◌≡◌};
    ghost use Rattle.sx_environment.specs.declared.import_error.ImportError.TheVariants.{Memory};

    ghost from_gives = { λ _ e. e ≡ Memory };

    fn from(_: AllocError) -> ImportError {
        ImportError::Memory
    }
}
