//! Texts: byte lists that are always UTF-8.

ghost use Rattle.std.specs.Prelude.{◌≡◌, ℕ, ◌<◌, ◌↔◌, IsTrue, IfOk};
ghost use Rattle.std.specs.Str.{IsUtf8};
ghost use Rattle.sx_term.specs.Text.{IsTextMade};

use crate::no_memory::NoMemory;
use crate::text_error::TextError;
use std::alloc::{AllocError, Global};
use std::hash::{Hash, Hasher};
use std::marker::Model;

/// A byte list that is always UTF-8. Texts are compared by their bytes, without normalisation.
#[derive(Debug, Drop)]
pub struct Text {
    string: String,
}

impl Model for Text {
    ghost use Rattle.std.specs.Prelude.{List, ℕ, string_bytes};

    ghost Value = { List ℕ };

    ghost view = { λ t. string_bytes t.string };
}

impl PartialEq for Text {
    ghost use Rattle.std.specs.Str.{bytes_eq};
    ghost use Rattle.std.specs.Cmp.{partial_equiv_from_equiv};
    ghost use Rattle.std.specs.Cmp.Lexicographic.{nat_list_eq_equiv};

    ghost eq = { bytes_eq };

    ghost laws = { partial_equiv_from_equiv nat_list_eq_equiv };

    fn eq(&self, other: &Self) -> bool {
        self.as_str() == other.as_str()
    }
}

impl Eq for Text {
    ghost use Rattle.std.specs.Cmp.Lexicographic.{nat_list_eq_equiv};

    ghost laws = { nat_list_eq_equiv };
}

impl Hash for Text {
    ghost use Rattle.std.specs.Hash as fed;
    ghost use Rattle.std.proofs.Common.{ap};
    ghost use Rattle.std.proofs.lemmas.Slice.Eq.{bytes_eq-Decides};

    ghost hash_input = { fed.str };

    ghost respects_eq = { λ x y same. ap fed.str ((bytes_eq-Decides x y).0 same) };

    fn hash<H: Hasher>(&self, state: &mut H) {
        self.as_str().hash(state);
    }
}

impl Text {
    /// The text with these bytes, or NotUtf8 exactly where they are not UTF-8.
    pub fn make(alloc: Global, bytes: &[u8]) -> Result<Text, TextError>
        ensures { IsTextMade bytes.now result }
    {
        match str::from_utf8(bytes) {
            Ok(s) => Ok(Text {
                string: String::from_str(alloc, s)?,
            }),
            Err(e) => Err(TextError::NotUtf8(e.valid_up_to())),
        }
    }

    /// The text with these bytes, which are UTF-8.
    pub fn of_utf8(alloc: Global, bytes: &[u8]) -> Result<Text, NoMemory>
        requires { IsUtf8 bytes.now }
        ensures { IfOk result (λ t. t ≡ bytes.now) }
    {
        match Text::make(alloc, bytes) {
            Ok(text) => Ok(text),
            Err(TextError::Memory) => Err(NoMemory::Memory),
            Err(TextError::NotUtf8(_)) => unreachable!(),
        }
    }

    /// The text of these characters.
    pub fn of_str(alloc: Global, characters: &str) -> Result<Text, NoMemory>
        ensures { IfOk result (λ t. t ≡ characters.now) }
    {
        Ok(Text {
            string: String::from_str(alloc, characters)?,
        })
    }

    /// The bytes of the text, which are UTF-8.
    pub fn bytes(&self) -> &[u8]
        ensures value { result.now ≡ self.now }
        ensures utf8 { IsUtf8 result.now }
    {
        self.string.as_str().as_bytes()
    }

    /// The same bytes as a `str`.
    pub fn as_str(&self) -> &str
        ensures { result.now ≡ self.now }
    {
        self.string.as_str()
    }

    /// An equal text. The one refusal is out of memory.
    pub fn copy(&self, alloc: Global) -> Result<Text, NoMemory>
        ensures { IfOk result (λ t. t ≡ self.now) }
    {
        Ok(Text {
            string: String::from_str(alloc, self.string.as_str())?,
        })
    }

    /// Whether the bytes are equal.
    pub fn same(&self, other: &Text) -> bool
        ensures { IsTrue result ↔ (self.now ≡ other.now) }
    {
        self.bytes() == other.bytes()
    }
}

/// Equal texts. The one refusal is out of memory.
pub fn copy_texts(alloc: Global, texts: &[Text]) -> Result<Vec<Text>, NoMemory>
    ensures { IfOk result (λ copies. copies.items ≡ texts.now) }
{
    let mut copies = Vec::with_capacity(alloc, texts.len())?;
    for text in texts {
        copies.push(text.copy(alloc)?)?;
    }
    Ok(copies)
}
