//! Parts of grammars, made of the words in them.

ghost use Rattle.std.specs.Prelude.{◌≡◌, ◌≤◌, IfOk};
ghost use Rattle.sx_term.specs.Tree.{depth_of};
ghost use Rattle.sx_term.specs.Term.{tree};

use std::alloc::{AllocError, AllocFailed, Global};
use sx_grammar::{GrammarParts, Production, SortLine, Symbol};
use sx_term::{LexKind, NoMemory, Term, Text, read_core};

/// What is wanted could not be made: its conditions are not met, or memory is lacking.
#[derive(Drop)]
pub(crate) struct Unmade;

impl From<AllocError> for Unmade {
    fn from(_: AllocError) -> Unmade {
        Unmade
    }
}

impl<T: Drop> From<AllocFailed<T>> for Unmade {
    fn from(_: AllocFailed<T>) -> Unmade {
        Unmade
    }
}

impl From<NoMemory> for Unmade {
    fn from(_: NoMemory) -> Unmade {
        Unmade
    }
}

/// A symbol of a production, by the word in it.
#[derive(Clone, Copy)]
pub(crate) enum Piece<'a> {
    Lit(&'a str),
    Lex(LexKind),
    Part(&'a str, u8),
}

pub(crate) fn text(alloc: Global, word: &str) -> Result<Text, Unmade>
    ensures { IfOk result (λ t. t ≡ word.now) }
{
    match Text::make(alloc, word.as_bytes()) {
        Ok(text) => Ok(text),
        Err(_) => Err(Unmade),
    }
}

fn symbol(alloc: Global, piece: Piece) -> Result<Symbol, Unmade> {
    match piece {
        Piece::Lit(word) => Ok(Symbol::Lit(text(alloc, word)?)),
        Piece::Lex(kind) => Ok(Symbol::Lex(kind)),
        Piece::Part(sort, least) => Ok(Symbol::Part {
            sort: text(alloc, sort)?,
            least,
        }),
    }
}

fn symbols(alloc: Global, pieces: &[Piece]) -> Result<Vec<Symbol>, Unmade> {
    let mut all = Vec::new(alloc);
    for piece in pieces {
        all.push(symbol(alloc, *piece)?)?;
    }
    Ok(all)
}

/// No sorts and no productions.
pub(crate) fn nothing(alloc: Global) -> GrammarParts {
    GrammarParts {
        sorts: Vec::new(alloc),
        productions: Vec::new(alloc),
    }
}

/// Adds a production.
pub(crate) fn add(
    alloc: Global,
    parts: &mut GrammarParts,
    label: &str,
    sort: &str,
    level: u8,
    pieces: &[Piece],
) -> Result<(), Unmade> {
    let production = Production {
        label: text(alloc, label)?,
        sort: text(alloc, sort)?,
        level,
        symbols: symbols(alloc, pieces)?,
    };
    parts.productions.push(production)?;
    Ok(())
}

fn round_brackets(alloc: Global) -> Result<(Text, Text), Unmade> {
    Ok((text(alloc, "(")?, text(alloc, ")")?))
}

/// Adds a sort with the brackets `(` and `)`.
pub(crate) fn add_sort(
    alloc: Global,
    parts: &mut GrammarParts,
    name: &str,
    typed: bool,
) -> Result<(), Unmade> {
    let line = SortLine {
        name: text(alloc, name)?,
        typed,
        brackets: Some(round_brackets(alloc)?),
    };
    parts.sorts.push(line)?;
    Ok(())
}

/// Adds a sort without brackets.
pub(crate) fn add_bare_sort(
    alloc: Global,
    parts: &mut GrammarParts,
    name: &str,
    typed: bool,
) -> Result<(), Unmade> {
    let line = SortLine {
        name: text(alloc, name)?,
        typed,
        brackets: None,
    };
    parts.sorts.push(line)?;
    Ok(())
}

/// The term of a core text.
pub(crate) fn term(alloc: Global, core: &str) -> Result<Term, Unmade>
    ensures { IfOk result (λ t. depth_of (tree t) ≤ 1000) }
{
    match read_core(alloc, core.as_bytes(), 0) {
        Ok((term, _)) => Ok(term),
        Err(_) => Err(Unmade),
    }
}

/// Puts the part behind the bytes so many times.
fn put_many(bytes: &mut Vec<u8>, part: &[u8], count: usize) -> Result<(), AllocError> {
    for _place in 0..count {
        bytes.extend_from_slice(part)?;
    }
    Ok(())
}

fn put_nested(
    bytes: &mut Vec<u8>,
    front: &[u8],
    count: usize,
    middle: &[u8],
    end: &[u8],
) -> Result<(), AllocError> {
    put_many(bytes, front, count)?;
    bytes.extend_from_slice(middle)?;
    put_many(bytes, end, count)
}

/// So many fronts, the middle and as many ends; less where memory is lacking.
pub(crate) fn nested(
    alloc: Global,
    front: &[u8],
    count: usize,
    middle: &[u8],
    end: &[u8],
) -> Vec<u8> {
    let mut bytes = Vec::new(alloc);
    let _memory = put_nested(&mut bytes, front, count, middle, end).is_ok();
    bytes
}

/// Whether these are the words, where there are any.
pub(crate) fn are_words(found: Result<String, Unmade>, wanted: &str) -> bool {
    match found {
        Ok(words) => {
            let are = words.as_str() == wanted;
            drop(words);
            are
        }
        Err(_) => false,
    }
}

/// Whether these are the bytes, where there are any.
pub(crate) fn are_bytes(found: Result<Vec<u8>, Unmade>, wanted: &[u8]) -> bool {
    match found {
        Ok(bytes) => {
            let are = bytes.as_slice() == wanted;
            drop(bytes);
            are
        }
        Err(_) => false,
    }
}
