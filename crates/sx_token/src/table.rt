//! The literals, found by their text.

ghost use Rattle.std.specs.Prelude.{◌≡◌, ℕ, ◌<◌, ◌≤◌, ◌^◌, List, ◌∷◌, length, take};
ghost use Rattle.std.specs.Prelude.{drop, Some, slice_get, slice_index, Contains, IfOk, IfNone};
ghost use Rattle.std.specs.Prelude.{IfSome, IsTrue, IsFalse};
ghost use Rattle.std.specs.Str.{IsCharBoundary};
ghost use Rattle.sx_term.specs.Cutting.{is_symbol, AreSymbols};
ghost use Rattle.sx_token.specs.Table.{IsLiteralTable};
ghost use Rattle.sx_token.specs.Symbol.{NoneLonger};

use std::alloc::Global;
use std::collections::{HashMap, HashSet};
use sx_term::runs::is_symbol;
use sx_term::{NoMemory, Text};

/// The literals with a map from each to its place, the lengths that they have, and for each first
/// byte the length of the longest.
#[derive(Drop)]
pub(crate) struct Table<'a> {
    pub literals: &'a [Text],
    pub places: HashMap<&'a str, u32>,
    pub lengths: HashSet<usize>,
    pub longest: [usize; 128],
}

/// Makes the length known to the place of the first byte.
fn note_length(longest: &mut [usize; 128], bytes: &[u8])
    ensures grows { (k : ℕ) → slice_index longest.old k ≤ slice_index longest.new k }
    ensures covers { (first : ℕ) (others : List ℕ) → bytes.now ≡ first ∷ others → first < 128 →
        length bytes.now ≤ slice_index longest.new first }
{
    if !bytes.is_empty() && bytes[0] < 128 {
        let first = bytes[0] as usize;
        longest[first] = longest[first].max(bytes.len());
    }
}

/// The table of the literals.
pub(crate) fn make_table<'a>(alloc: Global, literals: &'a [Text]) -> Result<Table<'a>, NoMemory>
    requires { length literals.now < 2 ^ 32 }
    ensures literals { IfOk result (λ t. t.literals.now ≡ literals.now) }
    ensures table { IfOk result (λ t. IsLiteralTable literals.now t) }
{
    let mut places = HashMap::new(alloc);
    let mut lengths = HashSet::new(alloc);
    let mut longest = [0usize; 128];
    for (i, literal) in literals.iter().enumerate() {
        let text = literal.as_str();
        let bytes = text.as_bytes();
        note_length(&mut longest, bytes);
        match lengths.insert(bytes.len()) {
            Ok(_) => {}
            Err(e) => {
                drop(lengths);
                drop(places);
                return Err(e.into());
            }
        }
        match places.insert(text, i as u32) {
            Ok(_) => {}
            Err(e) => {
                drop(lengths);
                drop(places);
                return Err(e.into());
            }
        }
    }
    Ok(Table {
        literals,
        places,
        lengths,
        longest,
    })
}

/// The place of the literal with this text.
pub(crate) fn place_of(table: &Table, text: &str) -> Option<u32>
    requires { IsLiteralTable table.now.literals.now table.now }
    ensures found { IfSome result (λ i. slice_get table.now.literals.now i ≡ Some text.now) }
    ensures none { IfNone result (¬ (Contains table.now.literals.now text.now)) }
{
    table.places.get(text).copied()
}

/// The place of the literal that is the first `len` bytes of the text.
fn place_of_front(table: &Table, text: &str, len: usize) -> Option<u32>
    requires table { IsLiteralTable table.now.literals.now table.now }
    requires boundary { IsCharBoundary text.now len }
    ensures found { IfSome result (λ i. slice_get table.now.literals.now i
        ≡ Some (take len text.now)) }
    ensures none { IfNone result (¬ (Contains table.now.literals.now (take len text.now))) }
{
    if !table.lengths.contains(&len) {
        return None;
    }
    let (front, _) = text.split_at(len);
    place_of(table, front)
}

/// A literal that was found: its place among the literals, and how many bytes it has.
#[derive(Clone, Copy)]
pub(crate) struct Found {
    pub place: u32,
    pub len: usize,
}

/// How many symbol characters stand at the front of the text, of which at most `most` are counted.
fn symbol_run(text: &str, most: usize) -> usize
    ensures bound { result ≤ length text.now }
    ensures symbols { (k : ℕ) → k < result → IsTrue (is_symbol (slice_index text.now k)) }
    ensures stops { result < most → result < length text.now →
        IsFalse (is_symbol (slice_index text.now result)) }
{
    let bytes = text.as_bytes();
    let mut n = 0;
    while n < most && n < bytes.len() && is_symbol(char::from(bytes[n])) {
        n += 1;
    }
    n
}

/// The longest literal made of symbol characters at the front of the text.
pub(crate) fn symbol_at(table: &Table, text: &str) -> Option<Found>
    requires table { IsLiteralTable table.now.literals.now table.now }
    requires symbol { IsTrue (is_symbol (slice_index text.now 0)) }
    ensures found { IfSome result (λ f. slice_get table.now.literals.now f.place
        ≡ Some (take f.len text.now)) }
    ensures symbols { IfSome result (λ f. AreSymbols (take f.len text.now)) }
    ensures longest { IfSome result (λ f. NoneLonger table.now.literals.now text.now f.len) }
    ensures boundary { IfSome result (λ f. IsCharBoundary text.now f.len) }
    ensures none { IfNone result (NoneLonger table.now.literals.now text.now 0) }
{
    let first = text.as_bytes()[0] as usize;
    let run = symbol_run(text, table.longest[first]);
    let mut len = run;
    while len > 0 {
        if let Some(place) = place_of_front(table, text, len) {
            return Some(Found { place, len });
        }
        len -= 1;
    }
    None
}
