//! Whether the names of a `plain` line are variables of its production's parts.

ghost use Rattle.std.specs.Prelude.{◌↔◌, IsTrue, IfOk};
ghost use Rattle.sx_outline.specs.Fitting.{ArePartNames, IsPlain, IsVariableOf};
ghost use Rattle.sx_lines.specs.Distinct.{AreTextsDistinct};
ghost use Rattle.sx_outline.specs.Fitting.{Kid};
ghost use Rattle.sx_outline.specs.Fitting.{NamesFit, parts_of_symbols, kid_sort};
ghost use Rattle.sx_outline.specs.MainSorts.{IsKid};
ghost use Rattle.sx_outline.specs.View.{known};

use crate::kids::{has_no_kid, is_sort_of, next_kid};
use crate::known::Known;
use crate::places::Places;
use crate::stems::stem_of;
use std::alloc::Global;
use sx_directives::PlainLine;
use sx_grammar::{Production, Symbol};
use sx_term::{NoMemory, Text};

/// Whether no name stands twice.
fn are_distinct(alloc: Global, names: &[Text]) -> Result<bool, NoMemory>
    ensures { IfOk result (λ b. IsTrue b ↔ AreTextsDistinct names.now) }
{
    let mut places = Places::new(alloc);
    for i in 0..names.len() {
        let name = &names[i];
        if places.is_before(i, name) {
            return Ok(false);
        }
        places.push(alloc, name, i)?;
    }
    Ok(true)
}

impl Known {
    /// Whether the name is that of a variable of the part's sort.
    fn name_fits(&self, name: &Text, part: &Symbol) -> bool
        ensures { (kid : Kid) → IsKid part.now kid →
            IsTrue result ↔ IsVariableOf (known self.now) name.now (kid_sort kid) }
    {
        match self.tables.stems.place_of(stem_of(name)) {
            Some(place) => is_sort_of(part, &self.rows.vars[place].sort),
            None => false,
        }
    }

    /// Whether there are as many names as parts, each that of a variable of its part's sort.
    fn names_fit(&self, names: &[Text], symbols: &[Symbol]) -> bool
        ensures { IsTrue result ↔ NamesFit (known self.now) names.now
            (parts_of_symbols symbols.now) }
    {
        let mut rest = symbols;
        for i in 0..names.len() {
            match next_kid(rest) {
                Some((part, more)) => {
                    if !self.name_fits(&names[i], part) {
                        return false;
                    }
                    rest = more;
                }
                None => return false,
            }
        }
        has_no_kid(rest)
    }

    /// Whether the production is of a plain sort, and the names, none of which stands twice, are
    /// variables of its parts' sorts.
    fn parts_fit(
        &self,
        alloc: Global,
        production: &Production,
        plain: &PlainLine,
    ) -> Result<bool, NoMemory>
        ensures { IfOk result (λ b. IsTrue b ↔
            (IsPlain (known self.now) production.now.sort × AreTextsDistinct plain.now.names.items
            × NamesFit (known self.now) plain.now.names.items
            (parts_of_symbols production.now.symbols.items))) }
    {
        if !self.is_plain(&production.sort) {
            return Ok(false);
        }
        if !self.names_fit(&plain.names, &production.symbols) {
            return Ok(false);
        }
        are_distinct(alloc, &plain.names)
    }

    /// Whether the label is that of a production of a plain sort, and the names are those of its
    /// parts.
    pub(crate) fn plain_fits(&self, alloc: Global, plain: &PlainLine) -> Result<bool, NoMemory>
        ensures { IfOk result (λ b. IsTrue b ↔ ArePartNames (known self.now) plain.now.label
            plain.now.names.items) }
    {
        match self.tables.labels.place(&plain.label) {
            Some(place) => self.parts_fit(alloc, &self.rows.productions[place], plain),
            None => Ok(false),
        }
    }
}
