//! Laws of printing.

ghost use Rattle.sx_print.specs.Sorted.{SortedTermsFit, SortedTermsArePrintable};

/// A term that is well sorted by the shapes of a grammar fits the grammar, and can be printed at
/// level 0.
pub fn sorted_terms_fit()
    ensures fit { SortedTermsFit }
    ensures printable { SortedTermsArePrintable }
{}
