//! Comparing plain images with terms.

ghost use Rattle.std.specs.Prelude.{◌≡◌, ◌↔◌, ◌<◌, ◌≤◌, IsTrue, map};
ghost use Rattle.sx_term.specs.Instances.{instance, instances, bound_by};
ghost use Rattle.sx_term.specs.Term.{tree};
ghost use Rattle.sx_term.specs.Tree.{depth_of, forest, greatest_depth, listed, node, none};
ghost use Rattle.sx_plain.specs.Plain.{image, images};
ghost use Rattle.sx_plain.specs.Views.{table_of};
ghost use Rattle.sx_term.specs.Limits.{most_depth};

use sx_plain::PlainTable;
use sx_term::Term;

/// Whether the plain image of the term is the other term. No image is made, and none is too deep or
/// too big to be compared.
#[cycle(is_image)]
pub(crate) fn is_image(table: &PlainTable, term: &Term, other: &Term) -> bool
    requires shallow { depth_of (tree term.now) ≤ most_depth }
    requires other { depth_of (tree other.now) ≤ most_depth }
    ensures { IsTrue result ↔ (image (table_of table.now) (tree term.now) ≡ tree other.now) }
{
    match term {
        Term::Node { label, kids } => match table.flat(*label) {
            Some(flat) => is_filled(table, flat, kids, other),
            None => is_node_image(table, *label, kids, other),
        },
        Term::Lex { kind: _, text: _ } => term.same(other),
        Term::Var(_) => term.same(other),
    }
}

/// Whether the term is the node with the plain images of these kids.
#[cycle(is_image)]
fn is_node_image(table: &PlainTable, label: u32, kids: &[Term], other: &Term) -> bool
    requires shallow { greatest_depth (forest (map tree kids.now)) < most_depth }
    requires other { depth_of (tree other.now) ≤ most_depth }
    ensures { IsTrue result ↔
        (node label (images (table_of table.now) (forest (map tree kids.now))) ≡ tree other.now) }
{
    match other {
        Term::Node {
            label: other_label,
            kids: others,
        } => label == *other_label && are_images(table, kids, others),
        Term::Lex { kind: _, text: _ } => false,
        Term::Var(_) => false,
    }
}

/// Whether the others are the plain images of the terms.
#[cycle(is_image)]
fn are_images(table: &PlainTable, terms: &[Term], others: &[Term]) -> bool
    requires shallow { greatest_depth (forest (map tree terms.now)) < most_depth }
    requires others { greatest_depth (forest (map tree others.now)) < most_depth }
    ensures { IsTrue result ↔
        (map (λ t. image (table_of table.now) (tree t)) terms.now ≡ map tree others.now) }
{
    if terms.len() != others.len() {
        return false;
    }
    for i in 0..terms.len() {
        let term = &terms[i];
        let other = &others[i];
        if !is_image(table, term, other) {
            return false;
        }
    }
    true
}

/// Whether the term is the flat body with the plain image of a part in the place of each of its
/// variables.
#[cycle(is_image)]
fn is_filled(table: &PlainTable, flat: &Term, parts: &[Term], other: &Term) -> bool
    requires shallow { depth_of (tree flat.now) ≤ most_depth }
    requires parts { greatest_depth (forest (map tree parts.now)) < most_depth }
    requires other { depth_of (tree other.now) ≤ most_depth }
    ensures { IsTrue result ↔ (instance
        (bound_by (listed (images (table_of table.now) (forest (map tree parts.now)))))
        (tree flat.now) ≡ tree other.now) }
{
    match flat {
        Term::Node { label, kids } => is_filled_node(table, *label, kids, parts, other),
        Term::Lex { kind: _, text: _ } => flat.same(other),
        Term::Var(variable) => {
            let i = *variable as usize;
            if i < parts.len() {
                return is_image(table, &parts[i], other);
            }
            is_bare_node(other)
        }
    }
}

/// Whether the term is the first constructor without kids, which stands for a variable past the
/// parts.
fn is_bare_node(term: &Term) -> bool
    ensures { IsTrue result ↔ (node 0 none ≡ tree term.now) }
{
    match term {
        Term::Node { label, kids } => *label == 0 && kids.as_slice().is_empty(),
        Term::Lex { kind: _, text: _ } => false,
        Term::Var(_) => false,
    }
}

/// Whether the term is the node of a flat body with these kids, in which the plain images of the
/// parts are put.
#[cycle(is_image)]
fn is_filled_node(
    table: &PlainTable,
    label: u32,
    kids: &[Term],
    parts: &[Term],
    other: &Term,
) -> bool
    requires shallow { greatest_depth (forest (map tree kids.now)) < most_depth }
    requires parts { greatest_depth (forest (map tree parts.now)) < most_depth }
    requires other { depth_of (tree other.now) ≤ most_depth }
    ensures { IsTrue result ↔ (node label (instances
        (bound_by (listed (images (table_of table.now) (forest (map tree parts.now)))))
        (forest (map tree kids.now))) ≡ tree other.now) }
{
    match other {
        Term::Node {
            label: other_label,
            kids: others,
        } => label == *other_label && are_filled(table, kids, parts, others),
        Term::Lex { kind: _, text: _ } => false,
        Term::Var(_) => false,
    }
}

/// Whether the others are these terms of a flat body, in which the plain images of the parts are
/// put.
#[cycle(is_image)]
fn are_filled(table: &PlainTable, flats: &[Term], parts: &[Term], others: &[Term]) -> bool
    requires shallow { greatest_depth (forest (map tree flats.now)) < most_depth }
    requires parts { greatest_depth (forest (map tree parts.now)) < most_depth }
    requires others { greatest_depth (forest (map tree others.now)) < most_depth }
    ensures { IsTrue result ↔ (map (λ t. instance
        (bound_by (listed (images (table_of table.now) (forest (map tree parts.now))))) (tree t))
        flats.now ≡ map tree others.now) }
{
    if flats.len() != others.len() {
        return false;
    }
    for i in 0..flats.len() {
        let flat = &flats[i];
        let other = &others[i];
        if !is_filled(table, flat, parts, other) {
            return false;
        }
    }
    true
}
