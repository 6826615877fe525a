//! Shapes of terms: a term's outermost part, and its kids by their numbers.

ghost use Rattle.std.specs.Prelude.{◌≡◌};
ghost use Rattle.sx_arena.specs.Hashed.{mixed, hash_of, is_node_of};

use smallvec::SmallVec;
use sx_slots::mix;
use sx_term::LexKind;

/// The numbers of a node's kids, of which a few stand in the cell itself.
pub type Kids = SmallVec<usize, 3>;

/// A node with the numbers of its kids, a lexeme or a variable.
#[derive(PartialEq, Eq, Drop)]
pub enum Shape {
    Node { label: u32, kids: Kids },
    Lex { kind: LexKind, text: String },
    Var(u32),
}

/// One number of a node's label and the numbers of its kids.
#[inline(always)]
pub(crate) fn node_hash(label: u32, kids: &[usize]) -> u64
    ensures { result ≡ mixed label kids.now }
{
    let mut sum = label as u64;
    for kid in kids {
        sum = mix(sum, *kid as u64);
    }
    sum
}

/// One number of the bytes of a text.
fn text_hash(text: &[u8]) -> u64
    ensures { result ≡ mixed 0 text.now }
{
    let mut sum: u64 = 0;
    for byte in text {
        sum = mix(sum, *byte as u64);
    }
    sum
}

/// One number of a shape.
pub(crate) fn hash(shape: &Shape) -> u64
    ensures { result ≡ hash_of shape.now }
{
    match shape {
        Shape::Node { label, kids } => node_hash(*label, kids.as_slice()),
        Shape::Lex { kind: _, text } => text_hash(text.as_bytes()),
        Shape::Var(variable) => *variable as u64,
    }
}

/// Whether the shape is a node with this label and these kids.
#[inline(always)]
pub(crate) fn is_node(shape: &Shape, label: u32, kids: &[usize]) -> bool
    ensures { result ≡ is_node_of label kids.now shape.now }
{
    match shape {
        Shape::Node {
            label: other,
            kids: others,
        } => label == *other && kids == others.as_slice(),
        _ => false,
    }
}
