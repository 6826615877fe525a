//! Laws of interfaces.

ghost use Rattle.sx_interface.specs.Stated.{InterfacesAreWithin};

/// The signatures of an interface that a file states are no longer than the file, and its uses and
/// imports no more than the file has bytes.
pub fn interfaces_are_within()
    ensures { InterfacesAreWithin }
{}
