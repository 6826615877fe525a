//! The lines of a core file before its rules.

use sx_term::{Role, Text};

/// A sort's name, and whether it is typed.
#[derive(Drop)]
pub(crate) struct SortRow {
    pub name: Text,
    pub typed: bool,
}

/// A constructor's name, the name of its sort and those of its parts' sorts.
#[derive(Drop)]
pub(crate) struct ConRow {
    pub name: Text,
    pub sort: Text,
    pub kids: Vec<Text>,
}

/// A place of a form: its role and the name of its sort.
#[derive(Drop)]
pub(crate) struct PlaceRow {
    pub role: Role,
    pub sort: Text,
}

/// A form's name and its places.
#[derive(Drop)]
pub(crate) struct FormRow {
    pub name: Text,
    pub places: Vec<PlaceRow>,
}
