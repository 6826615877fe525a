//! Main forms.

/// The form by which modules are typed, and the labels of the constructors of their environments:
/// the empty one, and the one that adds a name and what it stands for.
#[derive(Clone, Copy, PartialEq, Eq, Debug)]
pub struct MainForm {
    pub form: u32,
    pub empty: u32,
    pub add: u32,
}
