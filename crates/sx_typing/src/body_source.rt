//! What a module's body is read and typed from.

use crate::dialect::Dialect;
use sx_interface::Header;
use sx_term::Term;

/// The dialect, the header and the bytes of the module's file, and the environment.
#[derive(Clone, Copy)]
pub struct BodySource<'a> {
    pub dialect: Dialect<'a>,
    pub header: &'a Header,
    pub bytes: &'a [u8],
    pub environment: &'a Term,
}
