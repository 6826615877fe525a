//! Taking digests.

ghost use Rattle.std.specs.Prelude.{◌≡◌};
ghost use Rattle.sha2.specs.Sha256.{sha256};

use crate::marks::Digest;
use sha2::{Digest as Hasher, Sha256};

/// The SHA-256 digest of the bytes, as FIPS 180-4 defines it.
pub fn digest(bytes: &[u8]) -> Digest
    ensures { result.bytes ≡ sha256 bytes.now }
{
    Digest {
        bytes: Sha256::digest(bytes),
    }
}
