//! Digests and their digits.

ghost use Rattle.std.specs.Prelude.{◌≡◌, ◌≢◌, ℕ, ◌++◌, List, length, option_map, OnOk, OnErr};
ghost use Rattle.std.specs.Prelude.{IfSome, IfNone};
ghost use Rattle.hex.specs.Hex.{encode_lower, IsBytes};
ghost use Rattle.sx_interface.specs.Digests.{digest_of};

use std::alloc::Global;
use sx_term::NoMemory;

/// The SHA-256 digest of some bytes.
#[derive(Clone, Copy, Debug, PartialEq, Eq)]
pub struct Digest {
    /// The 32 bytes, the first one first.
    pub bytes: [u8; 32],
}

/// The 64 lower-case digits of the digest.
fn digits(digest: &Digest) -> [u8; 64]
    ensures { result ≡ encode_lower digest.now.bytes }
{
    let mut digits = [0u8; 64];
    let _ = hex::encode_to_slice(digest.bytes.as_slice(), &mut digits);
    digits
}

/// Appends the 64 lower-case hexadecimal digits of the digest. After out of memory `into` is as
/// before.
pub fn write_digest(_alloc: Global, digest: &Digest, into: &mut Vec<u8>) -> Result<(), NoMemory>
    ensures ok { OnOk result (into.new.items ≡ into.old.items ++ encode_lower digest.now.bytes) }
    ensures err { OnErr result (into.new.items ≡ into.old.items) }
{
    into.extend_from_slice(&digits(digest))?;
    Ok(())
}

/// The digest with these digits, or `None` exactly where the text is not 64 lower-case hexadecimal
/// digits.
pub fn read_digest(text: &[u8]) -> Option<Digest>
    ensures value { option_map (λ d. d.bytes) result ≡ digest_of text.now }
    ensures found { IfSome result (λ d. text.now ≡ encode_lower d.bytes) }
    ensures none { IfNone result ((bytes : List ℕ) → length bytes ≡ 32 → IsBytes bytes →
        text.now ≢ encode_lower bytes) }
{
    let mut bytes = [0u8; 32];
    if hex::decode_to_slice(text, &mut bytes).is_err() {
        return None;
    }
    let digest = Digest { bytes };
    if digits(&digest).as_slice() != text {
        return None;
    }
    Some(digest)
}
