//! What is stored of extension rules, with the sizes of their certificates.

ghost use Rattle.std.specs.Prelude.{◌≡◌, ◌++◌, MatchResult, is_ok, if◌then◌else◌};

use crate::certificate_size::CertificateSize;
use crate::flat::Flat;
use sx_term::NoMemory;

/// What is stored of extension rules, and the size of the certificate of each.
#[derive(Drop)]
pub(crate) struct Certificates {
    pub flats: Vec<Flat>,
    pub sizes: Vec<CertificateSize>,
}

impl Certificates {
    /// What is stored, and then more. The one refusal is out of memory,
    /// and hands back what is stored.
    pub(crate) fn appended(self, more: Certificates) -> Result<Certificates, Certificates>
        ensures flats { MatchResult result
            (λ all. all.flats.items ≡ self.flats.items ++ more.flats.items)
            (λ all. all.flats.items ≡ self.flats.items) }
        ensures sizes { MatchResult result
            (λ all. all.sizes.items ≡ self.sizes.items ++ more.sizes.items)
            (λ all. all.sizes.items ≡ self.sizes.items) }
    {
        let Certificates { flats, sizes } = self;
        let mut flats = flats;
        let mut sizes = sizes;
        let mut more = more;
        let is_done = append(&mut flats, &mut sizes, &mut more).is_ok();
        drop(more);
        if is_done {
            Ok(Certificates { flats, sizes })
        } else {
            Err(Certificates { flats, sizes })
        }
    }
}

/// Appends what is stored. The one refusal is out of memory, and then nothing is appended.
fn append(
    flats: &mut Vec<Flat>,
    sizes: &mut Vec<CertificateSize>,
    more: &mut Certificates,
) -> Result<(), NoMemory>
    ensures flats { flats.new.items
        ≡ (if is_ok result then flats.old.items ++ more.old.flats.items else flats.old.items) }
    ensures sizes { sizes.new.items
        ≡ (if is_ok result then sizes.old.items ++ more.old.sizes.items else sizes.old.items) }
{
    let count = sizes.len();
    sizes.append(&mut more.sizes)?;
    match flats.append(&mut more.flats) {
        Ok(()) => Ok(()),
        Err(_) => {
            sizes.truncate(count);
            Err(NoMemory::Memory)
        }
    }
}
