//! The sizes that an accepted set keeps.

ghost use Rattle.std.specs.Prelude.{◌≡◌, MatchOption, IfSome, None};
ghost use Rattle.sx_rewrite.specs.Stored.{stored_at, certificate_at};
ghost use Rattle.sx_rewrite.specs.Needed.{needed};
ghost use Rattle.sx_rewrite.specs.AcceptedView.{accepted};
ghost use Rattle.sx_rewrite.specs.Sizes.{IsSizeIn, IsSmallCertificate, UsesPremises};

use crate::accepted::Accepted;
use crate::certificate_size::CertificateSize;
use crate::sizing::use_at;

impl Accepted {
    /// The size of the rule's certificate, or None exactly where the number is not of an
    /// extension rule. A certificate uses the givens of its rule's premises alone.
    pub fn certificate_size(&self, rule: u32) -> Option<&CertificateSize>
        ensures value { MatchOption result (stored_at (accepted self.now) rule ≡ None)
            (λ size. IsSizeIn (stored_at (accepted self.now) rule) size.now) }
        ensures small { IfSome result (λ size. IsSmallCertificate size.now) }
        ensures only { UsesPremises (stored_at (accepted self.now) rule) }
    {
        self.facts();
        if rule < self.first {
            return None;
        }
        let place = (rule - self.first) as usize;
        if place < self.sizes.len() {
            return Some(&self.sizes[place]);
        }
        None
    }

    /// Whether a node by the rule needs its kid with this number: a base rule needs
    /// all, an extension rule those whose givens its certificate uses.
    pub fn is_needed(&self, rule: u32, kid: usize) -> bool
        ensures { result ≡ needed (certificate_at (accepted self.now) rule) kid }
    {
        match self.certificate_size(rule) {
            Some(size) => kid < size.uses.len() && use_at(&size.uses, kid).times > 0,
            None => true,
        }
    }
}
