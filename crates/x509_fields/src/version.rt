//! Versions of certificates (RFC 5280, section 4.1.2.1).
ghost use Rattle.std.specs.Prelude.{◌≡◌, ℕ, IfOk, IsTrue, MatchOption};
ghost use Rattle.asn1_der.specs.Octets.{integer_octet};

use asn1_der::octets::INTEGER;
use byte_streams::Sink;
use picky_asn1_der::{Asn1DerError, HasDefault, Leaf, Rule, Serializer};
use std::alloc::{AllocError, Global};
use x509_spelling::{Deviates, Exact};

/// A certificate's version.
///
/// ```text
/// Version ::= INTEGER { v1(0), v2(1), v3(2) }
/// ```
#[derive(Clone, Copy, Debug, PartialEq, Eq)]
pub enum Version {
    /// v1, the default.
    V1,
    /// v2.
    V2,
    /// v3.
    V3,
}

impl Version {
    ghost use Rattle.x509_fields.specs.Versions.{version_number};

    /// The version that has this number.
    pub fn from_u8(number: u8) -> Option<Version>
        ensures { MatchOption result
            ((version : Version) → version_number version ≡ number → ⊥)
            (λ version. version_number version ≡ number) }
    {
        match number {
            0 => Some(Version::V1),
            1 => Some(Version::V2),
            2 => Some(Version::V3),
            _ => None,
        }
    }

    /// The version's number.
    pub fn number(self) -> u8
        ensures { result ≡ version_number self }
    {
        match self {
            Version::V1 => 0,
            Version::V2 => 1,
            Version::V3 => 2,
        }
    }
}

impl Default for Version {
    ghost use Rattle.x509_fields.specs.declared.version.Version.TheVariants.{V1};

    ghost is_default = { λ version. version ≡ V1 };

    fn default() -> Version {
        Version::V1
    }
}

impl Leaf for Version {
    ghost use Rattle.std.specs.Prelude.{true};
    ghost use Rattle.x509_fields.specs.Versions.{version_content, version_content-injective};

    const OCTET: u8 = INTEGER;

    const RULE: Rule = Rule::Integer;

    ghost OCTET = { integer_octet };

    ghost is_valid = { λ _. true };

    ghost content_of = { version_content };

    ghost one_content = { λ v w _ _ e. version_content-injective v w e };

    fn decode(_alloc: Global, content: &[u8]) -> Result<Option<Self>, AllocError> {
        let [number] = content else {
            return Ok(None);
        };
        Ok(Version::from_u8(*number))
    }

    fn write_content<W: Sink>(
        &self,
        tag: u8,
        to: &mut Serializer<W>,
    ) -> Result<usize, Asn1DerError> {
        to.element(tag, &[self.number()])
    }
}

impl Exact for Version {
    ghost plain = { tt };
}

impl HasDefault for Version {
    ghost use Rattle.std.proofs.Common.{ap};
    ghost use Rattle.std.specs.Prelude.{◌==◌};
    ghost use Rattle.x509_fields.specs.Versions.{version_number, one_version_1};

    ghost is_default_value = { λ version. version_number version == 0 };

    ghost one_default = { one_version_1 };

    fn is_default(&self) -> bool {
        self.number() == 0
    }

    fn default_value(_alloc: Global) -> Result<Self, AllocError> {
        Ok(Version::default())
    }

    ghost kept = { λ v w e. ap (λ version. version_number version == 0) e };
}

impl Deviates for Version {
    ghost use Rattle.x509_spelling.specs.Deviations.{version_1_spelled};

    ghost deviation = { version_1_spelled };
}
