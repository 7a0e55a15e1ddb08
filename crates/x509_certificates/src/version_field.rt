//! A certificate's version as a field (RFC 5280, section 4.1).
ghost use Rattle.std.specs.Prelude.{◌≡◌, MatchResult, IsTrue, IfOk};

use byte_streams::{Sink, Source};
use picky_asn1::wrapper::ExplicitContextTag0;
use picky_asn1_der::{
    Asn1DerError, Deserialize, Deserializer, ExplicitContextTag, HasDefault, Serialize, Serializer,
};
use std::alloc::{AllocError, Global};
use x509_fields::Version;
use x509_spelling::{Deviates, Exact};

/// A certificate's version under its tag. That v1 is spelled out is a deviation.
///
/// ```text
/// version         [0]  EXPLICIT Version DEFAULT v1
/// ```
#[derive(Drop)]
pub struct VersionField(pub ExplicitContextTag0<Version>);

impl VersionField {
    /// The field that holds the version.
    pub fn new(version: Version) -> VersionField
        ensures { result.0.0 ≡ version }
    {
        VersionField(ExplicitContextTag(version))
    }

    /// The version.
    pub fn version(&self) -> Version
        ensures { result ≡ self.now.0.0 }
    {
        self.0.0
    }
}

impl Serialize for VersionField {
    ghost use Rattle.asn1_der.specs.Refusals.{part_refusal};

    ghost tree = { λ field. ⟦<ExplicitContextTag0<Version> as Serialize>⟧.tree field.0 };

    ghost refusal = { part_refusal (λ field. field.0) ⟦<ExplicitContextTag0<Version> as Serialize>⟧.refusal };

    ghost firsts = { ⟦<ExplicitContextTag0<Version> as Serialize>⟧.firsts };

    ghost begins = { λ field. ⟦<ExplicitContextTag0<Version> as Serialize>⟧.begins field.0 };

    ghost injective = { λ v w whole also e.
        let same = ⟦<ExplicitContextTag0<Version> as Serialize>⟧.injective v.0 w.0 whole also e
        in λ i. record { 0 = same i } };

    fn serialize<W: Sink>(&self, to: &mut Serializer<W>) -> Result<usize, Asn1DerError> {
        self.0.serialize(to)
    }
}

impl Deserialize for VersionField {
    fn may_start(first: u8) -> bool {
        ExplicitContextTag0::<Version>::may_start(first)
    }

    fn deserialize<R: Source>(from: &mut Deserializer<R>) -> Result<Self, Asn1DerError> {
        let field = Deserialize::deserialize(from)?;
        Ok(VersionField(field))
    }
}

impl Exact for VersionField {
    ghost plain = { tt };
}

impl HasDefault for VersionField {
    ghost use Rattle.std.proofs.Common.{ap};
    ghost use Rattle.std.specs.Prelude.{◌==◌};
    ghost use Rattle.x509_fields.specs.Versions.{version_number, one_version_1};

    ghost is_default_value = { λ field. version_number field.0.0 == 0 };

    ghost one_default = { λ v w left right.
        let same = one_version_1 v.0.0 w.0.0 left right
        in λ i. record { 0 = record { 0 = same i } } };

    fn is_default(&self) -> bool {
        self.version().number() == 0
    }

    fn default_value(_alloc: Global) -> Result<Self, AllocError> {
        Ok(VersionField::new(Version::V1))
    }

    ghost kept = { λ v w e. ap (λ field. version_number field.0.0 == 0) e };
}

impl Deviates for VersionField {
    ghost use Rattle.x509_spelling.specs.Deviations.{version_1_spelled};

    ghost deviation = { version_1_spelled };
}
