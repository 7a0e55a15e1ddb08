//! Attributes as a certification request has them (RFC 2986, section 4.1).
ghost use Rattle.std.specs.Prelude.{◌≡◌, MatchResult, IsTrue, IfOk};
ghost use Rattle.asn1_der.specs.Octets.{context_0_octet};

use crate::attribute::Attribute;
use crate::attributes::Attributes;
use asn1_der::octets::CONTEXT_0;
use byte_streams::Sink;
use picky_asn1_der::{Asn1DerError, HasDefault, Serialize, Serializer};
use std::alloc::{AllocError, Global};
use x509_spelling::{
    Counted, Deviates, Implies, Many, Spelled, SpelledFields, X509Fault, read_fields,
};

/// The attributes of a certification request. Their order is kept as given. Where a request has no such field, which is a
/// deviation, there are none.
///
/// ```text
/// attributes    [0] Attributes
///
/// Attributes ::= SET OF Attribute
/// ```
#[derive(Debug, Drop, PartialEq, Eq)]
pub struct OpenSslAttributes(pub Attributes);

impl Clone for OpenSslAttributes {
    ghost is_clone = { λ attributes copy. copy ≡ attributes };

    fn clone(&self) -> Result<OpenSslAttributes, AllocError> {
        let attributes = self.0.clone()?;
        Ok(OpenSslAttributes(attributes))
    }
}

impl OpenSslAttributes {
    /// The attributes.
    pub fn as_slice(&self) -> &[Attribute]
        ensures { result.now ≡ self.now.0 }
    {
        self.0.as_slice()
    }
}

impl Serialize for OpenSslAttributes {
    ghost use Rattle.asn1_der.specs.Tagged.{sequence};
    ghost use Rattle.asn1_der.specs.Firsts.{only};
    ghost use Rattle.asn1_der.proofs.Spelling.{may_begin-only};
    ghost use Rattle.asn1_der.proofs.Rows.{many-injective};
    ghost use Rattle.asn1_der.proofs.Tagged.{sequence_laws};

    ghost tree = { λ v. sequence ⟦<Many<Attribute> as SpelledFields>⟧.row_trees context_0_octet v.0 };

    ghost firsts = { only context_0_octet };

    ghost begins = { λ _. may_begin-only context_0_octet };

    ghost injective = { λ v w whole also e.
        let laws = sequence_laws ⟦<Many<Attribute> as SpelledFields>⟧.row_trees (many-injective _ ⟦<Attribute as Serialize>⟧.tree ⟦<Attribute as Serialize>⟧.injective) in
        let same = laws.injective context_0_octet v.0 w.0 whole also e
        in λ i. record { 0 = same i } };

    fn serialize<W: Sink>(&self, to: &mut Serializer<W>) -> Result<usize, Asn1DerError> {
        let items = self.as_slice();
        to.list(CONTEXT_0, &items)
    }
}

impl Spelled for OpenSslAttributes {
    ghost use Rattle.std.proofs.Common.{refl, true};
    ghost use Rattle.asn1_der.specs.Tagged.{sequence};
    ghost use Rattle.asn1_der.specs.Firsts.{only};
    ghost use Rattle.x509_spelling.specs.Spellings.{Holds};
    ghost use Rattle.x509_spelling.specs.RowLaws.{struct_laws};

    ghost spells = { λ v. Holds context_0_octet ⟦<Many<Attribute> as SpelledFields>⟧.spells v.0 };

    ghost written = { λ v. sequence ⟦<Many<Attribute> as SpelledFields>⟧.row_trees context_0_octet v.0 };

    ghost begun = { only context_0_octet };

    ghost has_low_tags = { true };

    ghost laws = { struct_laws context_0_octet refl ⟦<Many<Attribute> as SpelledFields>⟧.row_firsts ⟦<Many<Attribute> as SpelledFields>⟧.row_trees
        ⟦<Many<Attribute> as SpelledFields>⟧.spells (⟦<Many<Attribute> as SpelledFields>⟧.row_laws (refl {a = true}))
        (λ v. v.0) (λ v w e. λ i. record { 0 = e i }) };

    fn may_begin_with(first: u8) -> bool {
        first == CONTEXT_0
    }

    fn read_counted(alloc: Global, bytes: &[u8]) -> Result<Counted<Self>, X509Fault> {
        let read: Counted<Many<Attribute>> = read_fields(alloc, CONTEXT_0, bytes)?;
        let count = read.count;
        let attributes = Attributes::from(read.into_value().into_vec());
        let value = OpenSslAttributes(attributes);
        Ok(Counted { value, count })
    }

    ghost written_is = { refl };
}

impl HasDefault for OpenSslAttributes {
    ghost use Rattle.std.proofs.Common.{ap};
    ghost use Rattle.std.specs.Prelude.{length, ◌==◌};
    ghost use Rattle.x509_certificates.specs.NoAttributes.{one_empty};

    ghost is_default_value = { λ attributes. length attributes.0 == 0 };

    ghost one_default = { λ v w left right.
        let same = one_empty v.0 w.0 left right
        in λ i. record { 0 = same i } };

    fn is_default(&self) -> bool {
        self.as_slice().is_empty()
    }

    fn default_value(alloc: Global) -> Result<Self, AllocError> {
        let none = Vec::new(alloc);
        Ok(OpenSslAttributes(Attributes::from(none)))
    }

    ghost kept = { λ v w e. ap (λ attributes. length attributes.0 == 0) e };
}

impl Deviates for OpenSslAttributes {
    ghost use Rattle.x509_spelling.specs.Deviations.{attributes_missing};

    ghost deviation = { attributes_missing };
}

impl Implies for OpenSslAttributes {
    ghost use Rattle.x509_certificates.specs.NoAttributes.{empty_whole};

    ghost default_is_whole = { λ attributes none. empty_whole ⟦<Attribute as Spelled>⟧.written context_0_octet attributes.0 none };
}
