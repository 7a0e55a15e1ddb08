//! Attributes (RFC 2986, section 4.1; RFC 5652, section 5.3).
ghost use Rattle.std.specs.Prelude.{◌≡◌, ℕ, List, [], ◌∷◌, true, IsTrue, IfOk, MatchResult};
ghost use Rattle.x509_oids.specs.Identifiers as oids;
ghost use Rattle.x509_certificates.specs.AttributeValues.{is_value_of, kinds_of, id_data};
ghost use Rattle.x509_certificates.specs.declared.attribute_values.AttributeValues.TheVariants as kind;
ghost use Rattle.asn1_der.specs.Octets.{sequence_octet};

use crate::attribute_values::{AttributeKinds, AttributeValues, of_kinds};
use crate::requested_extensions::RequestedExtensions;
use crate::{Extension, Extensions};
use asn1_der::octets::SEQUENCE;
use byte_streams::Sink;
use picky_asn1::LeafFault;
use picky_asn1::oid::ObjectIdentifier;
use picky_asn1::wrapper::{Asn1SetOf, ObjectIdentifierAsn1, OctetStringAsn1};
use picky_asn1_der::{Asn1DerError, Serialize, Serializer};
use std::alloc::{AllocError, Global};
use x509_fields::Time;
use x509_spelling::{Counted, Kinds, Spelled, SpelledItem, X509Fault, read_identified};

/// An attribute: an identifier, and values of the type that it decides.
///
/// ```text
/// Attribute { ATTRIBUTE:IOSet } ::= SEQUENCE {
///      type    ATTRIBUTE.&id({IOSet}),
///      values  SET SIZE(1..MAX) OF ATTRIBUTE.&Type({IOSet}{@type}) }
/// ```
///
/// An empty set is read too.
#[derive(Debug, Drop, PartialEq, Eq)]
pub struct Attribute {
    ty: ObjectIdentifierAsn1,
    value: AttributeValues,
    pub ghost of_its_type: { IsTrue (is_value_of ty.0 value) },
}

impl Clone for Attribute {
    ghost is_clone = { λ attribute copy. copy ≡ attribute };

    fn clone(&self) -> Result<Attribute, AllocError> {
        let ty = self.ty.clone()?;
        let value = self.value.clone()?;
        Ok(Attribute { ty, value })
    }
}

impl Attribute {
    ghost use Rattle.x509_certificates.specs.AttributeMade.{IsMade};

    /// The identifier.
    pub fn ty(&self) -> &ObjectIdentifierAsn1
        ensures { result.now ≡ self.now.ty }
    {
        &self.ty
    }

    /// The values.
    pub fn value(&self) -> &AttributeValues
        ensures { result.now ≡ self.now.value }
    {
        &self.value
    }

    /// The attribute that requests these extensions of a certificate (RFC 2985, section 5.4.2).
    pub fn new_extension_request(
        alloc: Global,
        extensions: Vec<Extension>,
    ) -> Result<Attribute, AllocError>
        ensures { IfOk result (λ made. IsMade oids.extension_req (kind.Extensions (extensions.items ∷ [])) made) }
    {
        let oid = x509_oids::extension_req(alloc)?;
        let lists = vec![in alloc; Extensions::from(extensions)]?;
        Ok(Attribute {
            ty: ObjectIdentifierAsn1(oid),
            value: AttributeValues::Extensions(RequestedExtensions::from(lists)),
        })
    }

    /// The attribute whose value says that the signed content is data (RFC 5652, sections 4 and 11.1).
    pub fn new_content_type_pkcs7(alloc: Global) -> Result<Attribute, AllocError>
        ensures { IfOk result (λ made. IsMade oids.content_type (kind.ContentType (record { 0 = id_data } ∷ [])) made) }
    {
        let oid = x509_oids::content_type(alloc)?;
        let data = data_identifier(alloc)?;
        let types = vec![in alloc; ObjectIdentifierAsn1(data)]?;
        Ok(Attribute {
            ty: ObjectIdentifierAsn1(oid),
            value: AttributeValues::ContentType(Asn1SetOf::from(types)),
        })
    }

    /// The attribute whose value says when the content was signed (RFC 5652, section 11.3).
    pub fn new_signing_time(alloc: Global, time: Time) -> Result<Attribute, AllocError>
        ensures { IfOk result (λ made. IsMade oids.signing_time (kind.SigningTime (time ∷ [])) made) }
    {
        let oid = x509_oids::signing_time(alloc)?;
        let times = vec![in alloc; time]?;
        Ok(Attribute {
            ty: ObjectIdentifierAsn1(oid),
            value: AttributeValues::SigningTime(Asn1SetOf::from(times)),
        })
    }

    /// The attribute whose value is the digest of the signed content (RFC 5652, section 11.2).
    pub fn new_message_digest(
        alloc: Global,
        digest: OctetStringAsn1,
    ) -> Result<Attribute, AllocError>
        ensures { IfOk result (λ made. IsMade oids.message_digest (kind.MessageDigest (digest ∷ [])) made) }
    {
        let oid = x509_oids::message_digest(alloc)?;
        let digests = vec![in alloc; digest]?;
        Ok(Attribute {
            ty: ObjectIdentifierAsn1(oid),
            value: AttributeValues::MessageDigest(Asn1SetOf::from(digests)),
        })
    }
}

// The identifier of contents that are data.
fn data_identifier(alloc: Global) -> Result<ObjectIdentifier, AllocError>
    ensures { IfOk result (λ oid. oid ≡ id_data) }
{
    match ObjectIdentifier::from_arcs(alloc, &[1, 2, 840, 113549, 1, 7, 1]) {
        Ok(oid) => Ok(oid),
        Err(LeafFault::Memory) => Err(AllocError),
        Err(_) => unreachable!(),
    }
}

impl Serialize for Attribute {
    ghost use Rattle.std.proofs.Common.{refl, true};
    ghost use Rattle.asn1_der.specs.Tagged.{sequence};
    ghost use Rattle.asn1_der.specs.Firsts.{only};
    ghost use Rattle.asn1_der.proofs.Spelling.{may_begin-only};
    ghost use Rattle.x509_spelling.specs.HeldLaws.{laws_injective};
    ghost use Rattle.x509_spelling.specs.KindLaws.{identified_laws};
    ghost use Rattle.x509_spelling.specs.Spellings.{Holds, Joins};
    ghost use Rattle.x509_certificates.specs.AttributeLaws.{row_of, same_attribute};

    ghost tree = { λ v. sequence (λ f. ⟦<ObjectIdentifierAsn1 as SpelledItem>⟧.place f.0 (⟦<AttributeKinds as Kinds>⟧.row_trees f.1)) sequence_octet (row_of v) };

    ghost firsts = { only sequence_octet };

    ghost begins = { λ _. may_begin-only sequence_octet };

    ghost injective = { laws_injective true (only sequence_octet) (λ v. sequence (λ f. ⟦<ObjectIdentifierAsn1 as SpelledItem>⟧.place f.0 (⟦<AttributeKinds as Kinds>⟧.row_trees f.1)) sequence_octet (row_of v))
        (λ v. Holds sequence_octet (λ f. Joins ⟦<ObjectIdentifierAsn1 as SpelledItem>⟧.leads ⟦<AttributeKinds as Kinds>⟧.spells f.0 f.1) (row_of v))
        (identified_laws ⟦<ObjectIdentifierAsn1 as SpelledItem>⟧.before ⟦<ObjectIdentifierAsn1 as SpelledItem>⟧.is_told ⟦<ObjectIdentifierAsn1 as SpelledItem>⟧.place
        ⟦<ObjectIdentifierAsn1 as SpelledItem>⟧.leads ⟦<ObjectIdentifierAsn1 as SpelledItem>⟧.field_laws
        ⟦<AttributeKinds as Kinds>⟧.belongs ⟦<AttributeKinds as Kinds>⟧.row_firsts ⟦<AttributeKinds as Kinds>⟧.row_trees ⟦<AttributeKinds as Kinds>⟧.spells
        (⟦<AttributeKinds as Kinds>⟧.kind_laws (refl {a = true})) (refl {a = true}) row_of same_attribute (λ v. v.of_its_type)) };

    fn serialize<W: Sink>(&self, to: &mut Serializer<W>) -> Result<usize, Asn1DerError> {
        let ty = &self.ty;
        match &self.value {
            AttributeValues::Extensions(values) => to.list(SEQUENCE, &(ty, (values, ()))),
            AttributeValues::ContentType(values) => to.list(SEQUENCE, &(ty, (values, ()))),
            AttributeValues::SpcStatementType(values) => to.list(SEQUENCE, &(ty, (values, ()))),
            AttributeValues::MessageDigest(values) => to.list(SEQUENCE, &(ty, (values, ()))),
            AttributeValues::SigningTime(values) => to.list(SEQUENCE, &(ty, (values, ()))),
            AttributeValues::Custom(values) => to.list(SEQUENCE, &(ty, (values, ()))),
        }
    }
}

impl Spelled for Attribute {
    ghost use Rattle.std.proofs.Common.{refl, true};
    ghost use Rattle.asn1_der.specs.Tagged.{sequence};
    ghost use Rattle.asn1_der.specs.Firsts.{only};
    ghost use Rattle.x509_spelling.specs.KindLaws.{identified_laws};
    ghost use Rattle.x509_spelling.specs.Spellings.{Holds, Joins};
    ghost use Rattle.x509_certificates.specs.AttributeLaws.{row_of, same_attribute};

    ghost spells = { λ v. Holds sequence_octet (λ f. Joins ⟦<ObjectIdentifierAsn1 as SpelledItem>⟧.leads ⟦<AttributeKinds as Kinds>⟧.spells f.0 f.1) (row_of v) };

    ghost written = { λ v. sequence (λ f. ⟦<ObjectIdentifierAsn1 as SpelledItem>⟧.place f.0 (⟦<AttributeKinds as Kinds>⟧.row_trees f.1)) sequence_octet (row_of v) };

    ghost begun = { only sequence_octet };

    ghost has_low_tags = { true };

    ghost laws = { identified_laws ⟦<ObjectIdentifierAsn1 as SpelledItem>⟧.before ⟦<ObjectIdentifierAsn1 as SpelledItem>⟧.is_told ⟦<ObjectIdentifierAsn1 as SpelledItem>⟧.place
        ⟦<ObjectIdentifierAsn1 as SpelledItem>⟧.leads ⟦<ObjectIdentifierAsn1 as SpelledItem>⟧.field_laws
        ⟦<AttributeKinds as Kinds>⟧.belongs ⟦<AttributeKinds as Kinds>⟧.row_firsts ⟦<AttributeKinds as Kinds>⟧.row_trees ⟦<AttributeKinds as Kinds>⟧.spells
        (⟦<AttributeKinds as Kinds>⟧.kind_laws (refl {a = true})) (refl {a = true}) row_of same_attribute (λ v. v.of_its_type) };

    fn may_begin_with(first: u8) -> bool {
        first == SEQUENCE
    }

    fn read_counted(alloc: Global, bytes: &[u8]) -> Result<Counted<Self>, X509Fault> {
        let read: Counted<(ObjectIdentifierAsn1, AttributeKinds)> = read_identified(
            alloc, SEQUENCE, bytes,
        )?;
        let count = read.count;
        let (ty, kinds) = read.into_value();
        let values = of_kinds(kinds);
        let value = Attribute { ty, value: values };
        Ok(Counted { value, count })
    }

    ghost written_is = { refl };
}
