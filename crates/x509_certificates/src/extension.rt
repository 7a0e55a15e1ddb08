//! Extensions of certificates (RFC 5280, section 4.1).
ghost use Rattle.std.specs.Prelude.{◌≡◌, ℕ, List, true, false, IsTrue, IfOk, MatchResult};
ghost use Rattle.x509_oids.specs.Identifiers as oids;
ghost use Rattle.x509_certificates.specs.ExtensionValues.{is_value_of, kinds_of};
ghost use Rattle.x509_certificates.specs.declared.extension_value.ExtensionValue.TheVariants as kind;
ghost use Rattle.asn1_der.specs.Octets.{sequence_octet};

use crate::authority_key_identifier::AuthorityKeyIdentifier;
use crate::extended_key_usage::ExtendedKeyUsage;
use crate::extension_value::{
    ExtensionKinds, ExtensionValue, IssuerAltName, SubjectAltName, SubjectKeyIdentifier, of_kinds,
};
use crate::extension_view::ExtensionView;
use crate::key_usage::KeyUsage;
use asn1_der::octets::SEQUENCE;
use byte_streams::Sink;
use picky_asn1::wrapper::{IntegerAsn1, ObjectIdentifierAsn1, OctetStringAsn1Container};
use picky_asn1_der::{Asn1DerError, DefaultField, Serialize, Serializer};
use std::alloc::{AllocError, Global};
use x509_fields::BasicConstraints;
use x509_spelling::{
    Counted, Critical, DefaultFalse, Kinds, Spelled, SpelledItem, X509Fault, read_identified,
};

/// An extension: an identifier, and a value of the kind that it decides.
///
/// ```text
/// Extension  ::=  SEQUENCE  {
///      extnID      OBJECT IDENTIFIER,
///      critical    BOOLEAN DEFAULT FALSE,
///      extnValue   OCTET STRING }
/// ```
#[derive(Debug, Drop, PartialEq, Eq)]
pub struct Extension {
    extn_id: ObjectIdentifierAsn1,
    critical: DefaultField<Critical>,
    extn_value: ExtensionValue,
    pub ghost of_its_id: { IsTrue (is_value_of extn_id.0 extn_value) },
}

impl Clone for Extension {
    ghost is_clone = { λ extension copy. copy ≡ extension };

    fn clone(&self) -> Result<Extension, AllocError> {
        let extn_id = self.extn_id.clone()?;
        let extn_value = self.extn_value.clone()?;
        Ok(Extension {
            extn_id,
            critical: self.critical,
            extn_value,
        })
    }
}

type ExtensionRow = (DefaultField<Critical>, ExtensionKinds);

impl Extension {
    ghost use Rattle.x509_certificates.specs.ExtensionViews.{IsViewOf, IsMade};

    /// The identifier.
    pub fn extn_id(&self) -> &ObjectIdentifierAsn1
        ensures { result.now ≡ self.now.extn_id }
    {
        &self.extn_id
    }

    /// Whether the extension is critical: a verifier that doesn't recognise it must reject the certificate.
    pub fn critical(&self) -> bool
        ensures { result ≡ self.now.critical.0.0 }
    {
        self.critical.0.0
    }

    /// The value.
    pub fn extn_value(&self) -> ExtensionView<'_>
        ensures { IsViewOf result self.now.extn_value }
    {
        ExtensionView::from(&self.extn_value)
    }

    /// The extension, critical.
    pub fn into_critical(self) -> Extension
        ensures { (result.critical.0.0 ≡ true) × (result.extn_id ≡ self.extn_id) × (result.extn_value ≡ self.extn_value) }
    {
        self.marked(true)
    }

    /// The extension, not critical.
    pub fn into_non_critical(self) -> Extension
        ensures { (result.critical.0.0 ≡ false) × (result.extn_id ≡ self.extn_id) × (result.extn_value ≡ self.extn_value) }
    {
        self.marked(false)
    }

    /// Says whether the extension is critical.
    pub fn set_critical(&mut self, critical: bool)
        ensures { (self.new.critical.0.0 ≡ critical) × (self.new.extn_id ≡ self.old.extn_id) × (self.new.extn_value ≡ self.old.extn_value) }
    {
        self.critical = DefaultField(DefaultFalse(critical));
    }

    // The extension, critical or not.
    fn marked(self, critical: bool) -> Extension
        ensures { (result.critical.0.0 ≡ critical) × (result.extn_id ≡ self.extn_id) × (result.extn_value ≡ self.extn_value) }
    {
        let Extension {
            extn_id,
            critical: _,
            extn_value,
        } = self;
        Extension {
            extn_id,
            critical: DefaultField(DefaultFalse(critical)),
            extn_value,
        }
    }

    /// The uses of a key, not critical.
    pub fn new_key_usage(alloc: Global, usage: KeyUsage) -> Result<Extension, AllocError>
        ensures { IfOk result (λ made. IsMade oids.key_usage (kind.KeyUsage (record { 0 = usage })) made) }
    {
        let oid = x509_oids::key_usage(alloc)?;
        Ok(Extension {
            extn_id: ObjectIdentifierAsn1(oid),
            critical: DefaultField(DefaultFalse(false)),
            extn_value: ExtensionValue::KeyUsage(OctetStringAsn1Container(usage)),
        })
    }

    /// The identifier of the subject's key, not critical.
    pub fn new_subject_key_identifier(
        alloc: Global,
        key: SubjectKeyIdentifier,
    ) -> Result<Extension, AllocError>
        ensures { IfOk result (λ made. IsMade oids.subject_key_identifier (kind.SubjectKeyIdentifier (record { 0 = key })) made) }
    {
        let oid = x509_oids::subject_key_identifier(alloc)?;
        Ok(Extension {
            extn_id: ObjectIdentifierAsn1(oid),
            critical: DefaultField(DefaultFalse(false)),
            extn_value: ExtensionValue::SubjectKeyIdentifier(OctetStringAsn1Container(key)),
        })
    }

    /// Whether the subject is an authority, not critical.
    pub fn new_basic_constraints(
        alloc: Global,
        constraints: BasicConstraints,
    ) -> Result<Extension, AllocError>
        ensures { IfOk result (λ made. IsMade oids.basic_constraints (kind.BasicConstraints (record { 0 = constraints })) made) }
    {
        let oid = x509_oids::basic_constraints(alloc)?;
        Ok(Extension {
            extn_id: ObjectIdentifierAsn1(oid),
            critical: DefaultField(DefaultFalse(false)),
            extn_value: ExtensionValue::BasicConstraints(OctetStringAsn1Container(constraints)),
        })
    }

    /// The purposes of a key, not critical.
    pub fn new_extended_key_usage(
        alloc: Global,
        purposes: ExtendedKeyUsage,
    ) -> Result<Extension, AllocError>
        ensures { IfOk result (λ made. IsMade oids.extended_key_usage (kind.ExtendedKeyUsage (record { 0 = purposes })) made) }
    {
        let oid = x509_oids::extended_key_usage(alloc)?;
        Ok(Extension {
            extn_id: ObjectIdentifierAsn1(oid),
            critical: DefaultField(DefaultFalse(false)),
            extn_value: ExtensionValue::ExtendedKeyUsage(OctetStringAsn1Container(purposes)),
        })
    }

    /// Further names of the subject, not critical.
    pub fn new_subject_alt_name(
        alloc: Global,
        names: SubjectAltName,
    ) -> Result<Extension, AllocError>
        ensures { IfOk result (λ made. IsMade oids.subject_alternative_name (kind.SubjectAltName (record { 0 = names })) made) }
    {
        let oid = x509_oids::subject_alternative_name(alloc)?;
        Ok(Extension {
            extn_id: ObjectIdentifierAsn1(oid),
            critical: DefaultField(DefaultFalse(false)),
            extn_value: ExtensionValue::SubjectAltName(OctetStringAsn1Container(names)),
        })
    }

    /// Further names of the issuer, not critical.
    pub fn new_issuer_alt_name(alloc: Global, names: IssuerAltName) -> Result<Extension, AllocError>
        ensures { IfOk result (λ made. IsMade oids.issuer_alternative_name (kind.IssuerAltName (record { 0 = names })) made) }
    {
        let oid = x509_oids::issuer_alternative_name(alloc)?;
        Ok(Extension {
            extn_id: ObjectIdentifierAsn1(oid),
            critical: DefaultField(DefaultFalse(false)),
            extn_value: ExtensionValue::IssuerAltName(OctetStringAsn1Container(names)),
        })
    }

    /// The number of a list of revoked certificates, not critical.
    pub fn new_crl_number(alloc: Global, number: IntegerAsn1) -> Result<Extension, AllocError>
        ensures { IfOk result (λ made. IsMade oids.crl_number (kind.CrlNumber (record { 0 = number })) made) }
    {
        let oid = x509_oids::crl_number(alloc)?;
        Ok(Extension {
            extn_id: ObjectIdentifierAsn1(oid),
            critical: DefaultField(DefaultFalse(false)),
            extn_value: ExtensionValue::CrlNumber(OctetStringAsn1Container(number)),
        })
    }

    /// The key that signed the certificate, not critical.
    pub fn new_authority_key_identifier(
        alloc: Global,
        key: AuthorityKeyIdentifier,
    ) -> Result<Extension, AllocError>
        ensures { IfOk result (λ made. IsMade oids.authority_key_identifier (kind.AuthorityKeyIdentifier (record { 0 = key })) made) }
    {
        let oid = x509_oids::authority_key_identifier(alloc)?;
        Ok(Extension {
            extn_id: ObjectIdentifierAsn1(oid),
            critical: DefaultField(DefaultFalse(false)),
            extn_value: ExtensionValue::AuthorityKeyIdentifier(OctetStringAsn1Container(key)),
        })
    }
}

impl Serialize for Extension {
    ghost use Rattle.std.proofs.Common.{refl, true};
    ghost use Rattle.asn1_der.specs.Tagged.{sequence};
    ghost use Rattle.asn1_der.specs.Firsts.{only};
    ghost use Rattle.asn1_der.proofs.Spelling.{may_begin-only};
    ghost use Rattle.x509_spelling.specs.HeldLaws.{laws_injective};
    ghost use Rattle.x509_spelling.specs.KindLaws.{identified_laws};
    ghost use Rattle.x509_spelling.specs.Spellings.{Holds, Joins};
    ghost use Rattle.x509_certificates.specs.ExtensionLaws.{row_of, same_extension};

    ghost tree = { λ v. sequence (λ f. ⟦<ObjectIdentifierAsn1 as SpelledItem>⟧.place f.0 (⟦<ExtensionRow as Kinds>⟧.row_trees f.1)) sequence_octet (row_of v) };

    ghost firsts = { only sequence_octet };

    ghost begins = { λ _. may_begin-only sequence_octet };

    ghost injective = { laws_injective true (only sequence_octet) (λ v. sequence (λ f. ⟦<ObjectIdentifierAsn1 as SpelledItem>⟧.place f.0 (⟦<ExtensionRow as Kinds>⟧.row_trees f.1)) sequence_octet (row_of v))
        (λ v. Holds sequence_octet (λ f. Joins ⟦<ObjectIdentifierAsn1 as SpelledItem>⟧.leads ⟦<ExtensionRow as Kinds>⟧.spells f.0 f.1) (row_of v))
        (identified_laws ⟦<ObjectIdentifierAsn1 as SpelledItem>⟧.before ⟦<ObjectIdentifierAsn1 as SpelledItem>⟧.is_told ⟦<ObjectIdentifierAsn1 as SpelledItem>⟧.place
        ⟦<ObjectIdentifierAsn1 as SpelledItem>⟧.leads ⟦<ObjectIdentifierAsn1 as SpelledItem>⟧.field_laws
        ⟦<ExtensionRow as Kinds>⟧.belongs ⟦<ExtensionRow as Kinds>⟧.row_firsts ⟦<ExtensionRow as Kinds>⟧.row_trees ⟦<ExtensionRow as Kinds>⟧.spells
        (⟦<ExtensionRow as Kinds>⟧.kind_laws (refl {a = true})) (refl {a = true}) row_of same_extension (λ v. v.of_its_id)) };

    fn serialize<W: Sink>(&self, to: &mut Serializer<W>) -> Result<usize, Asn1DerError> {
        let id = &self.extn_id;
        let critical = &self.critical;
        match &self.extn_value {
            ExtensionValue::AuthorityKeyIdentifier(value) => to.list(
                SEQUENCE,
                &(id, (critical, (value, ()))),
            ),
            ExtensionValue::SubjectKeyIdentifier(value) => to.list(
                SEQUENCE,
                &(id, (critical, (value, ()))),
            ),
            ExtensionValue::KeyUsage(value) => to.list(SEQUENCE, &(id, (critical, (value, ())))),
            ExtensionValue::SubjectAltName(value) => to.list(
                SEQUENCE,
                &(id, (critical, (value, ()))),
            ),
            ExtensionValue::IssuerAltName(value) => to.list(
                SEQUENCE,
                &(id, (critical, (value, ()))),
            ),
            ExtensionValue::BasicConstraints(value) => to.list(
                SEQUENCE,
                &(id, (critical, (value, ()))),
            ),
            ExtensionValue::ExtendedKeyUsage(value) => to.list(
                SEQUENCE,
                &(id, (critical, (value, ()))),
            ),
            ExtensionValue::CrlNumber(value) => to.list(SEQUENCE, &(id, (critical, (value, ())))),
            ExtensionValue::Generic(value) => to.list(SEQUENCE, &(id, (critical, (value, ())))),
        }
    }
}

impl Spelled for Extension {
    ghost use Rattle.std.proofs.Common.{refl, true};
    ghost use Rattle.asn1_der.specs.Tagged.{sequence};
    ghost use Rattle.asn1_der.specs.Firsts.{only};
    ghost use Rattle.x509_spelling.specs.KindLaws.{identified_laws};
    ghost use Rattle.x509_spelling.specs.Spellings.{Holds, Joins};
    ghost use Rattle.x509_certificates.specs.ExtensionLaws.{row_of, same_extension};

    ghost spells = { λ v. Holds sequence_octet (λ f. Joins ⟦<ObjectIdentifierAsn1 as SpelledItem>⟧.leads ⟦<ExtensionRow as Kinds>⟧.spells f.0 f.1) (row_of v) };

    ghost written = { λ v. sequence (λ f. ⟦<ObjectIdentifierAsn1 as SpelledItem>⟧.place f.0 (⟦<ExtensionRow as Kinds>⟧.row_trees f.1)) sequence_octet (row_of v) };

    ghost begun = { only sequence_octet };

    ghost has_low_tags = { true };

    ghost laws = { identified_laws ⟦<ObjectIdentifierAsn1 as SpelledItem>⟧.before ⟦<ObjectIdentifierAsn1 as SpelledItem>⟧.is_told ⟦<ObjectIdentifierAsn1 as SpelledItem>⟧.place
        ⟦<ObjectIdentifierAsn1 as SpelledItem>⟧.leads ⟦<ObjectIdentifierAsn1 as SpelledItem>⟧.field_laws
        ⟦<ExtensionRow as Kinds>⟧.belongs ⟦<ExtensionRow as Kinds>⟧.row_firsts ⟦<ExtensionRow as Kinds>⟧.row_trees ⟦<ExtensionRow as Kinds>⟧.spells
        (⟦<ExtensionRow as Kinds>⟧.kind_laws (refl {a = true})) (refl {a = true}) row_of same_extension (λ v. v.of_its_id) };

    fn may_begin_with(first: u8) -> bool {
        first == SEQUENCE
    }

    fn read_counted(alloc: Global, bytes: &[u8]) -> Result<Counted<Self>, X509Fault> {
        let read: Counted<(ObjectIdentifierAsn1, ExtensionRow)> = read_identified(
            alloc, SEQUENCE, bytes,
        )?;
        let count = read.count;
        let (extn_id, (critical, kinds)) = read.into_value();
        let extn_value = of_kinds(kinds);
        let value = Extension {
            extn_id,
            critical,
            extn_value,
        };
        Ok(Counted { value, count })
    }

    ghost written_is = { refl };
}
