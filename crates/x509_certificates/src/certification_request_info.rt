//! What the subject of a certification request signs (RFC 2986, section 4.1).
ghost use Rattle.std.specs.Prelude.{◌≡◌, [], IfOk, MatchResult};
ghost use Rattle.x509_certificates.specs.Requests.{info_row};
ghost use Rattle.asn1_der.specs.Octets.{sequence_octet};

use crate::{Attribute, Attributes, OpenSslAttributes};
use asn1_der::octets::SEQUENCE;
use byte_streams::Sink;
use picky_asn1_der::{Asn1DerError, LentFields, Serialize, Serializer, fields_of};
use std::alloc::{AllocError, Global};
use x509_fields::Name;
use x509_keys::SubjectPublicKeyInfo;
use x509_spelling::{
    Counted, FixedNumber, Implied, Spelled, SpelledFields, Strict, X509Fault, read_fields,
};

/// What the subject of a certification request signs.
///
/// ```text
/// CertificationRequestInfo ::= SEQUENCE {
///      version       INTEGER { v1(0) } (v1,...),
///      subject       Name,
///      subjectPKInfo SubjectPublicKeyInfo{{ PKInfoAlgorithms }},
///      attributes    [0] Attributes{{ CRIAttributes }} }
/// ```
///
/// The attributes are written where there are none, too. That they are missing is a deviation.
#[derive(Debug, Drop, PartialEq, Eq)]
pub struct CertificationRequestInfo {
    /// The version 0.
    pub version: FixedNumber<0>,
    /// The name of the key's holder.
    pub subject: Name,
    /// The key.
    pub subject_public_key_info: SubjectPublicKeyInfo,
    /// The attributes that are requested of the certificate, such as its extensions.
    pub attributes: OpenSslAttributes,
}

impl Clone for CertificationRequestInfo {
    ghost is_clone = { λ info copy. copy ≡ info };

    fn clone(&self) -> Result<CertificationRequestInfo, AllocError> {
        let (subject, (key, (attributes, ()))) =
            fields_of![self; subject, subject_public_key_info, attributes].copied()?;
        Ok(CertificationRequestInfo {
            version: self.version,
            subject,
            subject_public_key_info: key,
            attributes,
        })
    }
}

type InfoRow = (
    Strict<FixedNumber<0>>,
    (
        Name,
        (SubjectPublicKeyInfo, (Implied<OpenSslAttributes>, ())),
    ),
);

impl CertificationRequestInfo {
    ghost use Rattle.x509_certificates.specs.AttributesAdded.{IsAdded};

    /// The request for a certificate of this key, without attributes.
    pub fn new(
        alloc: Global,
        subject: Name,
        subject_public_key_info: SubjectPublicKeyInfo,
    ) -> CertificationRequestInfo
        ensures { (result.subject ≡ subject) × (result.subject_public_key_info ≡ subject_public_key_info) × (result.attributes.0 ≡ []) }
    {
        let none = Vec::new(alloc);
        CertificationRequestInfo {
            version: FixedNumber,
            subject,
            subject_public_key_info,
            attributes: OpenSslAttributes(Attributes::from(none)),
        }
    }

    /// The request with an attribute behind the others.
    pub fn with_attribute(
        self,
        attribute: Attribute,
    ) -> Result<CertificationRequestInfo, AllocError>
        ensures { IfOk result (λ made. IsAdded self attribute made) }
    {
        let mut info = self;
        info.add_attribute(attribute)?;
        Ok(info)
    }

    /// Adds an attribute behind the others.
    pub fn add_attribute(&mut self, attribute: Attribute) -> Result<(), AllocError>
        ensures { MatchResult result (λ _. IsAdded self.old attribute self.new) (λ _. self.new ≡ self.old) }
    {
        self.attributes.0.push(attribute)
    }
}

impl Serialize for CertificationRequestInfo {
    ghost use Rattle.std.proofs.Common.{refl, true};
    ghost use Rattle.asn1_der.specs.Tagged.{sequence};
    ghost use Rattle.asn1_der.specs.Firsts.{only};
    ghost use Rattle.asn1_der.proofs.Spelling.{may_begin-only};
    ghost use Rattle.x509_spelling.specs.Spellings.{Holds};
    ghost use Rattle.x509_spelling.specs.RowLaws.{struct_laws};
    ghost use Rattle.x509_spelling.specs.HeldLaws.{laws_injective};
    ghost use Rattle.x509_certificates.specs.Requests.{info_row, one_info};

    ghost tree = { λ v. sequence ⟦<InfoRow as SpelledFields>⟧.row_trees sequence_octet (info_row v) };

    ghost firsts = { only sequence_octet };

    ghost begins = { λ _. may_begin-only sequence_octet };

    ghost injective = { laws_injective true (only sequence_octet) (λ v. sequence ⟦<InfoRow as SpelledFields>⟧.row_trees sequence_octet (info_row v)) (λ v. Holds sequence_octet ⟦<InfoRow as SpelledFields>⟧.spells (info_row v))
        (struct_laws sequence_octet refl ⟦<InfoRow as SpelledFields>⟧.row_firsts ⟦<InfoRow as SpelledFields>⟧.row_trees ⟦<InfoRow as SpelledFields>⟧.spells
        (⟦<InfoRow as SpelledFields>⟧.row_laws (refl {a = true})) info_row one_info) };

    fn serialize<W: Sink>(&self, to: &mut Serializer<W>) -> Result<usize, Asn1DerError> {
        let attributes = (&self.attributes, ());
        let subject = (&self.subject, (&self.subject_public_key_info, attributes));
        to.list(SEQUENCE, &(&self.version, subject))
    }
}

impl Spelled for CertificationRequestInfo {
    ghost use Rattle.std.proofs.Common.{refl, true};
    ghost use Rattle.asn1_der.specs.Tagged.{sequence};
    ghost use Rattle.asn1_der.specs.Firsts.{only};
    ghost use Rattle.x509_spelling.specs.Spellings.{Holds};
    ghost use Rattle.x509_spelling.specs.RowLaws.{struct_laws};
    ghost use Rattle.x509_certificates.specs.Requests.{info_row, one_info};

    ghost spells = { λ v. Holds sequence_octet ⟦<InfoRow as SpelledFields>⟧.spells (info_row v) };

    ghost written = { λ v. sequence ⟦<InfoRow as SpelledFields>⟧.row_trees sequence_octet (info_row v) };

    ghost begun = { only sequence_octet };

    ghost has_low_tags = { true };

    ghost laws = { struct_laws sequence_octet refl ⟦<InfoRow as SpelledFields>⟧.row_firsts ⟦<InfoRow as SpelledFields>⟧.row_trees ⟦<InfoRow as SpelledFields>⟧.spells
        (⟦<InfoRow as SpelledFields>⟧.row_laws (refl {a = true})) info_row one_info };

    fn may_begin_with(first: u8) -> bool {
        first == SEQUENCE
    }

    fn read_counted(alloc: Global, bytes: &[u8]) -> Result<Counted<Self>, X509Fault> {
        let read: Counted<InfoRow> = read_fields(alloc, SEQUENCE, bytes)?;
        let count = read.count;
        let value = of_row(read.into_value());
        Ok(Counted { value, count })
    }

    ghost written_is = { refl };
}

// The value with these fields.
fn of_row(row: InfoRow) -> CertificationRequestInfo
    ensures { info_row result ≡ row }
{
    let (Strict(version), (subject, (subject_public_key_info, (Implied(attributes), ())))) = row;
    CertificationRequestInfo {
        version,
        subject,
        subject_public_key_info,
        attributes,
    }
}
