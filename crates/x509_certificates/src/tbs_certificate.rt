//! What a certificate's issuer signs (RFC 5280, section 4.1).
ghost use Rattle.std.specs.Prelude.{◌≡◌, MatchResult};
ghost use Rattle.x509_certificates.specs.Certificates.{tbs_row};
ghost use Rattle.asn1_der.specs.Octets.{sequence_octet};

use crate::certificate_extensions::CertificateExtensions;
use crate::version_field::VersionField;
use asn1_der::octets::SEQUENCE;
use byte_streams::Sink;
use picky_asn1::wrapper::IntegerAsn1;
use picky_asn1_der::{
    Asn1DerError, DefaultField, ExplicitContextTag, LentFields, Serialize, Serializer, fields_of,
};
use std::alloc::{AllocError, Global};
use x509_algorithms::AlgorithmIdentifier;
use x509_fields::{Name, Validity, Version};
use x509_keys::SubjectPublicKeyInfo;
use x509_spelling::{Ahead, Counted, Spelled, SpelledFields, X509Fault, read_fields};

/// What a certificate's issuer signs.
///
/// ```text
/// TBSCertificate  ::=  SEQUENCE  {
///      version         [0]  EXPLICIT Version DEFAULT v1,
///      serialNumber         CertificateSerialNumber,
///      signature            AlgorithmIdentifier,
///      issuer               Name,
///      validity             Validity,
///      subject              Name,
///      subjectPublicKeyInfo SubjectPublicKeyInfo,
///      issuerUniqueID  [1]  IMPLICIT UniqueIdentifier OPTIONAL,
///      subjectUniqueID [2]  IMPLICIT UniqueIdentifier OPTIONAL,
///      extensions      [3]  EXPLICIT Extensions OPTIONAL }
/// ```
///
/// Certificates with unique identifiers are refused, and so is an empty list of extensions.
#[derive(Debug, Drop, PartialEq, Eq)]
pub struct TbsCertificate {
    /// The version. That v1 is spelled out is a deviation.
    pub version: Version,
    /// The issuer's number for the certificate.
    pub serial_number: IntegerAsn1,
    /// The algorithm of the issuer's signature.
    pub signature: AlgorithmIdentifier,
    /// The issuer's name.
    pub issuer: Name,
    /// When the certificate is valid.
    pub validity: Validity,
    /// The name of the key's holder.
    pub subject: Name,
    /// The key.
    pub subject_public_key_info: SubjectPublicKeyInfo,
    /// The extensions.
    pub extensions: CertificateExtensions,
}

impl Clone for TbsCertificate {
    ghost is_clone = { λ certificate copy. copy ≡ certificate };

    fn clone(&self) -> Result<TbsCertificate, AllocError> {
        let lent =
            fields_of![self; serial_number, signature, issuer, subject, subject_public_key_info, extensions];
        let (serial_number, (signature, (issuer, (subject, (key, (extensions, ())))))) =
            lent.copied()?;
        Ok(TbsCertificate {
            version: self.version,
            serial_number,
            signature,
            issuer,
            validity: self.validity,
            subject,
            subject_public_key_info: key,
            extensions,
        })
    }
}

type TbsRow = (
    DefaultField<VersionField>,
    (
        IntegerAsn1,
        (
            AlgorithmIdentifier,
            (
                Name,
                (
                    Validity,
                    (Name, (SubjectPublicKeyInfo, CertificateExtensions)),
                ),
            ),
        ),
    ),
);

impl Serialize for TbsCertificate {
    ghost use Rattle.std.proofs.Common.{refl, true};
    ghost use Rattle.asn1_der.specs.Tagged.{sequence};
    ghost use Rattle.asn1_der.specs.Firsts.{only};
    ghost use Rattle.asn1_der.proofs.Spelling.{may_begin-only};
    ghost use Rattle.x509_spelling.specs.Spellings.{Holds};
    ghost use Rattle.x509_spelling.specs.RowLaws.{struct_laws};
    ghost use Rattle.x509_spelling.specs.HeldLaws.{laws_injective};
    ghost use Rattle.x509_certificates.specs.Certificates.{tbs_row, one_tbs};

    ghost tree = { λ v. sequence ⟦<TbsRow as SpelledFields>⟧.row_trees sequence_octet (tbs_row v) };

    ghost firsts = { only sequence_octet };

    ghost begins = { λ _. may_begin-only sequence_octet };

    ghost injective = { laws_injective true (only sequence_octet) (λ v. sequence ⟦<TbsRow as SpelledFields>⟧.row_trees sequence_octet (tbs_row v)) (λ v. Holds sequence_octet ⟦<TbsRow as SpelledFields>⟧.spells (tbs_row v))
        (struct_laws sequence_octet refl ⟦<TbsRow as SpelledFields>⟧.row_firsts ⟦<TbsRow as SpelledFields>⟧.row_trees ⟦<TbsRow as SpelledFields>⟧.spells
        (⟦<TbsRow as SpelledFields>⟧.row_laws (refl {a = true})) tbs_row one_tbs) };

    fn serialize<W: Sink>(&self, to: &mut Serializer<W>) -> Result<usize, Asn1DerError> {
        let version = DefaultField(VersionField(ExplicitContextTag(self.version)));
        let key = (&self.subject_public_key_info, (&self.extensions.tagged, ()));
        let names = (&self.issuer, (&self.validity, (&self.subject, key)));
        to.list(
            SEQUENCE,
            &(
                &version,
                (&self.serial_number, Ahead(&self.signature, names)),
            ),
        )
    }
}

impl Spelled for TbsCertificate {
    ghost use Rattle.std.proofs.Common.{refl, true};
    ghost use Rattle.asn1_der.specs.Tagged.{sequence};
    ghost use Rattle.asn1_der.specs.Firsts.{only};
    ghost use Rattle.x509_spelling.specs.Spellings.{Holds};
    ghost use Rattle.x509_spelling.specs.RowLaws.{struct_laws};
    ghost use Rattle.x509_certificates.specs.Certificates.{tbs_row, one_tbs};

    ghost spells = { λ v. Holds sequence_octet ⟦<TbsRow as SpelledFields>⟧.spells (tbs_row v) };

    ghost written = { λ v. sequence ⟦<TbsRow as SpelledFields>⟧.row_trees sequence_octet (tbs_row v) };

    ghost begun = { only sequence_octet };

    ghost has_low_tags = { true };

    ghost laws = { struct_laws sequence_octet refl ⟦<TbsRow as SpelledFields>⟧.row_firsts ⟦<TbsRow as SpelledFields>⟧.row_trees ⟦<TbsRow as SpelledFields>⟧.spells
        (⟦<TbsRow as SpelledFields>⟧.row_laws (refl {a = true})) tbs_row one_tbs };

    fn may_begin_with(first: u8) -> bool {
        first == SEQUENCE
    }

    fn read_counted(alloc: Global, bytes: &[u8]) -> Result<Counted<Self>, X509Fault> {
        let read: Counted<TbsRow> = read_fields(alloc, SEQUENCE, bytes)?;
        let count = read.count;
        let value = of_row(read.into_value());
        Ok(Counted { value, count })
    }

    ghost written_is = { refl };
}

// The value with these fields.
fn of_row(row: TbsRow) -> TbsCertificate
    ensures { tbs_row result ≡ row }
{
    let (DefaultField(version), (serial_number, (signature, (issuer, names)))) = row;
    let (validity, (subject, (subject_public_key_info, extensions))) = names;
    TbsCertificate {
        version: version.0.0,
        serial_number,
        signature,
        issuer,
        validity,
        subject,
        subject_public_key_info,
        extensions,
    }
}
