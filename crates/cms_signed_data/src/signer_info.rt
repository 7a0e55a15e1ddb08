//! A signer (RFC 5652, section 5.3).
ghost use Rattle.std.specs.Prelude.{◌≡◌, MatchResult};
ghost use Rattle.cms_signed_data.specs.SignedRows.{signer_row};
ghost use Rattle.asn1_der.specs.Octets.{sequence_octet};

use crate::signed_attributes::SignedAttributes;
use asn1_der::octets::SEQUENCE;
use byte_streams::{Sink, Source};
use picky_asn1::wrapper::{IntegerAsn1, OctetStringAsn1};
use picky_asn1_der::{
    Asn1DerError, Deserializer, Fields, Row2, Serialize, Serializer, Tagged, fields_of,
    from_fields, read_sequence,
};
use std::alloc::Global;
use x509_algorithms::AlgorithmIdentifier;
use x509_fields::{Name, RawAlgorithmIdentifier};
use x509_spelling::{Ahead, Counted, Exact, Spelled, SpelledFields, X509Fault, read_fields};

/// A certificate by its issuer and serial number (RFC 5652, section 10.2.4).
///
/// ```text
/// IssuerAndSerialNumber ::= SEQUENCE {
///   issuer Name,
///   serialNumber CertificateSerialNumber }
/// ```
#[derive(Drop)]
pub struct IssuerAndSerialNumber {
    /// The certificate's issuer.
    pub issuer: Name,
    /// The certificate's serial number.
    pub serial_number: IntegerAsn1,
}

type IssuerAndSerialNumberRow = Row2<Name, IntegerAsn1>;

impl Tagged for IssuerAndSerialNumber {
    ghost use Rattle.std.proofs.Common.{ap, refl, true};
    ghost use Rattle.asn1_der.specs.Tagged.{sequence};
    ghost use Rattle.asn1_der.proofs.Tagged.{sequence_laws};

    type Row = IssuerAndSerialNumberRow;

    const FIRST: u8 = SEQUENCE;

    ghost FIRST = { sequence_octet };

    ghost row_tree = { sequence ⟦<IssuerAndSerialNumberRow as Fields>⟧.trees };

    ghost row_laws = { sequence_laws ⟦<IssuerAndSerialNumberRow as Fields>⟧.trees (⟦<IssuerAndSerialNumberRow as Fields>⟧.injective (refl {a = true})) };

    ghost row_of = { λ v. (v.issuer, (v.serial_number, tt)) };

    ghost one_row = { λ v w e. ap (λ f. record { issuer = f.0; serial_number = f.1.0 }) e };

    fn read_row<R: Source>(tag: u8, from: &mut Deserializer<R>) -> Result<Self::Row, Asn1DerError> {
        read_sequence(tag, from)
    }

    fn of_row(row: Self::Row) -> Self {
        from_fields![row; issuer, serial_number]
    }

    fn write_row<W: Sink>(&self, tag: u8, to: &mut Serializer<W>) -> Result<usize, Asn1DerError> {
        to.list(tag, &fields_of![self; issuer, serial_number])
    }
}

impl Exact for IssuerAndSerialNumber {
    ghost plain = { tt };
}

/// A signer, and its signature over the signed attributes. Unsigned attributes aren't read.
///
/// ```text
/// SignerInfo ::= SEQUENCE {
///   version CMSVersion,
///   sid SignerIdentifier,
///   digestAlgorithm DigestAlgorithmIdentifier,
///   signedAttrs [0] IMPLICIT SignedAttributes OPTIONAL,
///   signatureAlgorithm SignatureAlgorithmIdentifier,
///   signature SignatureValue,
///   unsignedAttrs [1] IMPLICIT UnsignedAttributes OPTIONAL }
/// ```
#[derive(Drop)]
pub struct SignerInfo {
    /// The version, 1 in the one form.
    pub version: u8,
    /// The signer's certificate, by its issuer and serial number.
    pub sid: IssuerAndSerialNumber,
    /// The digest algorithm.
    pub digest_algorithm: RawAlgorithmIdentifier,
    /// What the signature covers.
    pub signed_attributes: SignedAttributes,
    /// The signature algorithm.
    pub signature_algorithm: AlgorithmIdentifier,
    /// The signature.
    pub signature: OctetStringAsn1,
}

type SignerRow = (
    u8,
    (
        IssuerAndSerialNumber,
        (
            RawAlgorithmIdentifier,
            (
                SignedAttributes,
                (AlgorithmIdentifier, (OctetStringAsn1, ())),
            ),
        ),
    ),
);

impl Serialize for SignerInfo {
    ghost use Rattle.std.proofs.Common.{refl, true};
    ghost use Rattle.asn1_der.specs.Tagged.{sequence};
    ghost use Rattle.asn1_der.specs.Firsts.{only};
    ghost use Rattle.asn1_der.proofs.Spelling.{may_begin-only};
    ghost use Rattle.x509_spelling.specs.Spellings.{Holds};
    ghost use Rattle.x509_spelling.specs.RowLaws.{struct_laws};
    ghost use Rattle.x509_spelling.specs.HeldLaws.{laws_injective};
    ghost use Rattle.cms_signed_data.specs.SignedRows.{signer_row, one_signer};

    ghost tree = { λ v. sequence ⟦<SignerRow as SpelledFields>⟧.row_trees sequence_octet (signer_row v) };

    ghost firsts = { only sequence_octet };

    ghost begins = { λ _. may_begin-only sequence_octet };

    ghost injective = { laws_injective true (only sequence_octet) (λ v. sequence ⟦<SignerRow as SpelledFields>⟧.row_trees sequence_octet (signer_row v))
        (λ v. Holds sequence_octet ⟦<SignerRow as SpelledFields>⟧.spells (signer_row v))
        (struct_laws sequence_octet refl ⟦<SignerRow as SpelledFields>⟧.row_firsts ⟦<SignerRow as SpelledFields>⟧.row_trees ⟦<SignerRow as SpelledFields>⟧.spells
        (⟦<SignerRow as SpelledFields>⟧.row_laws (refl {a = true})) signer_row one_signer) };

    fn serialize<W: Sink>(&self, to: &mut Serializer<W>) -> Result<usize, Asn1DerError> {
        let behind = Ahead(&self.signature_algorithm, (&self.signature, ()));
        let digested = (&self.digest_algorithm, (&self.signed_attributes, behind));
        to.list(SEQUENCE, &(&self.version, (&self.sid, digested)))
    }
}

impl Spelled for SignerInfo {
    ghost use Rattle.std.proofs.Common.{refl, true};
    ghost use Rattle.asn1_der.specs.Tagged.{sequence};
    ghost use Rattle.asn1_der.specs.Firsts.{only};
    ghost use Rattle.x509_spelling.specs.Spellings.{Holds};
    ghost use Rattle.x509_spelling.specs.RowLaws.{struct_laws};
    ghost use Rattle.cms_signed_data.specs.SignedRows.{signer_row, one_signer};

    ghost spells = { λ v. Holds sequence_octet ⟦<SignerRow as SpelledFields>⟧.spells (signer_row v) };

    ghost written = { λ v. sequence ⟦<SignerRow as SpelledFields>⟧.row_trees sequence_octet (signer_row v) };

    ghost begun = { only sequence_octet };

    ghost has_low_tags = { true };

    ghost laws = { struct_laws sequence_octet refl ⟦<SignerRow as SpelledFields>⟧.row_firsts ⟦<SignerRow as SpelledFields>⟧.row_trees ⟦<SignerRow as SpelledFields>⟧.spells
        (⟦<SignerRow as SpelledFields>⟧.row_laws (refl {a = true})) signer_row one_signer };

    fn may_begin_with(first: u8) -> bool {
        first == SEQUENCE
    }

    fn read_counted(alloc: Global, bytes: &[u8]) -> Result<Counted<Self>, X509Fault> {
        let read: Counted<SignerRow> = read_fields(alloc, SEQUENCE, bytes)?;
        let count = read.count;
        let value = of_row(read.into_value());
        Ok(Counted { value, count })
    }

    ghost written_is = { refl };
}

// The value with these fields.
fn of_row(row: SignerRow) -> SignerInfo
    ensures { signer_row result ≡ row }
{
    let (version, (sid, (digest_algorithm, (signed_attributes, behind)))) = row;
    let (signature_algorithm, (signature, ())) = behind;
    SignerInfo {
        version,
        sid,
        digest_algorithm,
        signed_attributes,
        signature_algorithm,
        signature,
    }
}
