//! The authorities that a client trusts.
ghost use Rattle.asn1_der.specs.Octets.{sequence_octet};

use asn1_der::octets::SEQUENCE;
use byte_streams::{Sink, Source};
use picky_asn1::wrapper::OctetStringAsn1;
use picky_asn1_der::{
    Asn1DerError, Deserializer, Fields, ImplicitContextTag0, ImplicitContextTag1,
    ImplicitContextTag2, Optional, Row3, Serializer, Tagged, fields_of, from_fields, read_sequence,
};

/// An authority that a client trusts to certify a KDC (RFC 4556, section 3.2.1). It is the DER of a name, or of an issuer with a serial
/// number, or a key's identifier.
///
/// ```text
/// ExternalPrincipalIdentifier ::= SEQUENCE {
///      subjectName            [0] IMPLICIT OCTET STRING
///                                 OPTIONAL,
///      issuerAndSerialNumber  [1] IMPLICIT OCTET STRING
///                                 OPTIONAL,
///      subjectKeyIdentifier   [2] IMPLICIT OCTET STRING
///                                 OPTIONAL,
///      ... }
/// ```
#[derive(Debug, Drop, PartialEq, Eq, Clone)]
pub struct ExternalPrincipalIdentifier {
    /// The DER of a Name (RFC 5280, section 4.1.2.6).
    pub subject_name: Optional<Option<ImplicitContextTag0<OctetStringAsn1>>>,
    /// The DER of an IssuerAndSerialNumber (RFC 5652, section 10.2.4).
    pub issuer_and_serial_number: Optional<Option<ImplicitContextTag1<OctetStringAsn1>>>,
    /// The key's identifier (RFC 5280, section 4.2.1.2).
    pub subject_key_identifier: Optional<Option<ImplicitContextTag2<OctetStringAsn1>>>,
}

type ExternalPrincipalIdentifierRow = Row3<
    Optional<Option<ImplicitContextTag0<OctetStringAsn1>>>,
    Optional<Option<ImplicitContextTag1<OctetStringAsn1>>>,
    Optional<Option<ImplicitContextTag2<OctetStringAsn1>>>,
>;

impl Tagged for ExternalPrincipalIdentifier {
    ghost use Rattle.std.proofs.Common.{ap, refl, true};
    ghost use Rattle.asn1_der.specs.Tagged.{sequence};
    ghost use Rattle.asn1_der.proofs.Tagged.{sequence_laws};

    type Row = ExternalPrincipalIdentifierRow;

    const FIRST: u8 = SEQUENCE;

    ghost FIRST = { sequence_octet };

    ghost row_tree = { sequence ⟦<ExternalPrincipalIdentifierRow as Fields>⟧.trees };

    ghost row_laws = { sequence_laws ⟦<ExternalPrincipalIdentifierRow as Fields>⟧.trees (⟦<ExternalPrincipalIdentifierRow as Fields>⟧.injective (refl {a = true})) };

    ghost row_of = { λ v. (v.subject_name, (v.issuer_and_serial_number, (v.subject_key_identifier, tt))) };

    ghost one_row = { λ v w e. ap (λ f. record { subject_name = f.0; issuer_and_serial_number = f.1.0; subject_key_identifier = f.1.1.0 }) e };

    fn read_row<R: Source>(tag: u8, from: &mut Deserializer<R>) -> Result<Self::Row, Asn1DerError> {
        read_sequence(tag, from)
    }

    fn of_row(row: Self::Row) -> Self {
        from_fields![row; subject_name, issuer_and_serial_number, subject_key_identifier]
    }

    fn write_row<W: Sink>(&self, tag: u8, to: &mut Serializer<W>) -> Result<usize, Asn1DerError> {
        to.list(
            tag,
            &fields_of![self; subject_name, issuer_and_serial_number, subject_key_identifier],
        )
    }
}
