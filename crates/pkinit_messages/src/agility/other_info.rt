//! OtherInfo, which binds a key to its request and its reply.
ghost use Rattle.asn1_der.specs.Octets.{sequence_octet};

use asn1_der::octets::SEQUENCE;
use byte_streams::{Sink, Source};
use picky_asn1::wrapper::{IntegerAsn1, ObjectIdentifierAsn1, OctetStringAsn1};
use picky_asn1_der::{
    Asn1DerError, Deserializer, ExplicitContextTag0, ExplicitContextTag1, ExplicitContextTag2,
    Fields, Row1, Row3, Row4, Serializer, Tagged, fields_of, from_fields, read_sequence,
};

/// The AlgorithmIdentifier of a key derivation function, without parameters (RFC 8636, section 6).
///
/// ```text
/// AlgorithmIdentifier ::= SEQUENCE {
///      algorithm   OBJECT IDENTIFIER,
///      parameters  ANY DEFINED BY algorithm OPTIONAL }
/// ```
#[derive(Drop)]
pub struct KdfAlgorithm {
    /// The function's identifier.
    pub algorithm: ObjectIdentifierAsn1,
}

/// What both parties have seen in public (RFC 8636, section 6).
///
/// ```text
/// PkinitSuppPubInfo ::= SEQUENCE {
///      enctype     [0] Int32,
///      as-REQ      [1] OCTET STRING,
///      pk-as-rep   [2] OCTET STRING,
///      ... }
/// ```
#[derive(Drop)]
pub struct SuppPubInfo {
    /// The key's etype.
    pub enctype: ExplicitContextTag0<IntegerAsn1>,
    /// The encoding of the AS-REQ.
    pub as_req: ExplicitContextTag1<OctetStringAsn1>,
    /// The encoding of the PA-PK-AS-REP.
    pub pk_as_rep: ExplicitContextTag2<OctetStringAsn1>,
}

/// What a key is derived for, beside the shared secret (RFC 8636, section 6).
///
/// ```text
/// OtherInfo ::= SEQUENCE {
///      algorithmID   AlgorithmIdentifier,
///      partyUInfo    [0] OCTET STRING,
///      partyVInfo    [1] OCTET STRING,
///      suppPubInfo   [2] OCTET STRING OPTIONAL,
///      suppPrivInfo  [3] OCTET STRING OPTIONAL }
/// ```
#[derive(Drop)]
pub struct OtherInfo {
    /// The key derivation function.
    pub algorithm_id: KdfAlgorithm,
    /// The encoding of the client's KRB5PrincipalName.
    pub party_u_info: ExplicitContextTag0<OctetStringAsn1>,
    /// The encoding of the service's KRB5PrincipalName.
    pub party_v_info: ExplicitContextTag1<OctetStringAsn1>,
    /// The encoding of PkinitSuppPubInfo.
    pub supp_pub_info: ExplicitContextTag2<OctetStringAsn1>,
}

type KdfAlgorithmRow = Row1<ObjectIdentifierAsn1>;

impl Tagged for KdfAlgorithm {
    ghost use Rattle.std.proofs.Common.{ap, refl, true};
    ghost use Rattle.asn1_der.specs.Tagged.{sequence};
    ghost use Rattle.asn1_der.proofs.Tagged.{sequence_laws};

    type Row = KdfAlgorithmRow;

    const FIRST: u8 = SEQUENCE;

    ghost FIRST = { sequence_octet };

    ghost row_tree = { sequence ⟦<KdfAlgorithmRow as Fields>⟧.trees };

    ghost row_laws = { sequence_laws ⟦<KdfAlgorithmRow as Fields>⟧.trees (⟦<KdfAlgorithmRow as Fields>⟧.injective (refl {a = true})) };

    ghost row_of = { λ v. (v.algorithm, tt) };

    ghost one_row = { λ v w e. ap (λ f. record { algorithm = f.0 }) e };

    fn read_row<R: Source>(tag: u8, from: &mut Deserializer<R>) -> Result<Self::Row, Asn1DerError> {
        read_sequence(tag, from)
    }

    fn of_row(row: Self::Row) -> Self {
        from_fields![row; algorithm]
    }

    fn write_row<W: Sink>(&self, tag: u8, to: &mut Serializer<W>) -> Result<usize, Asn1DerError> {
        to.list(tag, &fields_of![self; algorithm])
    }
}

type SuppPubInfoRow = Row3<
    ExplicitContextTag0<IntegerAsn1>,
    ExplicitContextTag1<OctetStringAsn1>,
    ExplicitContextTag2<OctetStringAsn1>,
>;

impl Tagged for SuppPubInfo {
    ghost use Rattle.std.proofs.Common.{ap, refl, true};
    ghost use Rattle.asn1_der.specs.Tagged.{sequence};
    ghost use Rattle.asn1_der.proofs.Tagged.{sequence_laws};

    type Row = SuppPubInfoRow;

    const FIRST: u8 = SEQUENCE;

    ghost FIRST = { sequence_octet };

    ghost row_tree = { sequence ⟦<SuppPubInfoRow as Fields>⟧.trees };

    ghost row_laws = { sequence_laws ⟦<SuppPubInfoRow as Fields>⟧.trees (⟦<SuppPubInfoRow as Fields>⟧.injective (refl {a = true})) };

    ghost row_of = { λ v. (v.enctype, (v.as_req, (v.pk_as_rep, tt))) };

    ghost one_row = { λ v w e. ap (λ f. record { enctype = f.0; as_req = f.1.0; pk_as_rep = f.1.1.0 }) e };

    fn read_row<R: Source>(tag: u8, from: &mut Deserializer<R>) -> Result<Self::Row, Asn1DerError> {
        read_sequence(tag, from)
    }

    fn of_row(row: Self::Row) -> Self {
        from_fields![row; enctype, as_req, pk_as_rep]
    }

    fn write_row<W: Sink>(&self, tag: u8, to: &mut Serializer<W>) -> Result<usize, Asn1DerError> {
        to.list(tag, &fields_of![self; enctype, as_req, pk_as_rep])
    }
}

type OtherInfoRow = Row4<
    KdfAlgorithm,
    ExplicitContextTag0<OctetStringAsn1>,
    ExplicitContextTag1<OctetStringAsn1>,
    ExplicitContextTag2<OctetStringAsn1>,
>;

impl Tagged for OtherInfo {
    ghost use Rattle.std.proofs.Common.{ap, refl, true};
    ghost use Rattle.asn1_der.specs.Tagged.{sequence};
    ghost use Rattle.asn1_der.proofs.Tagged.{sequence_laws};

    type Row = OtherInfoRow;

    const FIRST: u8 = SEQUENCE;

    ghost FIRST = { sequence_octet };

    ghost row_tree = { sequence ⟦<OtherInfoRow as Fields>⟧.trees };

    ghost row_laws = { sequence_laws ⟦<OtherInfoRow as Fields>⟧.trees (⟦<OtherInfoRow as Fields>⟧.injective (refl {a = true})) };

    ghost row_of = { λ v. (v.algorithm_id, (v.party_u_info, (v.party_v_info, (v.supp_pub_info, tt)))) };

    ghost one_row = { λ v w e. ap (λ f. record { algorithm_id = f.0; party_u_info = f.1.0; party_v_info = f.1.1.0; supp_pub_info = f.1.1.1.0 }) e };

    fn read_row<R: Source>(tag: u8, from: &mut Deserializer<R>) -> Result<Self::Row, Asn1DerError> {
        read_sequence(tag, from)
    }

    fn of_row(row: Self::Row) -> Self {
        from_fields![row; algorithm_id, party_u_info, party_v_info, supp_pub_info]
    }

    fn write_row<W: Sink>(&self, tag: u8, to: &mut Serializer<W>) -> Result<usize, Asn1DerError> {
        to.list(
            tag,
            &fields_of![self; algorithm_id, party_u_info, party_v_info, supp_pub_info],
        )
    }
}
