//! The tokens of a negotiation behind the first.
ghost use Rattle.asn1_der.specs.Octets.{sequence_octet};

use crate::context_tokens::mech_type::MechType;
use asn1_der::octets::SEQUENCE;
use byte_streams::{Sink, Source};
use picky_asn1::wrapper::OctetStringAsn1;
use picky_asn1_der::{
    Asn1DerError, Asn1RawDer, Deserializer, ExplicitContextTag0, ExplicitContextTag1,
    ExplicitContextTag2, ExplicitContextTag3, Fields, Optional, Row4, Serializer, Tagged,
    fields_of, from_fields, read_sequence,
};

/// What a service answers, and a client from then on (RFC 4178, section 4.2.2, where it is called NegTokenResp).
///
/// ```text
/// NegTokenResp ::= SEQUENCE {
///      negState        [0] ENUMERATED {
///          accept-completed    (0),
///          accept-incomplete   (1),
///          reject              (2),
///          request-mic         (3) } OPTIONAL,
///      supportedMech   [1] MechType     OPTIONAL,
///      responseToken   [2] OCTET STRING OPTIONAL,
///      mechListMIC     [3] OCTET STRING OPTIONAL,
///      ... }
/// ```
#[derive(Debug, Drop, PartialEq, Eq)]
pub struct NegTokenTarg {
    /// Where the negotiation stands, as any one element.
    pub neg_result: Optional<Option<ExplicitContextTag0<Asn1RawDer>>>,
    /// The mechanism that the service takes.
    pub supported_mech: Optional<Option<ExplicitContextTag1<MechType>>>,
    /// The mechanism's token.
    pub response_token: Optional<Option<ExplicitContextTag2<OctetStringAsn1>>>,
    /// A checksum of the list of mechanisms.
    pub mech_list_mic: Optional<Option<ExplicitContextTag3<OctetStringAsn1>>>,
}

/// The answer as the second alternative of a NegotiationToken (RFC 4178, section 4.2).
pub type NegTokenTarg1 = ExplicitContextTag1<NegTokenTarg>;

type NegTokenTargRow = Row4<
    Optional<Option<ExplicitContextTag0<Asn1RawDer>>>,
    Optional<Option<ExplicitContextTag1<MechType>>>,
    Optional<Option<ExplicitContextTag2<OctetStringAsn1>>>,
    Optional<Option<ExplicitContextTag3<OctetStringAsn1>>>,
>;

impl Tagged for NegTokenTarg {
    ghost use Rattle.std.proofs.Common.{ap, refl, true};
    ghost use Rattle.asn1_der.specs.Tagged.{sequence};
    ghost use Rattle.asn1_der.proofs.Tagged.{sequence_laws};

    type Row = NegTokenTargRow;

    const FIRST: u8 = SEQUENCE;

    ghost FIRST = { sequence_octet };

    ghost row_tree = { sequence ⟦<NegTokenTargRow as Fields>⟧.trees };

    ghost row_laws = { sequence_laws ⟦<NegTokenTargRow as Fields>⟧.trees (⟦<NegTokenTargRow as Fields>⟧.injective (refl {a = true})) };

    ghost row_of = { λ v. (v.neg_result, (v.supported_mech, (v.response_token, (v.mech_list_mic, tt)))) };

    ghost one_row = { λ v w e. ap (λ f. record { neg_result = f.0; supported_mech = f.1.0; response_token = f.1.1.0; mech_list_mic = f.1.1.1.0 }) e };

    fn read_row<R: Source>(tag: u8, from: &mut Deserializer<R>) -> Result<Self::Row, Asn1DerError> {
        read_sequence(tag, from)
    }

    fn of_row(row: Self::Row) -> Self {
        from_fields![row; neg_result, supported_mech, response_token, mech_list_mic]
    }

    fn write_row<W: Sink>(&self, tag: u8, to: &mut Serializer<W>) -> Result<usize, Asn1DerError> {
        to.list(
            tag,
            &fields_of![self; neg_result, supported_mech, response_token, mech_list_mic],
        )
    }
}
