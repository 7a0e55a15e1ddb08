//! The first token of a negotiation.
ghost use Rattle.asn1_der.specs.Octets.{sequence_octet};

use crate::context_tokens::mech_type::MechTypeList;
use asn1_der::octets::SEQUENCE;
use byte_streams::{Sink, Source};
use picky_asn1::wrapper::{BitStringAsn1, OctetStringAsn1};
use picky_asn1_der::{
    Asn1DerError, Deserializer, ExplicitContextTag0, ExplicitContextTag1, ExplicitContextTag2,
    ExplicitContextTag3, Fields, Optional, Row4, Serializer, Tagged, fields_of, from_fields,
    read_sequence,
};

/// NegTokenInit: the offer of a client (RFC 4178, section 4.2.1).
///
/// ```text
/// NegTokenInit ::= SEQUENCE {
///      mechTypes     [0] MechTypeList,
///      reqFlags      [1] ContextFlags OPTIONAL,
///      mechToken     [2] OCTET STRING OPTIONAL,
///      mechListMIC   [3] OCTET STRING OPTIONAL,
///      ... }
/// ```
#[derive(Debug, Drop, PartialEq, Eq)]
pub struct NegTokenInit {
    /// The mechanisms, the best first. Tokens without them are read too (RFC 2478, section 3.2.1).
    pub mech_types: Optional<Option<ExplicitContextTag0<MechTypeList>>>,
    /// The flags of the context that are asked for.
    pub req_flags: Optional<Option<ExplicitContextTag1<BitStringAsn1>>>,
    /// The first token of the first mechanism.
    pub mech_token: Optional<Option<ExplicitContextTag2<OctetStringAsn1>>>,
    /// A checksum of the list of mechanisms.
    pub mech_list_mic: Optional<Option<ExplicitContextTag3<OctetStringAsn1>>>,
}

type NegTokenInitRow = Row4<
    Optional<Option<ExplicitContextTag0<MechTypeList>>>,
    Optional<Option<ExplicitContextTag1<BitStringAsn1>>>,
    Optional<Option<ExplicitContextTag2<OctetStringAsn1>>>,
    Optional<Option<ExplicitContextTag3<OctetStringAsn1>>>,
>;

impl Tagged for NegTokenInit {
    ghost use Rattle.std.proofs.Common.{ap, refl, true};
    ghost use Rattle.asn1_der.specs.Tagged.{sequence};
    ghost use Rattle.asn1_der.proofs.Tagged.{sequence_laws};

    type Row = NegTokenInitRow;

    const FIRST: u8 = SEQUENCE;

    ghost FIRST = { sequence_octet };

    ghost row_tree = { sequence ⟦<NegTokenInitRow as Fields>⟧.trees };

    ghost row_laws = { sequence_laws ⟦<NegTokenInitRow as Fields>⟧.trees (⟦<NegTokenInitRow as Fields>⟧.injective (refl {a = true})) };

    ghost row_of = { λ v. (v.mech_types, (v.req_flags, (v.mech_token, (v.mech_list_mic, tt)))) };

    ghost one_row = { λ v w e. ap (λ f. record { mech_types = f.0; req_flags = f.1.0; mech_token = f.1.1.0; mech_list_mic = f.1.1.1.0 }) e };

    fn read_row<R: Source>(tag: u8, from: &mut Deserializer<R>) -> Result<Self::Row, Asn1DerError> {
        read_sequence(tag, from)
    }

    fn of_row(row: Self::Row) -> Self {
        from_fields![row; mech_types, req_flags, mech_token, mech_list_mic]
    }

    fn write_row<W: Sink>(&self, tag: u8, to: &mut Serializer<W>) -> Result<usize, Asn1DerError> {
        to.list(
            tag,
            &fields_of![self; mech_types, req_flags, mech_token, mech_list_mic],
        )
    }
}
