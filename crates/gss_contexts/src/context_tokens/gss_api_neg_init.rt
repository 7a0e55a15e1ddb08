//! The first token of a negotiation, as the GSS-API frames it.
ghost use Rattle.asn1_der.specs.Octets.{sequence_octet};

use crate::context_tokens::neg_token_init::NegTokenInit;
use asn1_der::octets::SEQUENCE;
use byte_streams::{Sink, Source};
use picky_asn1::wrapper::ObjectIdentifierAsn1;
use picky_asn1_der::{
    Asn1DerError, Deserializer, ExplicitContextTag0, Fields, Row2, Serializer, Tagged, fields_of,
    from_fields, read_sequence,
};

/// The mechanism SPNEGO, and what a client offers (RFC 2743, section 3.1; RFC 4178, section 4.2). It is under the tag
/// of [`ApplicationTag0`](crate::context_tokens::application_tag0::ApplicationTag0).
///
/// ```text
/// InitialContextToken ::= [APPLICATION 0] IMPLICIT SEQUENCE {
///      thisMech            MechType,
///      innerContextToken   ANY DEFINED BY thisMech }
///
/// NegotiationToken ::= CHOICE {
///      negTokenInit   [0] NegTokenInit,
///      negTokenResp   [1] NegTokenResp }
/// ```
#[derive(Debug, Drop, PartialEq, Eq)]
pub struct GssApiNegInit {
    /// The mechanism.
    pub oid: ObjectIdentifierAsn1,
    /// The offer of the client.
    pub neg_token_init: ExplicitContextTag0<NegTokenInit>,
}

type GssApiNegInitRow = Row2<ObjectIdentifierAsn1, ExplicitContextTag0<NegTokenInit>>;

impl Tagged for GssApiNegInit {
    ghost use Rattle.std.proofs.Common.{ap, refl, true};
    ghost use Rattle.asn1_der.specs.Tagged.{sequence};
    ghost use Rattle.asn1_der.proofs.Tagged.{sequence_laws};

    type Row = GssApiNegInitRow;

    const FIRST: u8 = SEQUENCE;

    ghost FIRST = { sequence_octet };

    ghost row_tree = { sequence ⟦<GssApiNegInitRow as Fields>⟧.trees };

    ghost row_laws = { sequence_laws ⟦<GssApiNegInitRow as Fields>⟧.trees (⟦<GssApiNegInitRow as Fields>⟧.injective (refl {a = true})) };

    ghost row_of = { λ v. (v.oid, (v.neg_token_init, tt)) };

    ghost one_row = { λ v w e. ap (λ f. record { oid = f.0; neg_token_init = f.1.0 }) e };

    fn read_row<R: Source>(tag: u8, from: &mut Deserializer<R>) -> Result<Self::Row, Asn1DerError> {
        read_sequence(tag, from)
    }

    fn of_row(row: Self::Row) -> Self {
        from_fields![row; oid, neg_token_init]
    }

    fn write_row<W: Sink>(&self, tag: u8, to: &mut Serializer<W>) -> Result<usize, Asn1DerError> {
        to.list(tag, &fields_of![self; oid, neg_token_init])
    }
}
