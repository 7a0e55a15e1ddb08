//! Groups of Diffie and Hellman.
ghost use Rattle.asn1_der.specs.Octets.{sequence_octet};

use crate::validation_params::ValidationParams;
use asn1_der::octets::SEQUENCE;
use byte_streams::{Sink, Source};
use picky_asn1::wrapper::IntegerAsn1;
use picky_asn1_der::{
    Asn1DerError, Deserializer, Fields, LentFields, Optional, RecordFields, Row5, Serializer,
    Tagged, fields_of, from_fields, read_sequence,
};
use std::alloc::AllocError;

/// A group in which Diffie and Hellman's agreement is made (RFC 3279, section 2.3.3).
///
/// ```text
/// DomainParameters ::= SEQUENCE {
///      p                INTEGER,
///      g                INTEGER,
///      q                INTEGER,
///      j                INTEGER OPTIONAL,
///      validationParms  ValidationParms OPTIONAL }
/// ```
#[derive(Debug, Drop, PartialEq, Eq)]
pub struct DhDomainParameters {
    /// The prime, p = jq + 1.
    pub p: IntegerAsn1,
    /// The generator.
    pub g: IntegerAsn1,
    /// The factor of p - 1 that is the group's order.
    pub q: IntegerAsn1,
    /// The other factor.
    pub j: Optional<Option<IntegerAsn1>>,
    /// How the prime was made.
    pub validation_params: Optional<Option<ValidationParams>>,
}

type DhDomainParametersRow = Row5<
    IntegerAsn1,
    IntegerAsn1,
    IntegerAsn1,
    Optional<Option<IntegerAsn1>>,
    Optional<Option<ValidationParams>>,
>;

impl Clone for DhDomainParameters {
    ghost is_clone = { λ value copy. ⟦<DhDomainParametersRow as RecordFields>⟧.are_copies (⟦<DhDomainParameters as Tagged>⟧.row_of value) (⟦<DhDomainParameters as Tagged>⟧.row_of copy) };

    fn clone(&self) -> Result<DhDomainParameters, AllocError> {
        let fields = fields_of![self; p, g, q, j, validation_params].copied()?;
        Ok(DhDomainParameters::of_row(fields))
    }
}

impl Tagged for DhDomainParameters {
    ghost use Rattle.std.proofs.Common.{ap, refl, true};
    ghost use Rattle.asn1_der.specs.Tagged.{sequence};
    ghost use Rattle.asn1_der.proofs.Tagged.{sequence_laws};

    type Row = DhDomainParametersRow;

    const FIRST: u8 = SEQUENCE;

    ghost FIRST = { sequence_octet };

    ghost row_tree = { sequence ⟦<DhDomainParametersRow as Fields>⟧.trees };

    ghost row_laws = { sequence_laws ⟦<DhDomainParametersRow as Fields>⟧.trees (⟦<DhDomainParametersRow as Fields>⟧.injective (refl {a = true})) };

    ghost row_of = { λ v. (v.p, (v.g, (v.q, (v.j, (v.validation_params, tt))))) };

    ghost one_row = { λ v w e. ap (λ f. record { p = f.0; g = f.1.0; q = f.1.1.0; j = f.1.1.1.0; validation_params = f.1.1.1.1.0 }) e };

    fn read_row<R: Source>(tag: u8, from: &mut Deserializer<R>) -> Result<Self::Row, Asn1DerError> {
        read_sequence(tag, from)
    }

    fn of_row(row: Self::Row) -> Self {
        from_fields![row; p, g, q, j, validation_params]
    }

    fn write_row<W: Sink>(&self, tag: u8, to: &mut Serializer<W>) -> Result<usize, Asn1DerError> {
        to.list(tag, &fields_of![self; p, g, q, j, validation_params])
    }
}
