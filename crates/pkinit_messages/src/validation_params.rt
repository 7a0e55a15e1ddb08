//! The seed and the counter of a Diffie-Hellman prime.
ghost use Rattle.asn1_der.specs.Octets.{sequence_octet};

use asn1_der::octets::SEQUENCE;
use byte_streams::{Sink, Source};
use picky_asn1::wrapper::{BitStringAsn1, IntegerAsn1};
use picky_asn1_der::{
    Asn1DerError, Deserializer, Fields, Row2, Serializer, Tagged, fields_of, from_fields,
    read_sequence,
};

/// The seed and the counter by which a Diffie-Hellman prime can be generated again (RFC 3279, section 2.3.3). A value is made by
/// reading alone.
///
/// ```text
/// ValidationParms ::= SEQUENCE {
///      seed         BIT STRING,
///      pgenCounter  INTEGER }
/// ```
#[derive(Debug, Drop, PartialEq, Eq, Clone)]
pub struct ValidationParams {
    seed: BitStringAsn1,
    pg_gen_counter: IntegerAsn1,
}

type ValidationParamsRow = Row2<BitStringAsn1, IntegerAsn1>;

impl Tagged for ValidationParams {
    ghost use Rattle.std.proofs.Common.{ap, refl, true};
    ghost use Rattle.asn1_der.specs.Tagged.{sequence};
    ghost use Rattle.asn1_der.proofs.Tagged.{sequence_laws};

    type Row = ValidationParamsRow;

    const FIRST: u8 = SEQUENCE;

    ghost FIRST = { sequence_octet };

    ghost row_tree = { sequence ⟦<ValidationParamsRow as Fields>⟧.trees };

    ghost row_laws = { sequence_laws ⟦<ValidationParamsRow as Fields>⟧.trees (⟦<ValidationParamsRow as Fields>⟧.injective (refl {a = true})) };

    ghost row_of = { λ v. (v.seed, (v.pg_gen_counter, tt)) };

    ghost one_row = { λ v w e. ap (λ f. record { seed = f.0; pg_gen_counter = f.1.0 }) e };

    fn read_row<R: Source>(tag: u8, from: &mut Deserializer<R>) -> Result<Self::Row, Asn1DerError> {
        read_sequence(tag, from)
    }

    fn of_row(row: Self::Row) -> Self {
        from_fields![row; seed, pg_gen_counter]
    }

    fn write_row<W: Sink>(&self, tag: u8, to: &mut Serializer<W>) -> Result<usize, Asn1DerError> {
        to.list(tag, &fields_of![self; seed, pg_gen_counter])
    }
}
