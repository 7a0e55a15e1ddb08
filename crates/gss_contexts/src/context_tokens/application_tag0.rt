//! The application tag of a first token of the GSS-API.
ghost use Rattle.std.specs.Prelude.{◌≡◌};
ghost use Rattle.krb_constants.specs.declared.gss_api.TheConstants.{INITIAL_TOKEN};

use byte_streams::{Sink, Source};
use krb_constants::gss_api::INITIAL_TOKEN;
use picky_asn1_der::{Asn1DerError, Deserializer, Serializer, Tagged};

/// A value under the constructed application tag 0 in place of its own (RFC 2743, section 3.1): the value's content
/// follows the tag. Its first octet is 0x60.
#[derive(Debug, Drop, PartialEq, Eq)]
pub struct ApplicationTag0<T>(pub T);

impl<T: Tagged> Tagged for ApplicationTag0<T> {
    ghost use Rattle.std.specs.Prelude.{refl};
    ghost use Rattle.asn1_der.specs.Seen.{seen_part};
    ghost use Rattle.asn1_der.proofs.Alike.{alike-part};

    type Row = T::Row;

    const FIRST: u8 = INITIAL_TOKEN;

    ghost FIRST = { INITIAL_TOKEN };

    ghost row_tree = { T.row_tree };

    ghost row_seen = { T.row_seen };

    ghost seen = { seen_part (λ value. value.0) T.seen };

    ghost row_laws = { T.row_laws };

    ghost row_of = { λ value. T.row_of value.0 };

    ghost use Rattle.asn1_der.specs.Refusals.{part_refusal};

    ghost refuses = { part_refusal (λ value. value.0) T.refuses };

    ghost one_row = { λ v w e. alike-part T.seen v w (λ value. value.0) (λ held. record { 0 = held }) (λ value. refl) (T.one_row v.0 w.0 e) };

    fn read_row<R: Source>(tag: u8, from: &mut Deserializer<R>) -> Result<Self::Row, Asn1DerError> {
        T::read_row(tag, from)
    }

    fn of_row(row: Self::Row) -> Self {
        ApplicationTag0(T::of_row(row))
    }

    fn write_row<W: Sink>(&self, tag: u8, to: &mut Serializer<W>) -> Result<usize, Asn1DerError> {
        self.0.write_row(tag, to)
    }
}
