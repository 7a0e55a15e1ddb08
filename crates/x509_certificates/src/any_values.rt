//! Values of any type (RFC 2986, section 4.1).
ghost use Rattle.std.specs.Prelude.{◌≡◌, MatchResult};
ghost use Rattle.asn1_der.specs.Octets.{set_octet};

use asn1_der::octets::SET;
use byte_streams::{Sink, Source};
use picky_asn1::wrapper::Asn1SetOf;
use picky_asn1_der::{Asn1DerError, Deserializer, Elements, RawElement, Serializer, Tagged};
use std::alloc::AllocError;
use x509_spelling::Exact;

/// The values of an attribute that isn't known here. Their order is kept as given, and none is read too.
///
/// ```text
/// values     SET SIZE(1..MAX) OF ATTRIBUTE.&Type
/// ```
#[derive(Debug, Drop, PartialEq, Eq)]
pub struct AnyValues(pub Asn1SetOf<RawElement>);

impl Clone for AnyValues {
    ghost is_clone = { λ values copy. copy ≡ values };

    fn clone(&self) -> Result<AnyValues, AllocError> {
        let values = self.0.clone()?;
        Ok(AnyValues(values))
    }
}

impl Tagged for AnyValues {
    type Row = Elements<RawElement>;

    const FIRST: u8 = SET;

    ghost FIRST = { set_octet };

    ghost row_tree = { ⟦<Asn1SetOf<RawElement> as Tagged>⟧.row_tree };

    ghost row_laws = { ⟦<Asn1SetOf<RawElement> as Tagged>⟧.row_laws };

    ghost row_of = { λ v. v.0 };

    ghost one_row = { λ v w e. λ i. record { 0 = e i } };

    fn read_row<R: Source>(tag: u8, from: &mut Deserializer<R>) -> Result<Self::Row, Asn1DerError> {
        Asn1SetOf::<RawElement>::read_row(tag, from)
    }

    fn of_row(row: Self::Row) -> Self {
        AnyValues(Asn1SetOf::of_row(row))
    }

    fn write_row<W: Sink>(&self, tag: u8, to: &mut Serializer<W>) -> Result<usize, Asn1DerError> {
        self.0.write_row(tag, to)
    }
}

impl Exact for AnyValues {
    ghost plain = { tt };
}
