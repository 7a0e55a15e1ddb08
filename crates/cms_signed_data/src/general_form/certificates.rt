//! The certificates of signed data, whatever they are (RFC 5652, section 10.2.3).
ghost use Rattle.asn1_der.specs.Octets.{context_0_octet};

use asn1_der::octets::CONTEXT_0;
use byte_streams::{Sink, Source};
use picky_asn1::wrapper::Asn1SetOf;
use picky_asn1_der::{Asn1DerError, Asn1RawDer, Deserializer, Elements, Serializer, Tagged};

/// The certificates as whole elements, in their order.
///
/// ```text
/// certificates [0] IMPLICIT CertificateSet
///
/// CertificateSet ::= SET OF CertificateChoices
/// ```
#[derive(Drop)]
pub struct CertificateElements(pub Asn1SetOf<Asn1RawDer>);

impl Tagged for CertificateElements {
    type Row = Elements<Asn1RawDer>;

    const FIRST: u8 = CONTEXT_0;

    ghost FIRST = { context_0_octet };

    ghost row_tree = { ⟦<Asn1SetOf<Asn1RawDer> as Tagged>⟧.row_tree };

    ghost row_laws = { ⟦<Asn1SetOf<Asn1RawDer> as Tagged>⟧.row_laws };

    ghost row_of = { λ v. v.0 };

    ghost one_row = { λ v w e. λ i. record { 0 = e i } };

    fn read_row<R: Source>(tag: u8, from: &mut Deserializer<R>) -> Result<Self::Row, Asn1DerError> {
        Asn1SetOf::<Asn1RawDer>::read_row(tag, from)
    }

    fn of_row(row: Self::Row) -> Self {
        CertificateElements(Asn1SetOf::of_row(row))
    }

    fn write_row<W: Sink>(&self, tag: u8, to: &mut Serializer<W>) -> Result<usize, Asn1DerError> {
        self.0.write_row(tag, to)
    }
}
