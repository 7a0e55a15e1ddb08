//! Authorization data.
ghost use Rattle.asn1_der.specs.Octets.{sequence_octet};

use asn1_der::octets::SEQUENCE;
use byte_streams::{Sink, Source};
use picky_asn1::wrapper::{Asn1SequenceOf, IntegerAsn1, OctetStringAsn1};
use picky_asn1_der::{
    Asn1DerError, Deserializer, ExplicitContextTag0, ExplicitContextTag1, Fields, Row2, Serializer,
    Tagged, fields_of, from_fields, read_sequence,
};

/// One entry of authorization data (RFC 4120, section 5.2.6).
#[derive(Debug, PartialEq, Eq, Clone)]
pub struct AuthorizationDataInner {
    /// What the entry holds (RFC 4120, section 7.5.4); a negative type is for use within one site.
    pub ad_type: ExplicitContextTag0<IntegerAsn1>,
    /// The data of that type.
    pub ad_data: ExplicitContextTag1<OctetStringAsn1>,
}

impl Drop for AuthorizationDataInner {
    fn drop(self) {
        let AuthorizationDataInner {
            ad_type: _,
            ad_data: _,
        } = self;
    }
}

/// Authorization data (RFC 4120, section 5.2.6): entries that narrow what a ticket grants.
///
/// ```text
/// AuthorizationData ::= SEQUENCE OF SEQUENCE {
///      ad-type   [0] Int32,
///      ad-data   [1] OCTET STRING }
/// ```
pub type AuthorizationData = Asn1SequenceOf<AuthorizationDataInner>;

type AuthorizationDataInnerRow = Row2<
    ExplicitContextTag0<IntegerAsn1>,
    ExplicitContextTag1<OctetStringAsn1>,
>;

impl Tagged for AuthorizationDataInner {
    ghost use Rattle.std.proofs.Common.{ap, refl, true};
    ghost use Rattle.asn1_der.specs.Tagged.{sequence};
    ghost use Rattle.asn1_der.proofs.Tagged.{sequence_laws};

    type Row = AuthorizationDataInnerRow;

    const FIRST: u8 = SEQUENCE;

    ghost FIRST = { sequence_octet };

    ghost row_tree = { sequence ⟦<AuthorizationDataInnerRow as Fields>⟧.trees };

    ghost row_laws = { sequence_laws ⟦<AuthorizationDataInnerRow as Fields>⟧.trees (⟦<AuthorizationDataInnerRow as Fields>⟧.injective (refl {a = true})) };

    ghost row_of = { λ v. (v.ad_type, (v.ad_data, tt)) };

    ghost one_row = { λ v w e. ap (λ f. record { ad_type = f.0; ad_data = f.1.0 }) e };

    fn read_row<R: Source>(tag: u8, from: &mut Deserializer<R>) -> Result<Self::Row, Asn1DerError> {
        read_sequence(tag, from)
    }

    fn of_row(row: Self::Row) -> Self {
        from_fields![row; ad_type, ad_data]
    }

    fn write_row<W: Sink>(&self, tag: u8, to: &mut Serializer<W>) -> Result<usize, Asn1DerError> {
        to.list(tag, &fields_of![self; ad_type, ad_data])
    }
}
