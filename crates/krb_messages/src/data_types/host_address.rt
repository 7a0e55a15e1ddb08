//! Addresses of hosts.
ghost use Rattle.asn1_der.specs.Octets.{sequence_octet};

use asn1_der::octets::SEQUENCE;
use byte_streams::{Sink, Source};
use picky_asn1::wrapper::{Asn1SequenceOf, IntegerAsn1, OctetStringAsn1};
use picky_asn1_der::{
    Asn1DerError, Deserializer, ExplicitContextTag0, ExplicitContextTag1, Fields, Row2, Serializer,
    Tagged, fields_of, from_fields, read_sequence,
};

/// An address of a host (RFC 4120, section 5.2.5).
///
/// ```text
/// HostAddress ::= SEQUENCE {
///      addr-type   [0] Int32,
///      address     [1] OCTET STRING }
/// ```
#[derive(Debug, PartialEq, Eq, Clone)]
pub struct HostAddress {
    /// The address type (RFC 4120, section 7.5.3).
    pub addr_type: ExplicitContextTag0<IntegerAsn1>,
    /// The address.
    pub address: ExplicitContextTag1<OctetStringAsn1>,
}

impl Drop for HostAddress {
    fn drop(self) {
        let HostAddress {
            addr_type: _,
            address: _,
        } = self;
    }
}

/// A list of addresses (RFC 4120, section 5.2.5).
///
/// ```text
/// HostAddresses ::= SEQUENCE OF HostAddress
/// ```
pub type HostAddresses = Asn1SequenceOf<HostAddress>;

type HostAddressRow = Row2<ExplicitContextTag0<IntegerAsn1>, ExplicitContextTag1<OctetStringAsn1>>;

impl Tagged for HostAddress {
    ghost use Rattle.std.proofs.Common.{ap, refl, true};
    ghost use Rattle.asn1_der.specs.Tagged.{sequence};
    ghost use Rattle.asn1_der.proofs.Tagged.{sequence_laws};

    type Row = HostAddressRow;

    const FIRST: u8 = SEQUENCE;

    ghost FIRST = { sequence_octet };

    ghost row_tree = { sequence ⟦<HostAddressRow as Fields>⟧.trees };

    ghost row_laws = { sequence_laws ⟦<HostAddressRow as Fields>⟧.trees (⟦<HostAddressRow as Fields>⟧.injective (refl {a = true})) };

    ghost row_of = { λ v. (v.addr_type, (v.address, tt)) };

    ghost one_row = { λ v w e. ap (λ f. record { addr_type = f.0; address = f.1.0 }) e };

    fn read_row<R: Source>(tag: u8, from: &mut Deserializer<R>) -> Result<Self::Row, Asn1DerError> {
        read_sequence(tag, from)
    }

    fn of_row(row: Self::Row) -> Self {
        from_fields![row; addr_type, address]
    }

    fn write_row<W: Sink>(&self, tag: u8, to: &mut Serializer<W>) -> Result<usize, Asn1DerError> {
        to.list(tag, &fields_of![self; addr_type, address])
    }
}
