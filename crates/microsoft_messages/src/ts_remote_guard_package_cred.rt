//! Credentials of one package.
ghost use Rattle.asn1_der.specs.Octets.{sequence_octet};

use asn1_der::octets::SEQUENCE;
use byte_streams::{Sink, Source};
use picky_asn1::wrapper::OctetStringAsn1;
use picky_asn1_der::{
    Asn1DerError, Deserializer, ExplicitContextTag0, ExplicitContextTag1, Fields, Row2, Serializer,
    Tagged, fields_of, from_fields, read_sequence,
};

/// Credentials of one package of remote guard (MS-CSSP, section 2.2.1.2.3.1).
///
/// ```text
/// TSRemoteGuardPackageCred ::= SEQUENCE {
///      packageName   [0] OCTET STRING,
///      credBuffer    [1] OCTET STRING }
/// ```
#[derive(Debug, Drop, PartialEq, Eq, Clone)]
pub struct TsRemoteGuardPackageCred {
    /// The package, in UTF-16.
    pub package_name: ExplicitContextTag0<OctetStringAsn1>,
    /// Its credentials, in a form of its own.
    pub cred_buffer: ExplicitContextTag1<OctetStringAsn1>,
}

type TsRemoteGuardPackageCredRow = Row2<
    ExplicitContextTag0<OctetStringAsn1>,
    ExplicitContextTag1<OctetStringAsn1>,
>;

impl Tagged for TsRemoteGuardPackageCred {
    ghost use Rattle.std.proofs.Common.{ap, refl, true};
    ghost use Rattle.asn1_der.specs.Tagged.{sequence};
    ghost use Rattle.asn1_der.proofs.Tagged.{sequence_laws};

    type Row = TsRemoteGuardPackageCredRow;

    const FIRST: u8 = SEQUENCE;

    ghost FIRST = { sequence_octet };

    ghost row_tree = { sequence ⟦<TsRemoteGuardPackageCredRow as Fields>⟧.trees };

    ghost row_laws = { sequence_laws ⟦<TsRemoteGuardPackageCredRow as Fields>⟧.trees (⟦<TsRemoteGuardPackageCredRow as Fields>⟧.injective (refl {a = true})) };

    ghost row_of = { λ v. (v.package_name, (v.cred_buffer, tt)) };

    ghost one_row = { λ v w e. ap (λ f. record { package_name = f.0; cred_buffer = f.1.0 }) e };

    fn read_row<R: Source>(tag: u8, from: &mut Deserializer<R>) -> Result<Self::Row, Asn1DerError> {
        read_sequence(tag, from)
    }

    fn of_row(row: Self::Row) -> Self {
        from_fields![row; package_name, cred_buffer]
    }

    fn write_row<W: Sink>(&self, tag: u8, to: &mut Serializer<W>) -> Result<usize, Asn1DerError> {
        to.list(tag, &fields_of![self; package_name, cred_buffer])
    }
}
