//! Names of principals.
ghost use Rattle.std.specs.Prelude.{◌≡◌};
ghost use Rattle.asn1_der.specs.Octets.{sequence_octet};

use crate::data_types::KerberosStringAsn1;
use asn1_der::octets::SEQUENCE;
use byte_streams::{Sink, Source};
use picky_asn1::wrapper::{Asn1SequenceOf, IntegerAsn1};
use picky_asn1_der::{
    Asn1DerError, Deserializer, ExplicitContextTag, ExplicitContextTag0, ExplicitContextTag1,
    Fields, Row2, Serializer, Tagged, fields_of, from_fields, read_sequence,
};
use std::alloc::AllocError;

/// A name of a principal (RFC 4120, section 5.2.2): its type, which is a hint alone, and its components.
///
/// ```text
/// PrincipalName ::= SEQUENCE {
///      name-type     [0] Int32,
///      name-string   [1] SEQUENCE OF KerberosString }
/// ```
#[derive(Debug, PartialEq, Eq)]
pub struct PrincipalName {
    /// The name type (RFC 4120, section 6.2).
    pub name_type: ExplicitContextTag0<IntegerAsn1>,
    /// The components, in order.
    pub name_string: ExplicitContextTag1<Asn1SequenceOf<KerberosStringAsn1>>,
}

impl Drop for PrincipalName {
    fn drop(self) {
        let PrincipalName {
            name_type: _,
            name_string: _,
        } = self;
    }
}

impl Clone for PrincipalName {
    ghost is_clone = { λ name copy. copy ≡ name };

    fn clone(&self) -> Result<PrincipalName, AllocError> {
        let name_type = self.name_type.0.clone()?;
        let components = self.name_string.0.clone()?;
        Ok(PrincipalName {
            name_type: ExplicitContextTag(name_type),
            name_string: ExplicitContextTag(components),
        })
    }
}

type PrincipalNameRow = Row2<
    ExplicitContextTag0<IntegerAsn1>,
    ExplicitContextTag1<Asn1SequenceOf<KerberosStringAsn1>>,
>;

impl Tagged for PrincipalName {
    ghost use Rattle.std.proofs.Common.{ap, refl, true};
    ghost use Rattle.asn1_der.specs.Tagged.{sequence};
    ghost use Rattle.asn1_der.proofs.Tagged.{sequence_laws};

    type Row = PrincipalNameRow;

    const FIRST: u8 = SEQUENCE;

    ghost FIRST = { sequence_octet };

    ghost row_tree = { sequence ⟦<PrincipalNameRow as Fields>⟧.trees };

    ghost row_laws = { sequence_laws ⟦<PrincipalNameRow as Fields>⟧.trees (⟦<PrincipalNameRow as Fields>⟧.injective (refl {a = true})) };

    ghost row_of = { λ v. (v.name_type, (v.name_string, tt)) };

    ghost one_row = { λ v w e. ap (λ f. record { name_type = f.0; name_string = f.1.0 }) e };

    fn read_row<R: Source>(tag: u8, from: &mut Deserializer<R>) -> Result<Self::Row, Asn1DerError> {
        read_sequence(tag, from)
    }

    fn of_row(row: Self::Row) -> Self {
        from_fields![row; name_type, name_string]
    }

    fn write_row<W: Sink>(&self, tag: u8, to: &mut Serializer<W>) -> Result<usize, Asn1DerError> {
        to.list(tag, &fields_of![self; name_type, name_string])
    }
}
