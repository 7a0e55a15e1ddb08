//! Names of partners of electronic data interchange (RFC 5280, section 4.2.1.6).
ghost use Rattle.std.specs.Prelude.{◌≡◌, MatchResult};
ghost use Rattle.asn1_der.specs.Octets.{sequence_octet};

use crate::DirectoryString;
use asn1_der::octets::SEQUENCE;
use byte_streams::{Sink, Source};
use picky_asn1::wrapper::{ExplicitContextTag, ExplicitContextTag0, ExplicitContextTag1, Optional};
use picky_asn1_der::{
    Asn1DerError, Deserializer, Fields, Row2, Serializer, Tagged, fields_of, from_fields,
    read_sequence,
};
use std::alloc::AllocError;
use x509_spelling::Exact;

/// A partner of electronic data interchange.
///
/// ```text
/// EDIPartyName ::= SEQUENCE {
///      nameAssigner            [0]     DirectoryString OPTIONAL,
///      partyName               [1]     DirectoryString }
/// ```
#[derive(Debug, Drop, PartialEq, Eq)]
pub struct EdiPartyName {
    /// Who assigned the name.
    pub name_assigner: Optional<Option<ExplicitContextTag0<DirectoryString>>>,
    /// The partner's name.
    pub party_name: ExplicitContextTag1<DirectoryString>,
}

impl Clone for EdiPartyName {
    ghost is_clone = { λ name copy. copy ≡ name };

    fn clone(&self) -> Result<EdiPartyName, AllocError> {
        let name_assigner = match &self.name_assigner.0 {
            Some(name) => Some(ExplicitContextTag(name.0.clone()?)),
            None => None,
        };
        let party_name = self.party_name.0.clone()?;
        Ok(EdiPartyName {
            name_assigner: Optional(name_assigner),
            party_name: ExplicitContextTag(party_name),
        })
    }
}

type EdiPartyNameRow = Row2<
    Optional<Option<ExplicitContextTag0<DirectoryString>>>,
    ExplicitContextTag1<DirectoryString>,
>;

impl Tagged for EdiPartyName {
    ghost use Rattle.std.proofs.Common.{ap, refl, true};
    ghost use Rattle.asn1_der.specs.Tagged.{sequence};
    ghost use Rattle.asn1_der.proofs.Tagged.{sequence_laws};

    type Row = EdiPartyNameRow;

    const FIRST: u8 = SEQUENCE;

    ghost FIRST = { sequence_octet };

    ghost row_tree = { sequence ⟦<EdiPartyNameRow as Fields>⟧.trees };

    ghost row_laws = { sequence_laws ⟦<EdiPartyNameRow as Fields>⟧.trees (⟦<EdiPartyNameRow as Fields>⟧.injective (refl {a = true})) };

    ghost row_of = { λ v. (v.name_assigner, (v.party_name, tt)) };

    ghost one_row = { λ v w e. ap (λ f. record { name_assigner = f.0; party_name = f.1.0 }) e };

    fn read_row<R: Source>(tag: u8, from: &mut Deserializer<R>) -> Result<Self::Row, Asn1DerError> {
        read_sequence(tag, from)
    }

    fn of_row(row: Self::Row) -> Self {
        from_fields![row; name_assigner, party_name]
    }

    fn write_row<W: Sink>(&self, tag: u8, to: &mut Serializer<W>) -> Result<usize, Asn1DerError> {
        to.list(tag, &fields_of![self; name_assigner, party_name])
    }
}

impl Exact for EdiPartyName {
    ghost plain = { tt };
}
