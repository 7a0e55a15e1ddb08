//! Credentials of remote guard.
ghost use Rattle.asn1_der.specs.Octets.{sequence_octet};

use crate::ts_remote_guard_package_cred::TsRemoteGuardPackageCred;
use asn1_der::octets::SEQUENCE;
use byte_streams::{Sink, Source};
use picky_asn1::wrapper::Asn1SequenceOf;
use picky_asn1_der::{
    Asn1DerError, Deserializer, ExplicitContextTag0, ExplicitContextTag1, Fields, Optional, Row2,
    Serializer, Tagged, fields_of, from_fields, read_sequence,
};

/// Credentials of remote guard (MS-CSSP, section 2.2.1.2.3).
///
/// ```text
/// TSRemoteGuardCreds ::= SEQUENCE {
///      logonCred           [0] TSRemoteGuardPackageCred,
///      supplementalCreds   [1] SEQUENCE OF TSRemoteGuardPackageCred OPTIONAL }
/// ```
#[derive(Debug, Drop, PartialEq, Eq, Clone)]
pub struct TsRemoteGuardCreds {
    /// The login's credentials.
    pub logon_cred: ExplicitContextTag0<TsRemoteGuardPackageCred>,
    /// Further ones.
    pub supplemental_creds: Optional<
        Option<ExplicitContextTag1<Asn1SequenceOf<TsRemoteGuardPackageCred>>>,
    >,
}

type TsRemoteGuardCredsRow = Row2<
    ExplicitContextTag0<TsRemoteGuardPackageCred>,
    Optional<Option<ExplicitContextTag1<Asn1SequenceOf<TsRemoteGuardPackageCred>>>>,
>;

impl Tagged for TsRemoteGuardCreds {
    ghost use Rattle.std.proofs.Common.{ap, refl, true};
    ghost use Rattle.asn1_der.specs.Tagged.{sequence};
    ghost use Rattle.asn1_der.proofs.Tagged.{sequence_laws};

    type Row = TsRemoteGuardCredsRow;

    const FIRST: u8 = SEQUENCE;

    ghost FIRST = { sequence_octet };

    ghost row_tree = { sequence ⟦<TsRemoteGuardCredsRow as Fields>⟧.trees };

    ghost row_laws = { sequence_laws ⟦<TsRemoteGuardCredsRow as Fields>⟧.trees (⟦<TsRemoteGuardCredsRow as Fields>⟧.injective (refl {a = true})) };

    ghost row_of = { λ v. (v.logon_cred, (v.supplemental_creds, tt)) };

    ghost one_row = { λ v w e. ap (λ f. record { logon_cred = f.0; supplemental_creds = f.1.0 }) e };

    fn read_row<R: Source>(tag: u8, from: &mut Deserializer<R>) -> Result<Self::Row, Asn1DerError> {
        read_sequence(tag, from)
    }

    fn of_row(row: Self::Row) -> Self {
        from_fields![row; logon_cred, supplemental_creds]
    }

    fn write_row<W: Sink>(&self, tag: u8, to: &mut Serializer<W>) -> Result<usize, Asn1DerError> {
        to.list(tag, &fields_of![self; logon_cred, supplemental_creds])
    }
}
