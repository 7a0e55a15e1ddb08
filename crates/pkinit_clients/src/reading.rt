//! Reads PA-PK-AS-REP and KDCDHKeyInfo.
ghost use Rattle.std.specs.Prelude.{IfOk};
ghost use Rattle.picky_asn1_der.specs.Found.{IsFound};
ghost use Rattle.pkinit_clients.specs.Replies.{IsKdcDhKeyInfo, IsPaPkAsRep};

use picky_asn1_der::read_whole;
use pkinit_messages::{KdcDhKeyInfo, PaPkAsRep};
use std::alloc::{AllocError, Global};

/// The PA-PK-AS-REP that the bytes are, or `None`.
#[tactic(auto, unfolding(crate::specs::Replies::IsPaPkAsRep))]
pub(crate) fn read_pa_pk_as_rep(
    alloc: Global,
    bytes: &[u8],
) -> Result<Option<PaPkAsRep>, AllocError>
    ensures { IfOk result (IsFound (IsPaPkAsRep bytes.now)) }
{
    read_whole(alloc, bytes)
}

/// The KDCDHKeyInfo that the bytes are, or `None`.
#[tactic(auto, unfolding(crate::specs::Replies::IsKdcDhKeyInfo))]
pub(crate) fn read_kdc_dh_key_info(
    alloc: Global,
    bytes: &[u8],
) -> Result<Option<KdcDhKeyInfo>, AllocError>
    ensures { IfOk result (IsFound (IsKdcDhKeyInfo bytes.now)) }
{
    read_whole(alloc, bytes)
}
