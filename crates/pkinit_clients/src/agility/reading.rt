//! Reads a PA-PK-AS-REP with algorithm agility.
ghost use Rattle.std.specs.Prelude.{IfOk};
ghost use Rattle.picky_asn1_der.specs.Found.{IsFound};
ghost use Rattle.pkinit_clients.specs.AgileReplies.{IsAgileReply};

use picky_asn1_der::{ExplicitContextTag0, read_whole};
use pkinit_messages::agility::AgileDhRepInfo;
use std::alloc::{AllocError, Global};

/// The PA-PK-AS-REP with dhInfo that the bytes are, or `None`.
#[tactic(auto, unfolding(crate::specs::AgileReplies::IsAgileReply))]
pub(crate) fn read_agile_reply(
    alloc: Global,
    bytes: &[u8],
) -> Result<Option<ExplicitContextTag0<AgileDhRepInfo>>, AllocError>
    ensures { IfOk result (IsFound (IsAgileReply bytes.now)) }
{
    read_whole(alloc, bytes)
}
