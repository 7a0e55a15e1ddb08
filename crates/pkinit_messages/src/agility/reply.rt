//! The KDC's share of an agreement, with the key derivation function that it chose.
ghost use Rattle.std.specs.Prelude.{◌≡◌, IfOk};
ghost use Rattle.pkinit_messages.specs.AgileReplies.{agile_reply_bytes, agile_reply_of};

use crate::agility::dh_rep_info::{AgileDhRepInfo, ChosenKdf};
use crate::agility::kdf::Kdf;
use picky_asn1::wrapper::{ObjectIdentifierAsn1, OctetStringAsn1};
use picky_asn1_der::{
    ExplicitContextTag, ExplicitContextTag0, ImplicitContextTag, Optional, encoding_of,
};
use std::alloc::{AllocError, Global};

/// The encoding of a PA-PK-AS-REP with this signed data and this key derivation function.
#[tactic(auto, unfolding(crate::specs::AgileReplies::agile_reply_bytes))]
pub fn agile_reply_bytes(alloc: Global, signed: Vec<u8>, kdf: Kdf) -> Result<Vec<u8>, AllocError>
    ensures { IfOk result (λ bytes. bytes.items ≡ agile_reply_bytes (agile_reply_of signed.items kdf)) }
{
    let oid = kdf.identifier(alloc)?;
    let chosen = ChosenKdf {
        kdf_id: ExplicitContextTag(ObjectIdentifierAsn1(oid)),
    };
    let info: ExplicitContextTag0<AgileDhRepInfo> = ExplicitContextTag(AgileDhRepInfo {
        dh_signed_data: ImplicitContextTag(OctetStringAsn1::from(signed)),
        server_dh_nonce: Optional(None),
        kdf: Optional(Some(ExplicitContextTag(chosen))),
    });
    encoding_of(alloc, info)
}
