//! Reads an AuthPack.
ghost use Rattle.std.specs.Prelude.{IfOk};
ghost use Rattle.picky_asn1_der.specs.Found.{IsFound};
ghost use Rattle.pkinit_messages.specs.AuthPacks.{IsExtensibleAuthPack};

use crate::agility::auth_pack::ExtensibleAuthPack;
use picky_asn1_der::read_whole;
use std::alloc::{AllocError, Global};

/// The AuthPack that the bytes are, or `None`.
#[tactic(auto, unfolding(crate::specs::AuthPacks::IsExtensibleAuthPack))]
pub fn read_auth_pack(alloc: Global, bytes: &[u8]) -> Result<Option<ExtensibleAuthPack>, AllocError>
    ensures { IfOk result (IsFound (IsExtensibleAuthPack bytes.now)) }
{
    read_whole(alloc, bytes)
}
