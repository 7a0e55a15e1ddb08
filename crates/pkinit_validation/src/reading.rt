//! Reads PA-PK-AS-REQ and AuthPack, and the elements of what is none.
ghost use Rattle.std.specs.Prelude.{IfOk};
ghost use Rattle.picky_asn1_der.specs.Found.{IsFound};
ghost use Rattle.pkinit_validation.specs.AuthPacks.{AreElements, IsAuthPack, IsPaPkAsReq};

use picky_asn1::wrapper::Asn1SequenceOf;
use picky_asn1_der::{Asn1RawDer, read_whole};
use pkinit_messages::{AuthPack, PaPkAsReq};
use std::alloc::{AllocError, Global};

/// The PA-PK-AS-REQ that the bytes are, or `None`.
#[tactic(auto, unfolding(crate::specs::AuthPacks::IsPaPkAsReq))]
pub(crate) fn read_pa_pk_as_req(
    alloc: Global,
    bytes: &[u8],
) -> Result<Option<PaPkAsReq>, AllocError>
    ensures { IfOk result (IsFound (IsPaPkAsReq bytes.now)) }
{
    read_whole(alloc, bytes)
}

/// The AuthPack that the bytes are, or `None`.
#[tactic(auto, unfolding(crate::specs::AuthPacks::IsAuthPack))]
pub(crate) fn read_auth_pack(
    alloc: Global,
    bytes: &[u8],
) -> Result<Option<AuthPack<Asn1RawDer>>, AllocError>
    ensures { IfOk result (IsFound (IsAuthPack bytes.now)) }
{
    read_whole(alloc, bytes)
}

/// The elements of the SEQUENCE that the bytes are, or `None`.
#[tactic(auto, unfolding(crate::specs::AuthPacks::AreElements))]
pub(crate) fn read_elements(
    alloc: Global,
    bytes: &[u8],
) -> Result<Option<Asn1SequenceOf<Asn1RawDer>>, AllocError>
    ensures { IfOk result (IsFound (AreElements bytes.now)) }
{
    read_whole(alloc, bytes)
}
