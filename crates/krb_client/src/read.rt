//! Reading replies, and opening their sealed parts.
ghost use Rattle.std.specs.Prelude.{IfOk};
ghost use Rattle.std.specs.Int.{cast_unsigned, w32};
ghost use Rattle.picky_asn1_der.specs.Found.{IsFound};
ghost use Rattle.krb_messages.specs.Messages.{IsApRep, IsAsRep, IsTgsRep};
ghost use Rattle.krb_client.specs.ApReply.{IsApPart};
ghost use Rattle.krb_client.specs.AsReply.{IsAsPart};
ghost use Rattle.krb_client.specs.Messages.{IsErrorCode};
ghost use Rattle.krb_client.specs.Taking.{IsTgsPart};

use crate::asked::ApAsked;
use krb_constants::key_usages;
use krb_crypto::Key;
use krb_messages::data_types::{EncApRepPart, EncApRepPartInner, EncryptedData};
use krb_messages::messages::{
    ApRep, ApRepInner, AsRep, EncAsRepPart, EncKdcRepPart, EncTgsRepPart, KdcRep, KrbError, TgsRep,
};
use krb_tickets::open_sealed;
use picky_asn1_der::read_whole;
use std::alloc::{AllocError, Global};

/// The code of the error whose one encoding the bytes are, or none (RFC 4120, section 5.9.1).
pub fn read_error_code(alloc: Global, bytes: &[u8]) -> Result<Option<u32>, AllocError>
    ensures { IfOk result (IsFound (IsErrorCode bytes.now)) }
{
    let read: Option<KrbError> = read_whole(alloc, bytes)?;
    match read {
        Some(error) => {
            let code = error.0.error_code.0;
            drop(error);
            Ok(Some(code))
        }
        None => Ok(None),
    }
}

/// The AS reply whose one encoding the bytes are, or none (RFC 4120, section 5.4.2).
pub(crate) fn read_as_reply(alloc: Global, bytes: &[u8]) -> Result<Option<KdcRep>, AllocError>
    ensures { IfOk result (IsFound (IsAsRep bytes.now)) }
{
    let read: Option<AsRep> = read_whole(alloc, bytes)?;
    match read {
        Some(reply) => Ok(Some(reply.0)),
        None => Ok(None),
    }
}

/// The TGS reply whose one encoding the bytes are, or none (RFC 4120, section 5.4.2).
pub(crate) fn read_tgs_reply(alloc: Global, bytes: &[u8]) -> Result<Option<KdcRep>, AllocError>
    ensures { IfOk result (IsFound (IsTgsRep bytes.now)) }
{
    let read: Option<TgsRep> = read_whole(alloc, bytes)?;
    match read {
        Some(reply) => Ok(Some(reply.0)),
        None => Ok(None),
    }
}

/// The AP reply whose one encoding the bytes are, or none (RFC 4120, section 5.5.2).
pub fn read_ap_reply(alloc: Global, bytes: &[u8]) -> Result<Option<ApRepInner>, AllocError>
    ensures { IfOk result (IsFound (IsApRep bytes.now)) }
{
    let read: Option<ApRep> = read_whole(alloc, bytes)?;
    match read {
        Some(reply) => Ok(Some(reply.0)),
        None => Ok(None),
    }
}

/// The part of an AS reply that is sealed here under the key, with the tag of AS replies, or none.
#[tactic(auto, unfolding(crate::specs::AsReply::IsAsPart))]
pub(crate) fn open_as_part(
    alloc: Global,
    key: &Key,
    sealed: &EncryptedData,
) -> Result<Option<EncKdcRepPart>, AllocError>
    ensures { IfOk result (IsFound (IsAsPart key.now.suite key.now.bytes sealed.now)) }
{
    let opened: Option<EncAsRepPart> = open_sealed(alloc, key, key_usages::AS_REP_ENC, sealed)?;
    match opened {
        Some(part) => Ok(Some(part.0)),
        None => Ok(None),
    }
}

/// The part of a KDC's reply that is sealed here under the key for the usage, with the tag of TGS replies, which AS replies
/// of some realms have too (RFC 4120, section 5.4.2), or none.
#[tactic(auto, unfolding(crate::specs::Taking::IsTgsPart))]
pub(crate) fn open_tgs_part(
    alloc: Global,
    key: &Key,
    usage: i32,
    sealed: &EncryptedData,
) -> Result<Option<EncKdcRepPart>, AllocError>
    ensures { IfOk result (IsFound (IsTgsPart key.now.suite key.now.bytes (cast_unsigned w32 usage) sealed.now)) }
{
    let opened: Option<EncTgsRepPart> = open_sealed(alloc, key, usage, sealed)?;
    match opened {
        Some(part) => Ok(Some(part.0)),
        None => Ok(None),
    }
}

/// The part of a service's reply that is sealed here under the session's key, or none.
#[tactic(auto, unfolding(crate::specs::ApReply::IsApPart))]
pub fn open_ap_part(
    alloc: Global,
    asked: &ApAsked,
    sealed: &EncryptedData,
) -> Result<Option<EncApRepPartInner>, AllocError>
    ensures { IfOk result (IsFound (IsApPart asked.now sealed.now)) }
{
    let opened: Option<EncApRepPart> = open_sealed(
        alloc,
        asked.key(),
        key_usages::AP_REP_ENC,
        sealed,
    )?;
    match opened {
        Some(part) => Ok(Some(part.0)),
        None => Ok(None),
    }
}
