//! Reading an AS-REQ or a TGS-REQ from its bytes.
ghost use Rattle.std.specs.Prelude.{◌≡◌, IfOk};
ghost use Rattle.picky_asn1_der.specs.Found.{IsFound};
ghost use Rattle.krb_messages.specs.Messages.{IsAsReq, IsTgsReq};

use krb_messages::messages::{AsReq, KdcReq, TgsReq};
use picky_asn1_der::read_whole;
use std::alloc::{AllocError, Global};

/// Reads the AS-REQ whose one encoding the bytes are, or none (RFC 4120, section 5.4.1).
pub fn read_as_req(alloc: Global, message: &[u8]) -> Result<Option<KdcReq>, AllocError>
    ensures { IfOk result (IsFound (IsAsReq message.now)) }
{
    let read: Option<AsReq> = read_whole(alloc, message)?;
    match read {
        Some(request) => Ok(Some(request.0)),
        None => Ok(None),
    }
}

/// Reads the TGS-REQ whose one encoding the bytes are, or none (RFC 4120, section 5.4.1).
pub fn read_tgs_req(alloc: Global, message: &[u8]) -> Result<Option<KdcReq>, AllocError>
    ensures { IfOk result (IsFound (IsTgsReq message.now)) }
{
    let read: Option<TgsReq> = read_whole(alloc, message)?;
    match read {
        Some(request) => Ok(Some(request.0)),
        None => Ok(None),
    }
}
