//! Reads an AP-REQ, and decrypts its ticket's enc-part and its authenticator.
ghost use Rattle.std.specs.Prelude.{IfOk};
ghost use Rattle.std.specs.Int.{cast_unsigned, w32};
ghost use Rattle.picky_asn1_der.specs.Found.{IsFound};
ghost use Rattle.krb_messages.specs.Messages.{IsApReq};
ghost use Rattle.krb_ap_requests.specs.Messages.{IsAuthenticator, IsTicketPart};

use krb_constants::key_usages;
use krb_crypto::Key;
use krb_messages::data_types::{
    Authenticator, AuthenticatorInner, EncTicketPart, EncTicketPartInner, EncryptedData,
};
use krb_messages::messages::{ApReq, ApReqInner};
use krb_tickets::open_sealed;
use picky_asn1_der::read_whole;
use std::alloc::{AllocError, Global};

/// Returns the AP-REQ whose DER encoding the bytes are, or none (RFC 4120, section 5.5.1).
pub fn read_ap_req(alloc: Global, message: &[u8]) -> Result<Option<ApReqInner>, AllocError>
    ensures { IfOk result (IsFound (IsApReq message.now)) }
{
    let read: Option<ApReq> = read_whole(alloc, message)?;
    match read {
        Some(request) => Ok(Some(request.0)),
        None => Ok(None),
    }
}

/// Returns the ticket's part that the service's key opens, or none (RFC 4120, section 5.3).
pub(crate) fn open_part(
    alloc: Global,
    key: &Key,
    encrypted: &EncryptedData,
) -> Result<Option<EncTicketPartInner>, AllocError>
    ensures { IfOk result (IsFound (IsTicketPart key.now.suite key.now.bytes encrypted.now)) }
{
    let found: Option<EncTicketPart> = open_sealed(alloc, key, key_usages::TICKET_REP, encrypted)?;
    match found {
        Some(part) => Ok(Some(part.0)),
        None => Ok(None),
    }
}

/// Returns the authenticator that the session key opens for the usage, or none (RFC 4120, section 5.5.1).
pub(crate) fn open_authenticator(
    alloc: Global,
    key: &Key,
    usage: i32,
    encrypted: &EncryptedData,
) -> Result<Option<AuthenticatorInner>, AllocError>
    ensures { IfOk result (IsFound (IsAuthenticator key.now.suite key.now.bytes (cast_unsigned w32 usage) encrypted.now)) }
{
    let found: Option<Authenticator> = open_sealed(alloc, key, usage, encrypted)?;
    match found {
        Some(authenticator) => Ok(Some(authenticator.0)),
        None => Ok(None),
    }
}
