//! The KRB-PRIV of a request.
ghost use Rattle.std.specs.Prelude.{◌≡◌, IfOk};
ghost use Rattle.picky_asn1_der.specs.Found.{IsFound};
ghost use Rattle.krb_password_changes.specs.ChangeTable.{headed, krb_priv_in, numbered, opened, opened_private, read_private};
ghost use Rattle.krb_password_changes.specs.Privates.{IsKrbPriv, IsPrivatePart, is_first, private_key};
ghost use Rattle.krb_password_changes.specs.Refusals.{IsJudged};

use crate::messages::ResultCode;
use crate::refusal::ChangeRefusal;
use decision_tables::if_passed;
use krb_constants::key_usages;
use krb_constants::types::{KERBEROS_VERSION, KRB_PRIV};
use krb_crypto::Key;
use krb_messages::data_types::{EncryptedData, EncryptionKey};
use krb_messages::is_number;
use krb_service::Admission;
use krb_tickets::{key_of, open_sealed};
use microsoft_messages::{EncKrbPrivPart, EncKrbPrivPartInner, KrbPriv, KrbPrivInner};
use picky_asn1_der::read_whole;
use std::alloc::{AllocError, Global};

// Returns the KRB-PRIV whose DER encoding the octets are, or none.
fn private_in(alloc: Global, octets: &[u8]) -> Result<Option<KrbPrivInner>, AllocError>
    ensures { IfOk result (IsFound (IsKrbPriv octets.now)) }
{
    let read: Option<KrbPriv> = read_whole(alloc, octets)?;
    match read {
        Some(message) => Ok(Some(message.0)),
        None => Ok(None),
    }
}

// Returns the KRB-PRIV that the octets are.
fn find_private(alloc: Global, octets: &[u8]) -> Result<KrbPrivInner, ChangeRefusal>
    ensures { IsJudged (krb_priv_in octets.now).gives result }
{
    let Some(message) = private_in(alloc, octets)? else {
        return Err(ChangeRefusal::Refused(ResultCode::Malformed));
    };
    Ok(message)
}

// Judges the version and the type of a KRB-PRIV.
fn check_headers(message: &KrbPrivInner) -> Result<(), ChangeRefusal>
    ensures { IsJudged (headed message.now).gives result }
{
    if !is_number(&message.pvno.0, KERBEROS_VERSION) {
        return Err(ChangeRefusal::Refused(ResultCode::Malformed));
    }
    if !is_number(&message.msg_type.0, u32::from(KRB_PRIV)) {
        return Err(ChangeRefusal::Refused(ResultCode::Malformed));
    }
    Ok(())
}

/// Reads the KRB-PRIV of a request, of version 5 (RFC 4120, section 5.7.1).
pub fn read_krb_priv(alloc: Global, octets: &[u8]) -> Result<KrbPrivInner, ChangeRefusal>
    ensures { IsJudged (read_private octets.now).gives result }
{
    let message = find_private(alloc, octets)?;
    let judged = check_headers(&message);
    if_passed(message, judged)
}

/// The key of the KRB-PRIV: the subkey of the authenticator, or the session key.
pub fn private_key(admission: &Admission) -> &EncryptionKey
    ensures { result.now ≡ private_key admission.now }
{
    match &admission.subkey {
        Some(key) => key,
        None => &admission.session,
    }
}

// Returns the part that the key opens, or none.
fn open_part(
    alloc: Global,
    key: &Key,
    encrypted: &EncryptedData,
) -> Result<Option<EncKrbPrivPartInner>, AllocError>
    ensures { IfOk result (IsFound (IsPrivatePart key.now.suite key.now.bytes encrypted.now)) }
{
    let found: Option<EncKrbPrivPart> = open_sealed(
        alloc,
        key,
        key_usages::KRB_PRIV_ENC_PART,
        encrypted,
    )?;
    match found {
        Some(part) => Ok(Some(part.0)),
        None => Ok(None),
    }
}

// Decrypts the part under a message's key.
fn open_under(
    alloc: Global,
    key: &EncryptionKey,
    encrypted: &EncryptedData,
) -> Result<EncKrbPrivPartInner, ChangeRefusal>
    ensures { IsJudged (opened key.now encrypted.now).gives result }
{
    let Some(own) = key_of(key) else {
        return Err(ChangeRefusal::Refused(ResultCode::AuthError));
    };
    let Some(part) = open_part(alloc, &own, encrypted)? else {
        return Err(ChangeRefusal::Refused(ResultCode::AuthError));
    };
    Ok(part)
}

// Whether the part has the first sequence number of the client's messages. A missing number is 0.
fn is_first(admission: &Admission, part: &EncKrbPrivPartInner) -> bool
    ensures { result ≡ is_first admission.now part.now }
{
    match (&admission.seq_number, &part.seq_number.0) {
        (None, None) => true,
        (None, Some(own)) => is_number(&own.0, 0),
        (Some(first), None) => is_number(first, 0),
        (Some(first), Some(own)) => *first == own.0,
    }
}

// Judges whether the part is the client's first message.
fn check_number(admission: &Admission, part: &EncKrbPrivPartInner) -> Result<(), ChangeRefusal>
    ensures { IsJudged (numbered admission.now part.now).gives result }
{
    if is_first(admission, part) {
        Ok(())
    } else {
        Err(ChangeRefusal::Refused(ResultCode::AuthError))
    }
}

/// Decrypts the KRB-PRIV of a request.
pub fn open_private(
    alloc: Global,
    admission: &Admission,
    message: &KrbPrivInner,
) -> Result<EncKrbPrivPartInner, ChangeRefusal>
    ensures { IsJudged (opened_private admission.now message.now).gives result }
{
    let part = open_under(alloc, private_key(admission), &message.enc_part.0)?;
    let judged = check_number(admission, &part);
    if_passed(part, judged)
}
