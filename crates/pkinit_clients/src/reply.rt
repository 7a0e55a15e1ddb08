//! Takes the secret from a PA-PK-AS-REP.
ghost use Rattle.std.specs.Prelude.{◌≡◌, length};
ghost use Rattle.std.specs.Option.{option_copied};
ghost use Rattle.pkinit_clients.specs.Asked.{asked_of};
ghost use Rattle.pkinit_clients.specs.Faults.{IsTakenAs, as_secret};
ghost use Rattle.pkinit_clients.specs.Replies.{is_dh_key_data, of_content, of_key_data, of_key_info, of_reply, of_signed, secret_of, signed_in};

use crate::asked::PkinitAsked;
use crate::fault::ReplyFault;
use crate::reading::{read_kdc_dh_key_info, read_pa_pk_as_rep};
use crate::signer::check_signed;
use cms_signed_data::{SignedContent, SignedFault};
use krb_messages::is_number;
use pkinit_messages::{KdcDhKeyInfo, PaPkAsRep};
use std::alloc::Global;
use x509_keys::{KeyFunctions, Theirs};

/// The content octets of id-pkinit-DHKeyData, 1.3.6.1.5.2.3.2.
pub(crate) const DH_KEY_DATA: [u8; 7] = [0x2B, 0x06, 0x01, 0x05, 0x02, 0x03, 0x02];

/// The secret that client and realm share, by the padata-value of PA-PK-AS-REP (RFC 4556, section 3.2.4).
///
/// The padata-value has to have dhInfo, whose dhSignedData the realm's ticket-granting service signed. Its certificate has to be
/// accepted at the moment of the request. KDCDHKeyInfo has to have the request's nonce, and the key functions have to agree. Else the
/// answer is `NotTrusted`. dhKeyExpiration and serverDHNonce are ignored, since the client uses its own value once.
#[tactic(auto, unfolding(crate::specs::Replies::secret_of))]
pub fn secret_of<K: KeyFunctions>(
    alloc: Global,
    keys: &K,
    asked: &PkinitAsked<'_>,
    padata: &[u8],
) -> Result<Vec<u8>, ReplyFault>
    requires { length asked.now.words.now ≡ 64 }
    ensures { IsTakenAs (secret_of (K.functions keys.now) (asked_of asked.now) padata.now).gives (as_secret result) }
{
    let Some(reply) = read_pa_pk_as_rep(alloc, padata)? else {
        return Err(ReplyFault::NotTrusted);
    };
    let taken = take_reply(alloc, keys, asked, &reply);
    drop(reply);
    taken
}

// Takes the secret from a PA-PK-AS-REP: it has to have dhInfo.
fn take_reply<K: KeyFunctions>(
    alloc: Global,
    keys: &K,
    asked: &PkinitAsked<'_>,
    reply: &PaPkAsRep,
) -> Result<Vec<u8>, ReplyFault>
    requires { length asked.now.words.now ≡ 64 }
    ensures { IsTakenAs (of_reply (K.functions keys.now) (asked_of asked.now) reply.now).gives (as_secret result) }
{
    match reply {
        PaPkAsRep::DhInfo(info) => {
            take_signed(alloc, keys, asked, info.0.dh_signed_data.0.as_bytes())
        }
        PaPkAsRep::EncKeyPack(_) => Err(ReplyFault::NotTrusted),
    }
}

// Takes the secret from the octets of dhSignedData: they have to be SignedData of the one form.
fn take_signed<K: KeyFunctions>(
    alloc: Global,
    keys: &K,
    asked: &PkinitAsked<'_>,
    bytes: &[u8],
) -> Result<Vec<u8>, ReplyFault>
    requires { length asked.now.words.now ≡ 64 }
    ensures { IsTakenAs (of_signed (K.functions keys.now) (asked_of asked.now) bytes.now).gives (as_secret result) }
{
    match SignedContent::read(alloc, bytes) {
        Ok(content) => {
            let taken = take_content(alloc, keys, asked, &content);
            content.release();
            taken
        }
        Err(fault) => {
            if fault == SignedFault::Memory {
                return Err(ReplyFault::Memory);
            }
            Err(ReplyFault::NotTrusted)
        }
    }
}

// Takes the secret from the SignedData: its type has to be id-pkinit-DHKeyData, and the realm has to have signed it.
fn take_content<K: KeyFunctions>(
    alloc: Global,
    keys: &K,
    asked: &PkinitAsked<'_>,
    content: &SignedContent<'_>,
) -> Result<Vec<u8>, ReplyFault>
    requires { length asked.now.words.now ≡ 64 }
    ensures { IsTakenAs (of_content (K.functions keys.now) (asked_of asked.now) content.now).gives (as_secret result) }
{
    if !is_dh_key_data(content) {
        return Err(ReplyFault::NotTrusted);
    }
    check_signed(alloc, keys, asked, content)?;
    take_key_data(alloc, keys, asked, content.content())
}

// Whether the eContentType is id-pkinit-DHKeyData.
fn is_dh_key_data(content: &SignedContent<'_>) -> bool
    ensures { result ≡ is_dh_key_data content.now }
{
    content.content_type().as_bytes() == DH_KEY_DATA.as_slice()
}

/// Takes the secret from the eContent octets: they have to be a KDCDHKeyInfo.
pub(crate) fn take_key_data<K: KeyFunctions>(
    alloc: Global,
    keys: &K,
    asked: &PkinitAsked<'_>,
    bytes: &[u8],
) -> Result<Vec<u8>, ReplyFault>
    requires { length asked.now.words.now ≡ 64 }
    ensures { IsTakenAs (of_key_data (K.functions keys.now) (asked_of asked.now) bytes.now).gives (as_secret result) }
{
    let Some(info) = read_kdc_dh_key_info(alloc, bytes)? else {
        return Err(ReplyFault::NotTrusted);
    };
    let taken = take_key_info(alloc, keys, asked, &info);
    drop(info);
    taken
}

// Takes the secret from a KDCDHKeyInfo: it has to have the request's nonce, and a public value that the client accepts.
fn take_key_info<K: KeyFunctions>(
    alloc: Global,
    keys: &K,
    asked: &PkinitAsked<'_>,
    info: &KdcDhKeyInfo,
) -> Result<Vec<u8>, ReplyFault>
    requires { length asked.now.words.now ≡ 64 }
    ensures { IsTakenAs (of_key_info (K.functions keys.now) (asked_of asked.now) info.now).gives (as_secret result) }
{
    if !is_number(&info.nonce.0, asked.nonce) {
        return Err(ReplyFault::NotTrusted);
    }
    let theirs = Theirs::Bits(&info.subject_public_key.0);
    match keys.agree(alloc, theirs, asked.words)? {
        Some(secret) => Ok(secret),
        None => Err(ReplyFault::NotTrusted),
    }
}
