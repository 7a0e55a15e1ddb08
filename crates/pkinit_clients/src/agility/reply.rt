//! Takes the secret and the key derivation function from a PA-PK-AS-REP.
ghost use Rattle.std.specs.Prelude.{◌≡◌, length};
ghost use Rattle.pkinit_clients.specs.Asked.{asked_of};
ghost use Rattle.pkinit_clients.specs.Faults.{IsTakenAs, as_secret};
ghost use Rattle.pkinit_clients.specs.AgileReplies.{agile_secret, as_found, chosen_of, is_general_key_data, no_sha1, of_general, of_general_content, of_info};
ghost use Rattle.pkinit_validation.specs.GeneralTrust.{takes_digest};

use crate::agility::reading::read_agile_reply;
use crate::agility::signer::check_general;
use crate::asked::PkinitAsked;
use crate::fault::ReplyFault;
use crate::reply::{DH_KEY_DATA, take_key_data};
use cms_signed_data::SignedFault;
use cms_signed_data::general_form::{DigestAlgorithm, GeneralContent};
use picky_asn1_der::ExplicitContextTag2;
use pkinit_messages::agility::{AgileDhRepInfo, ChosenKdf, Kdf};
use std::alloc::Global;
use x509_keys::KeyFunctions;

/// The secret that client and realm share, with the key derivation function if the realm chose one, by the padata-value of PA-PK-AS-REP
/// (RFC 4556, section 3.2.4; RFC 8636, section 6).
#[tactic(auto, unfolding(crate::specs::AgileReplies::agile_secret))]
pub(crate) fn agile_secret<K: KeyFunctions>(
    alloc: Global,
    keys: &K,
    asked: &PkinitAsked<'_>,
    padata: &[u8],
) -> Result<(Vec<u8>, Option<Kdf>), ReplyFault>
    requires { length asked.now.words.now ≡ 64 }
    ensures { IsTakenAs (agile_secret (K.functions keys.now) (asked_of asked.now) padata.now).gives (as_found result) }
{
    let Some(reply) = read_agile_reply(alloc, padata)? else {
        return Err(ReplyFault::NotTrusted);
    };
    let taken = take_info(alloc, keys, asked, &reply.0);
    drop(reply);
    taken
}

// Takes the secret and the key derivation function from dhInfo.
fn take_info<K: KeyFunctions>(
    alloc: Global,
    keys: &K,
    asked: &PkinitAsked<'_>,
    info: &AgileDhRepInfo,
) -> Result<(Vec<u8>, Option<Kdf>), ReplyFault>
    requires { length asked.now.words.now ≡ 64 }
    ensures { IsTakenAs (of_info (K.functions keys.now) (asked_of asked.now) info.now).gives (as_found result) }
{
    let kdf = chosen_of(&info.kdf.0)?;
    let secret = take_general(alloc, keys, asked, info.dh_signed_data.0.as_bytes())?;
    Ok((secret, kdf))
}

// The key derivation function, which has to be one that the client listed.
fn chosen_of(chosen: &Option<ExplicitContextTag2<ChosenKdf>>) -> Result<Option<Kdf>, ReplyFault>
    ensures { IsTakenAs (chosen_of chosen.now).gives result }
{
    let Some(chosen) = chosen else {
        return Ok(None);
    };
    match Kdf::named(&chosen.0.kdf_id.0.0) {
        Some(kdf) => Ok(Some(kdf)),
        None => Err(ReplyFault::NotTrusted),
    }
}

// Takes the secret from the octets of dhSignedData.
fn take_general<K: KeyFunctions>(
    alloc: Global,
    keys: &K,
    asked: &PkinitAsked<'_>,
    bytes: &[u8],
) -> Result<Vec<u8>, ReplyFault>
    requires { length asked.now.words.now ≡ 64 }
    ensures { IsTakenAs (of_general (K.functions keys.now) (asked_of asked.now) bytes.now).gives (as_secret result) }
{
    match GeneralContent::read(alloc, bytes) {
        Ok(content) => {
            let taken = take_general_content(alloc, keys, asked, &content);
            content.release();
            taken
        }
        Err(fault) => {
            if fault == SignedFault::Memory {
                return Err(ReplyFault::Memory);
            }
            Err(ReplyFault::NotTrusted)
        }
    }
}

// Takes the secret from the SignedData: its type has to be id-pkinit-DHKeyData, and the realm has to have signed it.
fn take_general_content<K: KeyFunctions>(
    alloc: Global,
    keys: &K,
    asked: &PkinitAsked<'_>,
    content: &GeneralContent,
) -> Result<Vec<u8>, ReplyFault>
    requires { length asked.now.words.now ≡ 64 }
    ensures { IsTakenAs (of_general_content (K.functions keys.now) (asked_of asked.now) content.now).gives (as_secret result) }
{
    if !is_key_data(content) {
        return Err(ReplyFault::NotTrusted);
    }
    if !is_sha2(content.digest_algorithm()) {
        return Err(ReplyFault::NotTrusted);
    }
    check_general(alloc, keys, asked, content)?;
    take_key_data(alloc, keys, asked, content.content())
}

// Whether the eContentType is id-pkinit-DHKeyData.
fn is_key_data(content: &GeneralContent) -> bool
    ensures { result ≡ is_general_key_data content.now }
{
    content.content_type().as_bytes() == DH_KEY_DATA.as_slice()
}

fn is_sha2(digest: DigestAlgorithm) -> bool
    ensures { result ≡ takes_digest no_sha1 digest }
{
    match digest {
        DigestAlgorithm::Sha1 => false,
        DigestAlgorithm::Sha256 => true,
        DigestAlgorithm::Sha384 => true,
        DigestAlgorithm::Sha512 => true,
    }
}
