//! The reply to a client that asks for one.
ghost use Rattle.std.specs.Prelude.{◌≡◌, ◌≤◌, ℕ, List, length, IfOk, pos};
ghost use Rattle.asn1_der.specs.Tree.{der};
ghost use Rattle.krb_crypto.specs.Suites.{cipher_confounder_size};
ghost use Rattle.krb_tickets.specs.Sealing.{encryption_key};
ghost use Rattle.krb_service.specs.ApReply.{IsReplyOf, ap_rep_of, ap_rep_part_with, random_size, reply_number, reply_subkey};
ghost use Rattle.krb_messages.specs.RandomBytes.{ap_reply_confounder, AreEnoughForSubkey};
ghost use Rattle.krb_messages.specs.Messages.{ap_rep_tree, enc_ap_rep_part_tree};

use krb_constants::key_usages;
use krb_constants::types::{AP_REP_MSG_TYPE, KERBEROS_VERSION};
use krb_crypto::{CipherSuite, Key};
use krb_messages::data_types::{
    AuthenticatorInner, EncApRepPart, EncApRepPartInner, EncryptedData, EncryptionKey,
};
use krb_messages::messages::{ApRep, ApRepInner};
use krb_messages::random_bytes::{AP_REPLY_CONFOUNDER, NONCE, SUBKEY_SEED};
use krb_tickets::{confounder_at, encryption_key, key_at, sealed_data};
use picky_asn1::wrapper::{IntegerAsn1, OctetStringAsn1};
use picky_asn1_der::{ApplicationTag, ExplicitContextTag, Optional, both, encoding_of};
use std::alloc::{AllocError, Global};

/// How many numbers have 31 bits.
const NUMBERS: u32 = 0x8000_0000;

/// What an AP-REP has beside the authenticator's time (RFC 4120, section 5.5.2).
#[derive(Clone, Copy, Debug, PartialEq, Eq)]
pub enum ReplyFields {
    /// Nothing.
    TimeAlone,
    /// A subkey of the session key's suite, and the first sequence number of the service's messages. Both are of the random bytes.
    SubkeyAndNumber,
}

/// The subkey of a reply, of this suite: the random bytes from the 32nd on are its seed.
pub fn reply_subkey(
    alloc: Global,
    suite: CipherSuite,
    words: &[u8],
) -> Result<OctetStringAsn1, AllocError>
    requires { AreEnoughForSubkey words.now }
    ensures { IfOk result (λ key. key ≡ reply_subkey suite words.now) }
{
    key_at(alloc, suite, words, SUBKEY_SEED)
}

/// The first sequence number of a reply: of four of the random bytes, from the 16th on, big-endian, 31 bits.
pub fn reply_number(words: &[u8]) -> u32
    requires { AreEnoughForSubkey words.now }
    ensures { result ≡ reply_number words.now }
{
    let mut octets = [0; 4];
    octets.copy_from_slice(&words[NONCE..NONCE + 4]);
    u32::from_be_bytes(octets) % NUMBERS
}

/// The encoding of the reply under the session key, with the authenticator's time and these fields (RFC 4120, section 5.5.2). The first
/// of the random bytes are the confounder.
pub(crate) fn ap_reply(
    alloc: Global,
    key: &Key,
    fields: ReplyFields,
    authenticator: &AuthenticatorInner,
    words: &[u8],
) -> Result<Vec<u8>, AllocError>
    requires { random_size fields ≤ length words.now }
    ensures { IfOk result (λ bytes. IsReplyOf key.now.suite key.now.bytes (ap_reply_confounder (cipher_confounder_size key.now.suite) words.now) (ap_rep_part_with fields key.now.suite words.now authenticator.now) bytes.items) }
{
    let plain = part_bytes(alloc, key.suite(), fields, authenticator, words)?;
    let confounder = confounder_at(key.suite(), words, AP_REPLY_CONFOUNDER);
    let part = sealed_data(alloc, key, None, key_usages::AP_REP_ENC, confounder, &plain)?;
    let bytes = reply_bytes(alloc, part)?;
    Ok(bytes)
}

// The encoding of the reply's part.
fn part_bytes(
    alloc: Global,
    suite: CipherSuite,
    fields: ReplyFields,
    authenticator: &AuthenticatorInner,
    words: &[u8],
) -> Result<Vec<u8>, AllocError>
    requires { random_size fields ≤ length words.now }
    ensures { IfOk result (λ bytes. bytes.items ≡ der (enc_ap_rep_part_tree (ap_rep_part_with fields suite words.now authenticator.now))) }
{
    match fields {
        ReplyFields::TimeAlone => encoded(alloc, authenticator, None, None),
        ReplyFields::SubkeyAndNumber => {
            let (subkey, number) = both(subkey_of(alloc, suite, words), number_of(alloc, words))?;
            encoded(
                alloc,
                authenticator,
                Some(ExplicitContextTag(subkey)),
                Some(ExplicitContextTag(number)),
            )
        }
    }
}

// The subkey with its suite's number.
fn subkey_of(alloc: Global, suite: CipherSuite, words: &[u8]) -> Result<EncryptionKey, AllocError>
    requires { AreEnoughForSubkey words.now }
    ensures { IfOk result (λ key. key ≡ encryption_key suite (reply_subkey suite words.now)) }
{
    let octets = reply_subkey(alloc, suite, words)?;
    encryption_key(alloc, suite, &octets)
}

// The first sequence number.
fn number_of(alloc: Global, words: &[u8]) -> Result<IntegerAsn1, AllocError>
    requires { AreEnoughForSubkey words.now }
    ensures { IfOk result (λ number. number ≡ pos (reply_number words.now)) }
{
    IntegerAsn1::from_u64(alloc, u64::from(reply_number(words)))
}

// The encoding of the part with the authenticator's time and these two.
fn encoded(
    alloc: Global,
    authenticator: &AuthenticatorInner,
    subkey: Option<ExplicitContextTag<2, EncryptionKey>>,
    number: Option<ExplicitContextTag<3, IntegerAsn1>>,
) -> Result<Vec<u8>, AllocError>
    ensures { IfOk result (λ bytes. bytes.items ≡ der (enc_ap_rep_part_tree (record { ctime = record { 0 = authenticator.now.ctime.0 }; cusec = record { 0 = authenticator.now.cusec.0 }; subkey = record { 0 = subkey }; seq_number = record { 0 = number } }))) }
{
    match authenticator.cusec.0.clone() {
        Ok(cusec) => {
            let part: EncApRepPart = ApplicationTag(EncApRepPartInner {
                ctime: ExplicitContextTag(authenticator.ctime.0),
                cusec: ExplicitContextTag(cusec),
                subkey: Optional(subkey),
                seq_number: Optional(number),
            });
            encoding_of(alloc, part)
        }
        Err(error) => {
            drop(subkey);
            drop(number);
            Err(error)
        }
    }
}

// The reply's encoding, with its sealed part.
fn reply_bytes(alloc: Global, part: EncryptedData) -> Result<Vec<u8>, AllocError>
    ensures { IfOk result (λ bytes. bytes.items ≡ der (ap_rep_tree (ap_rep_of part))) }
{
    let version = IntegerAsn1::from_u64(alloc, u64::from(KERBEROS_VERSION));
    let kind = IntegerAsn1::from_u64(alloc, u64::from(AP_REP_MSG_TYPE));
    let (part, (version, kind)) = both(Ok(part), both(version, kind))?;
    let reply: ApRep = ApplicationTag(ApRepInner {
        pvno: ExplicitContextTag(version),
        msg_type: ExplicitContextTag(kind),
        enc_part: ExplicitContextTag(part),
    });
    encoding_of(alloc, reply)
}
