//! The AP-REQ of a context (RFC 4121, section 4.1.1).
ghost use Rattle.std.specs.Prelude.{◌≡◌, ◌≤◌, length, IfOk, Some};
ghost use Rattle.krb_tickets.specs.Sealing.{encryption_key};
ghost use Rattle.gss_initiator.specs.Requests.{AsksWith, IsAuthenticatorWith, context_parts, own_subkey};

use krb_client::{Client, Credential, ap_request_with, nonce_of};
use krb_constants::key_usages::AP_REQ_AUTHENTICATOR;
use krb_crypto::CipherSuite;
use krb_messages::data_types::{AuthenticatorInner, Checksum, EncryptionKey};
use krb_messages::random_bytes::{AUTHENTICATOR_CONFOUNDER, SUBKEY_SEED};
use krb_tickets::{confounder_at, encryption_key, key_at};
use krb_time::Moment;
use picky_asn1::wrapper::IntegerAsn1;
use picky_asn1_der::{ExplicitContextTag, Optional, both};
use std::alloc::{AllocError, Global};

// What the authenticator of a context has beside the client's: the checksum, the subkey and the first sequence number.
#[derive(Drop)]
struct ContextParts {
    checksum: Checksum,
    subkey: EncryptionKey,
    number: IntegerAsn1,
}

/// The AP-REQ that asks the credential's service for a context, with this checksum of the authenticator. `words`: random bytes, of which the first are the confounder, 16 to 19 the
/// sequence number, and 32 to 63 the subkey's seed.
pub(crate) fn context_request(
    alloc: Global,
    client: &Client,
    credential: &Credential,
    checksum: Checksum,
    wants_reply: bool,
    moment: Moment,
    words: &[u8],
) -> Result<Vec<u8>, AllocError>
    requires { 96 ≤ length words.now }
    ensures { IfOk result (λ bytes. AsksWith client.now credential.now checksum wants_reply moment words.now bytes.items) }
{
    let suite = credential.suite();
    let authenticator = context_authenticator(alloc, client, credential, checksum, moment, words)?;
    let confounder = confounder_at(suite, words, AUTHENTICATOR_CONFOUNDER);
    let bytes = ap_request_with(
        alloc,
        credential,
        AP_REQ_AUTHENTICATOR,
        wants_reply,
        authenticator,
        confounder,
    )?;
    Ok(bytes)
}

// The client's authenticator of the moment, with checksum, subkey and sequence number.
fn context_authenticator(
    alloc: Global,
    client: &Client,
    credential: &Credential,
    checksum: Checksum,
    moment: Moment,
    words: &[u8],
) -> Result<AuthenticatorInner, AllocError>
    requires { 96 ≤ length words.now }
    ensures { IfOk result (IsAuthenticatorWith client.now credential.now checksum moment words.now) }
{
    let parts = context_parts(alloc, credential.suite(), checksum, words)?;
    let ContextParts {
        checksum,
        subkey,
        number,
    } = parts;
    let plain = client.authenticator(alloc, moment, Some(checksum), Some(subkey))?;
    Ok(numbered(plain, number))
}

// What the authenticator of a context has beside the client's.
fn context_parts(
    alloc: Global,
    suite: CipherSuite,
    checksum: Checksum,
    words: &[u8],
) -> Result<ContextParts, AllocError>
    requires { 96 ≤ length words.now }
    ensures { IfOk result (λ parts. parts ≡ context_parts suite checksum words.now) }
{
    let subkey = subkey_at(alloc, suite, words);
    let number = IntegerAsn1::from_u64(alloc, u64::from(nonce_of(words)));
    let (checksum, (subkey, number)) = both(Ok(checksum), both(subkey, number))?;
    Ok(ContextParts {
        checksum,
        subkey,
        number,
    })
}

// The subkey of the random bytes, with the number of its suite.
fn subkey_at(alloc: Global, suite: CipherSuite, words: &[u8]) -> Result<EncryptionKey, AllocError>
    requires { 96 ≤ length words.now }
    ensures { IfOk result (λ key. key ≡ encryption_key suite (own_subkey suite words.now)) }
{
    let octets = key_at(alloc, suite, words, SUBKEY_SEED)?;
    let key = encryption_key(alloc, suite, &octets)?;
    Ok(key)
}

// The authenticator with this sequence number.
fn numbered(mut authenticator: AuthenticatorInner, number: IntegerAsn1) -> AuthenticatorInner
    ensures { result ≡ record authenticator { seq_number = record { 0 = Some (record { 0 = number }) } } }
{
    authenticator.seq_number = Optional(Some(ExplicitContextTag(number)));
    authenticator
}
