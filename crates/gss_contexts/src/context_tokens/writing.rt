//! The writing of tokens.
ghost use Rattle.std.specs.Prelude.{◌≡◌, ◌++◌, MatchResult};
ghost use Rattle.std.specs.Io.KnownBytes.{Appends};
ghost use Rattle.asn1_der.specs.Tree.{der};
ghost use Rattle.asn1_der.specs.Refusals.{refusal_of};
ghost use Rattle.gss_contexts.specs.ContextTokens.{mechanism_tree, token_bytes};
ghost use Rattle.gss_contexts.specs.ContextTokenRefusals.{IsUnwritten, IsStopped};
ghost use Rattle.gss_contexts.specs.ContextTokenRefusals as faults;

use crate::GssApiMessageError;
use crate::context_tokens::content::token_fault;
use byte_streams::{Sink, write_bytes};
use krb_constants::gss_api::INITIAL_TOKEN;
use picky_asn1::wrapper::{ObjectIdentifierAsn1, OctetStringAsn1};
use picky_asn1_der::{Retagged, Serialize, to_byte_buf, to_vec};
use std::alloc::Global;
use std::io::ErrorKind;

/// The content of a token, as a value of DER: a SEQUENCE (0x30), and 0x60 in [`ApplicationTag0`](crate::context_tokens::application_tag0::ApplicationTag0).
pub type TokenSequence = Retagged<0x30, OctetStringAsn1>;

/// The value of DER that has this content.
pub(crate) fn sequence_of(content: Vec<u8>) -> TokenSequence
    ensures { result ≡ record { 0 = content.items } }
{
    Retagged(OctetStringAsn1::from(content))
}

/// Puts the spelling of a value that follows what is there.
pub(crate) fn put_value<T: Serialize>(value: &T, to: &mut Vec<u8>) -> Result<(), GssApiMessageError>
    ensures { MatchResult result
        (λ _. to.new.items ≡ to.old.items ++ der (T.tree value.now))
        (IsUnwritten (refusal_of T.refusal value.now)) }
{
    match to_byte_buf(value, to) {
        Ok(_) => Ok(()),
        Err(fault) => Err(token_fault(fault)),
    }
}

/// A mechanism, and a token id of two octets.
pub(crate) fn told(
    alloc: Global,
    mechanism: &ObjectIdentifierAsn1,
    id: &[u8; 2],
) -> Result<Vec<u8>, GssApiMessageError>
    ensures { MatchResult result
        (λ bytes. bytes.items ≡ der (mechanism_tree mechanism.now) ++ id.now)
        (λ fault. fault ≡ GssApiMessageError.Memory) }
{
    let mut front = Vec::new(alloc);
    if put_value(mechanism, &mut front).is_err() || front.extend_from_slice(id).is_err() {
        return Err(GssApiMessageError::Memory);
    }
    Ok(front)
}

/// The token that has this content.
pub(crate) fn token_of(alloc: Global, content: Vec<u8>) -> Result<Vec<u8>, GssApiMessageError>
    ensures { MatchResult result
        (λ bytes. bytes.items ≡ token_bytes content.items)
        (λ fault. fault ≡ GssApiMessageError.Memory) }
{
    let octets = OctetStringAsn1::from(content);
    let token: Retagged<INITIAL_TOKEN, OctetStringAsn1> = Retagged(octets);
    match to_vec(alloc, &token) {
        Ok(bytes) => Ok(bytes),
        Err(_) => Err(GssApiMessageError::Memory),
    }
}

/// Returns the error of a write that stopped.
fn stop_fault(kind: ErrorKind) -> GssApiMessageError
    ensures { result ≡ faults.stop_fault kind }
{
    match kind {
        ErrorKind::OutOfMemory => GssApiMessageError::Memory,
        other => GssApiMessageError::IoError(other),
    }
}

/// Writes the bytes; a front of them where the writer stops.
pub(crate) fn put_out<W: Sink>(bytes: &[u8], writer: &mut W) -> Result<(), GssApiMessageError>
    ensures written { MatchResult result
        (λ _. Appends (W.written writer.old) (W.written writer.new) bytes.now × (W.failed writer.new ≡ W.failed writer.old))
        (IsStopped bytes.now (W.written writer.old) (W.written writer.new) (W.failed writer.old) (W.failed writer.new) (W.last_fault writer.new)) }
    ensures same { W.through writer.new ≡ W.through writer.old }
{
    match write_bytes(writer, bytes) {
        Ok(()) => Ok(()),
        Err(kind) => Err(stop_fault(kind)),
    }
}
