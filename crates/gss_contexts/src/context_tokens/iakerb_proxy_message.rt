//! A Kerberos message that a service forwards.
ghost use Rattle.std.specs.Prelude.{◌≡◌, MatchResult};
ghost use Rattle.asn1_der.specs.Tree.{der};
ghost use Rattle.asn1_der.specs.Length.{element};
ghost use Rattle.asn1_der.specs.Refusals.{refusal_of};
ghost use Rattle.gss_contexts.specs.ContextTokens.{IsProxied, iakerb, proxy_id};
ghost use Rattle.gss_contexts.specs.ContextTokenRefusals.{IsOtherMechanism, IsProxyRefusal};
ghost use Rattle.asn1_der.specs.Octets.{sequence_octet};

use crate::GssApiMessageError;
use crate::context_tokens::application_tag0::ApplicationTag0;
use crate::context_tokens::content::{front_value, mechanism_of, split_id, whole_value};
use crate::context_tokens::iakerb_header::IAKerbHeader;
use crate::context_tokens::writing::{
    TokenSequence, put_out, put_value, sequence_of, token_of, told,
};
use byte_streams::Sink;
use krb_constants::gss_api::IAKERB_PROXY_TOKEN_ID;
use picky_asn1::wrapper::ObjectIdentifierAsn1;
use picky_asn1_der::{FromDer, Serialize};
use std::alloc::Global;
use x509_oids::iakerb5;

/// A message on its way from a client to a KDC, or back, through a service (draft-ietf-kitten-iakerb-03, section 3): what stands inside a
/// token of the mechanism IAKERB behind 05 01, under the tag of [`ApplicationTag0`].
///
/// ```text
/// GSSAPI-Token ::= [APPLICATION 0] IMPLICIT SEQUENCE {
///      thisMech     MechType,
///      innerToken   ANY DEFINED BY thisMech -- here 05 01, an IAKERB-HEADER and the message -- }
/// ```
#[derive(Debug, Drop, PartialEq, Eq, Clone)]
pub struct IAKerbProxyMessage<T> {
    /// Where the message is to go.
    pub header: IAKerbHeader,
    /// The message.
    pub krb_msg: T,
}

impl<T: FromDer> IAKerbProxyMessage<T> {
    ghost use Rattle.gss_contexts.specs.KrbMessages.{BeginsProxyMessage};

    /// Reads the token that begins the bytes. Bytes after it are left.
    ///
    /// The error is `InvalidMechanismOid` for a token of another mechanism, and `InvalidId` for one with another token id. If there
    /// is no such token, it is `Asn1Error`, or `IoError` if the token's content ends before the message. `Memory` says that memory
    /// ran out.
    pub fn decode_application_iakerb_proxy_message(
        alloc: Global,
        bytes: &[u8],
    ) -> Result<ApplicationTag0<IAKerbProxyMessage<T>>, GssApiMessageError>
        ensures { MatchResult result
            (λ token. BeginsProxyMessage T.reads token.0 bytes.now)
            (IsProxyRefusal (λ (m : IAKerbProxyMessage T). BeginsProxyMessage T.reads m bytes.now) bytes.now) }
    {
        let message = proxied(alloc, bytes)?;
        let (header, body) = front_value(alloc, message)?;
        let krb_msg = whole_value(alloc, body)?;
        let token = IAKerbProxyMessage { header, krb_msg };
        Ok(ApplicationTag0(token))
    }
}

/// The message that a service is to forward: what follows mechanism and token id in the token that begins the bytes.
fn proxied(alloc: Global, bytes: &[u8]) -> Result<&[u8], GssApiMessageError>
    ensures { MatchResult result
        (λ message. IsProxied bytes.now message.now)
        (IsProxyRefusal (IsProxied bytes.now) bytes.now) }
{
    let (mechanism, inner) = mechanism_of(alloc, bytes)?;
    check_mechanism(alloc, &mechanism)?;
    let (id, message) = split_id(inner)?;
    check_id(id)?;
    Ok(message)
}

/// Refuses another mechanism than IAKERB.
fn check_mechanism(
    alloc: Global,
    mechanism: &ObjectIdentifierAsn1,
) -> Result<(), GssApiMessageError>
    ensures { MatchResult result (λ _. mechanism.now ≡ iakerb) (IsOtherMechanism mechanism.now) }
{
    let Ok(wanted) = iakerb5(alloc) else {
        return Err(GssApiMessageError::Memory);
    };
    if mechanism.0 == wanted {
        return Ok(());
    }
    match (wanted.to_text(), mechanism.0.to_text()) {
        (Ok(wanted), Ok(there)) => Err(GssApiMessageError::InvalidMechanismOid(wanted, there)),
        _ => Err(GssApiMessageError::Memory),
    }
}

/// Refuses another id than that of such a message.
pub(crate) fn check_id(id: [u8; 2]) -> Result<(), GssApiMessageError>
    ensures { MatchResult result (λ _. id ≡ proxy_id)
        (λ fault. (fault ≡ GssApiMessageError.InvalidId proxy_id id) × (id ≡ proxy_id → ⊥)) }
{
    if id != IAKERB_PROXY_TOKEN_ID {
        return Err(GssApiMessageError::InvalidId(IAKERB_PROXY_TOKEN_ID, id));
    }
    Ok(())
}

impl<T: Serialize> IAKerbProxyMessage<T> {
    ghost use Rattle.gss_contexts.specs.KrbMessages.{proxy_message_content};
    ghost use Rattle.gss_contexts.specs.ContextTokens.{token_bytes};
    ghost use Rattle.gss_contexts.specs.ContextTokenRefusals.{IsUnwritten, IsWritten};

    /// Encodes the content of the token.
    fn content(&self, alloc: Global) -> Result<Vec<u8>, GssApiMessageError>
        ensures { MatchResult result
            (λ bytes. bytes.items ≡ proxy_message_content T.tree self.now)
            (IsUnwritten (refusal_of T.refusal self.now.krb_msg)) }
    {
        let Ok(mechanism) = iakerb5(alloc) else {
            return Err(GssApiMessageError::Memory);
        };
        let mut content = told(
            alloc,
            &ObjectIdentifierAsn1(mechanism),
            &IAKERB_PROXY_TOKEN_ID,
        )?;
        put_value(&self.header, &mut content)?;
        put_value(&self.krb_msg, &mut content)?;
        Ok(content)
    }

    /// The whole token.
    fn token(&self, alloc: Global) -> Result<Vec<u8>, GssApiMessageError>
        ensures { MatchResult result
            (λ bytes. bytes.items ≡ token_bytes (proxy_message_content T.tree self.now))
            (IsUnwritten (refusal_of T.refusal self.now.krb_msg)) }
    {
        let content = self.content(alloc)?;
        token_of(alloc, content)
    }

    /// Writes what stands inside the token; a front of it where the writer stops.
    pub fn encode<W: Sink>(&self, alloc: Global, writer: &mut W) -> Result<(), GssApiMessageError>
        ensures written { IsWritten (refusal_of T.refusal self.now.krb_msg) (proxy_message_content T.tree self.now)
            (W.written writer.old) (W.written writer.new) (W.failed writer.old) (W.failed writer.new) (W.last_fault writer.new) result }
        ensures same { W.through writer.new ≡ W.through writer.old }
    {
        let inside = self.content(alloc)?;
        put_out(&inside, writer)
    }

    /// The token's content as a value of DER: a SEQUENCE (0x30), and the token itself (0x60) in [`ApplicationTag0`].
    ///
    /// It holds the content's octets. A message of a type that is read is such a value itself, and takes no memory to be written.
    pub fn to_sequence(&self, alloc: Global) -> Result<TokenSequence, GssApiMessageError>
        ensures { MatchResult result
            (λ value. (der (⟦<TokenSequence as Serialize>⟧.tree value) ≡ element sequence_octet (proxy_message_content T.tree self.now))
            × (der (⟦<ApplicationTag0<TokenSequence> as Serialize>⟧.tree (record { 0 = value })) ≡ token_bytes (proxy_message_content T.tree self.now)))
            (IsUnwritten (refusal_of T.refusal self.now.krb_msg)) }
    {
        let content = self.content(alloc)?;
        Ok(sequence_of(content))
    }

    /// Writes the whole token; a front of it where the writer stops.
    pub fn encode_application_iakerb_proxy_message<W: Sink>(
        &self,
        alloc: Global,
        writer: &mut W,
    ) -> Result<(), GssApiMessageError>
        ensures written { IsWritten (refusal_of T.refusal self.now.krb_msg) (token_bytes (proxy_message_content T.tree self.now))
            (W.written writer.old) (W.written writer.new) (W.failed writer.old) (W.failed writer.new) (W.last_fault writer.new) result }
        ensures same { W.through writer.new ≡ W.through writer.old }
    {
        let token = self.token(alloc)?;
        put_out(&token, writer)
    }
}
