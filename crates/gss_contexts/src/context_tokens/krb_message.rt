//! A message of Kerberos as a token.
ghost use Rattle.std.specs.Prelude.{◌≡◌, MatchResult};
ghost use Rattle.asn1_der.specs.Tree.{der};
ghost use Rattle.asn1_der.specs.Length.{element};
ghost use Rattle.asn1_der.specs.Refusals.{refusal_of};
ghost use Rattle.asn1_der.specs.Octets.{sequence_octet};

use crate::GssApiMessageError;
use crate::context_tokens::application_tag0::ApplicationTag0;
use crate::context_tokens::content::{mechanism_of, split_id, whole_value};
use crate::context_tokens::writing::{
    TokenSequence, put_out, put_value, sequence_of, token_of, told,
};
use asn1_der::octets::SEQUENCE;
use byte_streams::{Sink, Source};
use picky_asn1::wrapper::ObjectIdentifierAsn1;
use picky_asn1_der::{
    Asn1DerError, Deserialize, Deserializer, Fields, FromDer, OctetPair, Row3, Serialize,
    Serializer, Tagged, read_sequence,
};
use std::alloc::Global;

/// A message with its token id, after its mechanism (RFC 4121, section 4.1): the content of a first token, under the tag of
/// [`ApplicationTag0`]. Neither the mechanism nor the token id is checked.
///
/// ```text
/// GSSAPI-Token ::= [APPLICATION 0] IMPLICIT SEQUENCE {
///      thisMech     MechType,
///      innerToken   ANY DEFINED BY thisMech -- here the two octets and the message -- }
/// ```
#[derive(Debug, Drop, PartialEq, Eq, Clone)]
pub struct KrbMessage<T> {
    /// The mechanism.
    pub krb5_oid: ObjectIdentifierAsn1,
    /// TOK_ID: the id of the message (RFC 4121, section 4.1).
    pub krb5_token_id: [u8; 2],
    /// The message.
    pub krb_msg: T,
}

impl<T: FromDer> KrbMessage<T> {
    ghost use Rattle.gss_contexts.specs.KrbMessages.{BeginsKrbMessage};
    ghost use Rattle.gss_contexts.specs.ContextTokenRefusals.{IsTokenRefusal};

    /// Reads the token that begins the bytes. Bytes after it are left.
    ///
    /// If there is no such token, the error is `Asn1Error`, or `IoError` if the token's content ends before the message. `Memory` says
    /// that memory ran out.
    pub fn decode_application_krb_message(
        alloc: Global,
        bytes: &[u8],
    ) -> Result<ApplicationTag0<KrbMessage<T>>, GssApiMessageError>
        ensures { MatchResult result
            (λ token. BeginsKrbMessage T.reads token.0 bytes.now)
            (IsTokenRefusal (λ (m : KrbMessage T). BeginsKrbMessage T.reads m bytes.now) bytes.now) }
    {
        let (krb5_oid, inner) = mechanism_of(alloc, bytes)?;
        let (krb5_token_id, message) = split_id(inner)?;
        let krb_msg = whole_value(alloc, message)?;
        Ok(ApplicationTag0(KrbMessage {
            krb5_oid,
            krb5_token_id,
            krb_msg,
        }))
    }
}

impl<T: Serialize> KrbMessage<T> {
    ghost use Rattle.gss_contexts.specs.KrbMessages.{krb_message_content};
    ghost use Rattle.gss_contexts.specs.ContextTokens.{token_bytes};
    ghost use Rattle.gss_contexts.specs.ContextTokenRefusals.{IsUnwritten, IsWritten};

    /// Encodes the content of the token.
    fn content(&self, alloc: Global) -> Result<Vec<u8>, GssApiMessageError>
        ensures { MatchResult result
            (λ bytes. bytes.items ≡ krb_message_content T.tree self.now)
            (IsUnwritten (refusal_of T.refusal self.now.krb_msg)) }
    {
        let mut content = told(alloc, &self.krb5_oid, &self.krb5_token_id)?;
        put_value(&self.krb_msg, &mut content)?;
        Ok(content)
    }

    /// Writes what stands inside the token; a front of it where the writer stops.
    pub fn encode<W: Sink>(&self, alloc: Global, writer: &mut W) -> Result<(), GssApiMessageError>
        ensures written { IsWritten (refusal_of T.refusal self.now.krb_msg) (krb_message_content T.tree self.now)
            (W.written writer.old) (W.written writer.new) (W.failed writer.old) (W.failed writer.new) (W.last_fault writer.new) result }
        ensures same { W.through writer.new ≡ W.through writer.old }
    {
        let content = self.content(alloc)?;
        put_out(&content, writer)
    }

    /// The whole token.
    fn token(&self, alloc: Global) -> Result<Vec<u8>, GssApiMessageError>
        ensures { MatchResult result
            (λ bytes. bytes.items ≡ token_bytes (krb_message_content T.tree self.now))
            (IsUnwritten (refusal_of T.refusal self.now.krb_msg)) }
    {
        let content = self.content(alloc)?;
        token_of(alloc, content)
    }

    /// The token's content as a value of DER: a SEQUENCE (0x30), and the token itself (0x60) in [`ApplicationTag0`].
    ///
    /// It holds the content's octets. A message of a type that is read is such a value itself, and takes no memory to be written.
    pub fn to_sequence(&self, alloc: Global) -> Result<TokenSequence, GssApiMessageError>
        ensures { MatchResult result
            (λ value. (der (⟦<TokenSequence as Serialize>⟧.tree value) ≡ element sequence_octet (krb_message_content T.tree self.now))
            × (der (⟦<ApplicationTag0<TokenSequence> as Serialize>⟧.tree (record { 0 = value })) ≡ token_bytes (krb_message_content T.tree self.now)))
            (IsUnwritten (refusal_of T.refusal self.now.krb_msg)) }
    {
        let content = self.content(alloc)?;
        Ok(sequence_of(content))
    }

    /// Writes the whole token; a front of it where the writer stops.
    pub fn encode_application_krb_message<W: Sink>(
        &self,
        alloc: Global,
        writer: &mut W,
    ) -> Result<(), GssApiMessageError>
        ensures written { IsWritten (refusal_of T.refusal self.now.krb_msg) (token_bytes (krb_message_content T.tree self.now))
            (W.written writer.old) (W.written writer.new) (W.failed writer.old) (W.failed writer.new) (W.last_fault writer.new) result }
        ensures same { W.through writer.new ≡ W.through writer.old }
    {
        let token = self.token(alloc)?;
        put_out(&token, writer)
    }
}

type KrbMessageRow<T> = Row3<ObjectIdentifierAsn1, OctetPair, T>;

/// The content of a token, as a SEQUENCE; in [`ApplicationTag0`] it is the token.
impl<T: Deserialize + Drop> Tagged for KrbMessage<T> {
    ghost use Rattle.std.proofs.Common.{refl, true, None, Some};
    ghost use Rattle.asn1_der.specs.Seen.{Alike, seen_part};
    ghost use Rattle.asn1_der.specs.Tagged.{sequence};
    ghost use Rattle.asn1_der.proofs.Alike.{alike-part};
    ghost use Rattle.asn1_der.proofs.Tagged.{sequence_laws_as};
    ghost use Rattle.asn1_der.specs.Refusals.{first_refusal};

    type Row = KrbMessageRow<T>;

    const FIRST: u8 = SEQUENCE;

    ghost FIRST = { sequence_octet };

    ghost row_tree = { sequence ⟦<KrbMessageRow<T> as Fields>⟧.trees };

    ghost row_seen = { ⟦<KrbMessageRow<T> as Fields>⟧.seen };

    ghost seen = { seen_part (λ v. (v.krb5_oid, (record { 0 = v.krb5_token_id }, (v.krb_msg, tt)))) ⟦<KrbMessageRow<T> as Fields>⟧.seen };

    ghost row_laws = { sequence_laws_as (Alike ⟦<KrbMessageRow<T> as Fields>⟧.seen) ⟦<KrbMessageRow<T> as Fields>⟧.trees (⟦<KrbMessageRow<T> as Fields>⟧.injective (refl {a = true})) };

    ghost row_of = { λ v. (v.krb5_oid, (record { 0 = v.krb5_token_id }, (v.krb_msg, tt))) };

    ghost one_row = { λ v w e. alike-part ⟦<KrbMessageRow<T> as Fields>⟧.seen v w (λ v. (v.krb5_oid, (record { 0 = v.krb5_token_id }, (v.krb_msg, tt)))) (λ f. record { krb5_oid = f.0; krb5_token_id = f.1.0.0; krb_msg = f.1.1.0 }) (λ v. refl) e };

    ghost refuses = { Some (λ v. first_refusal (refusal_of T.refusal v.krb_msg) None) };

    fn read_row<R: Source>(tag: u8, from: &mut Deserializer<R>) -> Result<Self::Row, Asn1DerError> {
        read_sequence(tag, from)
    }

    fn of_row(row: Self::Row) -> Self {
        let (krb5_oid, (OctetPair(krb5_token_id), (krb_msg, ()))) = row;
        KrbMessage {
            krb5_oid,
            krb5_token_id,
            krb_msg,
        }
    }

    fn write_row<W: Sink>(&self, tag: u8, to: &mut Serializer<W>) -> Result<usize, Asn1DerError> {
        let id = OctetPair(self.krb5_token_id);
        to.list(tag, &(&self.krb5_oid, (&id, (&self.krb_msg, ()))))
    }
}
