//! The reply that grants a ticket, and the reply key, under which its own part is encrypted.
ghost use Rattle.std.specs.Prelude.{◌≡◌, length, pos, IfOk};
ghost use Rattle.std.specs.Option.{option_map};
ghost use Rattle.krb_crypto.specs.Suites.{cipher_confounder_size};
ghost use Rattle.krb_tickets.specs.Grant.{grant_of};
ghost use Rattle.krb_tickets.specs.Sealed.{IsSealedReply, kdc_reply_bytes, reply_part_bytes};
ghost use Rattle.krb_tickets.specs.Parts.{kdc_reply_of, padata_of, reply_part, reply_type, ticket_of};
ghost use Rattle.krb_tickets.specs.ReplyKeys.{reply_key_of};

use crate::grant::{Grant, ticket_of};
use crate::methods::pa_data;
use crate::parts::reply_part;
use crate::sealed_data;
use krb_constants::key_usages;
use krb_constants::padata_types::PA_PK_AS_REP;
use krb_constants::types::{
    AS_REP_MSG_TYPE, ENC_AS_REP_PART_TYPE, ENC_TGS_REP_PART_TYPE, KERBEROS_VERSION,
    TGS_REP_MSG_TYPE,
};
use krb_crypto::Key;
use krb_messages::data_types::{EncryptedData, PaData};
use krb_messages::messages::{EncKdcRepPart, KdcRep};
use krb_realm_accounts::Account;
use picky_asn1::wrapper::{Asn1SequenceOf, IntegerAsn1};
use picky_asn1_der::{
    ApplicationTag, ExplicitContextTag, ExplicitContextTag2, LentFields, Optional, both,
    tagged_encoding,
};
use std::alloc::{AllocError, Global};

/// The exchange that a ticket is granted in (RFC 4120, sections 3.1 and 3.3).
#[derive(Clone, Copy, Debug, PartialEq, Eq)]
pub enum Exchange {
    /// The AS exchange, in which the client authenticates itself by its own key or certificate.
    As,
    /// The TGS exchange, in which the client presents a ticket that it was granted before.
    Tgs,
}

/// The key under which a reply's own part is encrypted (RFC 4120, sections 3.1.3 and 3.3.3).
#[derive(Clone, Copy)]
pub struct ReplyKey<'a> {
    /// The exchange of the reply.
    pub exchange: Exchange,
    /// The key.
    pub key: &'a Key,
    /// The kvno, if there is one.
    pub kvno: Option<u32>,
    /// The key usage (RFC 4120, section 7.5.1).
    pub usage: i32,
    /// The data of PA-PK-AS-REP, if client and realm agreed on the key.
    pub pk_as_rep: Option<&'a [u8]>,
}

impl<'a> ReplyKey<'a> {
    ghost use Rattle.krb_tickets.specs.ReplyKeys.{agreed_reply_key, as_reply_key, reply_key_of, tgs_reply_key, tgs_subkey_reply_key};

    /// The client's key, the reply key of an AS exchange by encrypted timestamp.
    pub fn of_client(client: &'a Account) -> ReplyKey<'a>
        ensures { reply_key_of result ≡ as_reply_key client.now }
    {
        ReplyKey {
            exchange: Exchange::As,
            key: client.key(),
            kvno: Some(client.kvno()),
            usage: key_usages::AS_REP_ENC,
            pk_as_rep: None,
        }
    }

    /// The presented ticket's session key, the reply key of a TGS exchange without a subkey.
    pub fn of_session(key: &'a Key) -> ReplyKey<'a>
        ensures { reply_key_of result ≡ tgs_reply_key key.now.suite key.now.bytes }
    {
        ReplyKey {
            exchange: Exchange::Tgs,
            key,
            kvno: None,
            usage: key_usages::TGS_REP_ENC_SESSION_KEY,
            pk_as_rep: None,
        }
    }

    /// The authenticator's subkey, the reply key of a TGS exchange that has one.
    pub fn of_subkey(key: &'a Key) -> ReplyKey<'a>
        ensures { reply_key_of result ≡ tgs_subkey_reply_key key.now.suite key.now.bytes }
    {
        ReplyKey {
            exchange: Exchange::Tgs,
            key,
            kvno: None,
            usage: key_usages::TGS_REP_ENC_SUB_KEY,
            pk_as_rep: None,
        }
    }

    /// The key that client and realm agreed on by certificate, with the data of PA-PK-AS-REP, the reply key of such an exchange.
    pub fn of_agreement(key: &'a Key, pk_as_rep: &'a [u8]) -> ReplyKey<'a>
        ensures { reply_key_of result ≡ agreed_reply_key key.now.suite key.now.bytes pk_as_rep.now }
    {
        ReplyKey {
            exchange: Exchange::As,
            key,
            kvno: None,
            usage: key_usages::AS_REP_ENC,
            pk_as_rep: Some(pk_as_rep),
        }
    }
}

/// Encrypts the reply's own part under the reply key, with the confounder. It fails only if memory runs out.
pub fn sealed_reply(
    alloc: Global,
    grant: &Grant<'_>,
    under: &ReplyKey<'_>,
    confounder: &[u8],
) -> Result<EncryptedData, AllocError>
    requires { length confounder.now ≡ cipher_confounder_size under.now.key.now.suite }
    ensures { IfOk result (IsSealedReply (reply_key_of under.now) confounder.now
        (reply_part_bytes under.now.exchange (reply_part (grant_of grant.now)))) }
{
    let part = reply_part(alloc, grant)?;
    let plain = reply_part_bytes(alloc, under.exchange, part)?;
    let sealed = sealed_data(
        alloc,
        under.key,
        under.kvno,
        under.usage,
        confounder,
        &plain,
    )?;
    Ok(sealed)
}

/// Encodes the exchange's reply with the encrypted parts of the ticket and of the reply, and with PA-PK-AS-REP where its data is
/// given.
pub fn reply_bytes(
    alloc: Global,
    exchange: Exchange,
    pk_as_rep: Option<&[u8]>,
    grant: &Grant<'_>,
    ticket: EncryptedData,
    part: EncryptedData,
) -> Result<Vec<u8>, AllocError>
    ensures { IfOk result (λ bytes. bytes.items ≡ kdc_reply_bytes exchange (kdc_reply_of exchange (option_map (λ reply. reply.now) pk_as_rep.entry) (grant_of grant.now) (ticket_of (grant_of grant.now) ticket) part)) }
{
    let reply = kdc_reply_of(alloc, exchange, pk_as_rep, grant, ticket, part)?;
    let bytes = kdc_reply_bytes(alloc, exchange, reply)?;
    Ok(bytes)
}

// Makes the reply with the encrypted parts of the ticket and of the reply, and with PA-PK-AS-REP where its data is given.
#[tactic(auto, unfolding(crate::specs::Parts::kdc_reply_of))]
fn kdc_reply_of(
    alloc: Global,
    exchange: Exchange,
    pk_as_rep: Option<&[u8]>,
    grant: &Grant<'_>,
    ticket: EncryptedData,
    part: EncryptedData,
) -> Result<KdcRep, AllocError>
    ensures { IfOk result (λ reply. reply ≡ kdc_reply_of exchange (option_map (λ reply. reply.now) pk_as_rep.entry) (grant_of grant.now) (ticket_of (grant_of grant.now) ticket) part) }
{
    let version = IntegerAsn1::from_u64(alloc, u64::from(KERBEROS_VERSION));
    let kind = reply_type(alloc, exchange);
    let names = (grant.realm, (grant.client, ())).copied();
    let padata = padata_of(alloc, pk_as_rep);
    let ticket = ticket_of(alloc, grant, ticket);
    let (front, (names, (padata, (ticket, part)))) = both(
        both(version, kind),
        both(names, both(padata, both(ticket, Ok(part)))),
    )?;
    Ok(KdcRep {
        pvno: ExplicitContextTag(front.0),
        msg_type: ExplicitContextTag(front.1),
        padata: Optional(padata),
        crealm: ExplicitContextTag(names.0),
        cname: ExplicitContextTag(names.1.0),
        ticket: ExplicitContextTag(ApplicationTag(ticket)),
        enc_part: ExplicitContextTag(part),
    })
}

// Makes the reply's padata: PA-PK-AS-REP with this data, or none (RFC 4556, section 3.2.3).
fn padata_of(
    alloc: Global,
    pk_as_rep: Option<&[u8]>,
) -> Result<Option<ExplicitContextTag2<Asn1SequenceOf<PaData>>>, AllocError>
    ensures { IfOk result (λ padata. padata ≡ padata_of (option_map (λ reply. reply.now) pk_as_rep.entry)) }
{
    let Some(reply) = pk_as_rep else {
        return Ok(None);
    };
    let reply = Vec::from_slice(alloc, reply)?;
    let entry = pa_data(alloc, PA_PK_AS_REP, reply)?;
    let entries = Asn1SequenceOf::from(vec![in alloc; entry]?);
    Ok(Some(ExplicitContextTag(entries)))
}

// The message type of the exchange's reply (RFC 4120, section 5.10).
fn reply_type(alloc: Global, exchange: Exchange) -> Result<IntegerAsn1, AllocError>
    ensures { IfOk result (λ kind. kind ≡ pos (reply_type exchange)) }
{
    match exchange {
        Exchange::As => IntegerAsn1::from_u64(alloc, u64::from(AS_REP_MSG_TYPE)),
        Exchange::Tgs => IntegerAsn1::from_u64(alloc, u64::from(TGS_REP_MSG_TYPE)),
    }
}

// Encodes the reply's own part as an EncASRepPart or EncTGSRepPart, and drops it.
#[tactic(auto, unfolding(crate::specs::Sealed::reply_part_bytes))]
fn reply_part_bytes(
    alloc: Global,
    exchange: Exchange,
    part: EncKdcRepPart,
) -> Result<Vec<u8>, AllocError>
    ensures { IfOk result (λ bytes. bytes.items ≡ reply_part_bytes exchange part) }
{
    match exchange {
        Exchange::As => tagged_encoding::<EncKdcRepPart, ENC_AS_REP_PART_TYPE>(alloc, part),
        Exchange::Tgs => tagged_encoding::<EncKdcRepPart, ENC_TGS_REP_PART_TYPE>(alloc, part),
    }
}

// Encodes the reply as an AS-REP or TGS-REP, and drops it.
#[tactic(auto, unfolding(crate::specs::Sealed::kdc_reply_bytes))]
fn kdc_reply_bytes(alloc: Global, exchange: Exchange, reply: KdcRep) -> Result<Vec<u8>, AllocError>
    ensures { IfOk result (λ bytes. bytes.items ≡ kdc_reply_bytes exchange reply) }
{
    match exchange {
        Exchange::As => tagged_encoding::<KdcRep, AS_REP_MSG_TYPE>(alloc, reply),
        Exchange::Tgs => tagged_encoding::<KdcRep, TGS_REP_MSG_TYPE>(alloc, reply),
    }
}
