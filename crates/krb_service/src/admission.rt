//! What a service gets of a client that it admits.
ghost use Rattle.std.specs.Prelude.{◌≡◌, ◌≤◌, false, length, IfOk};
ghost use Rattle.std.specs.Option.{option_map};
ghost use Rattle.krb_messages.specs.RandomBytes.{AreEnoughForApReply};
ghost use Rattle.krb_ap_requests.specs.ApTable.{starttime_of};
ghost use Rattle.krb_service.specs.Admission.{admission_of, authorization_data_of, checksum_of, seq_number_of, subkey_of};
ghost use Rattle.krb_service.specs.ApReply.{HasSessionKey, IsReplyTo, IsReplyWith, random_size};

use crate::reply::{ReplyFields, ap_reply};
use krb_ap_requests::{Presented, starttime_of};
use krb_crypto::Key;
use krb_messages::data_types::{
    AuthenticatorInner, AuthorizationData, Checksum, EncTicketPartInner, EncryptionKey,
    KerberosFlags, PrincipalName, Realm,
};
use krb_tickets::key_of;
use picky_asn1::date::GeneralizedTime;
use picky_asn1::wrapper::IntegerAsn1;
use picky_asn1_der::{ExplicitContextTag, Optional};
use std::alloc::{AllocError, Global};
use std::marker::Model;

/// What a service gets of a client that it admits, from the ticket and the authenticator (RFC 4120, section 3.2.3).
///
/// The service judged the ticket's times and flags at the moment of the call. A context that lasts longer has to compare
/// `endtime` with the clock again (`Moment::is_after`).
#[derive(Drop)]
pub struct Admission {
    /// The client's realm.
    pub realm: Realm,
    /// The client, as its ticket names it.
    pub client: PrincipalName,
    /// The session key, which the client knows.
    pub session: EncryptionKey,
    /// The ticket's authtime: when the client authenticated itself for its first ticket (RFC 4120, section 5.3).
    pub authtime: GeneralizedTime,
    /// When the ticket starts: its starttime, or its authtime where it has no starttime (RFC 4120, section 5.3).
    pub starttime: GeneralizedTime,
    /// The ticket's endtime (RFC 4120, section 5.3).
    pub endtime: GeneralizedTime,
    /// The ticket's flags, which `krb_constants::ticket_flags` numbers (RFC 4120, section 5.3).
    pub flags: KerberosFlags,
    /// The ticket's authorization data, if it has any (RFC 4120, section 5.2.6). The service doesn't judge it.
    pub authorization_data: Option<AuthorizationData>,
    /// The key that the client chose for what follows, if it chose one.
    pub subkey: Option<EncryptionKey>,
    /// The authenticator's checksum (RFC 4120, section 5.5.1). The service doesn't judge it.
    pub checksum: Option<Checksum>,
    /// The first sequence number of the client's messages, as the authenticator has it (RFC 4120, section 5.5.1).
    pub seq_number: Option<IntegerAsn1>,
    /// The AP reply, where the client asked for one.
    pub reply: Option<Vec<u8>>,
}

impl Model for Admission {
    ghost use Rattle.std.specs.Option.{option_map};
    ghost use Rattle.krb_service.specs.Admission.{AdmissionRecord};

    ghost Value = { AdmissionRecord };

    ghost view = { λ a. record {
      realm = a.realm;
      client = a.client;
      session = a.session;
      authtime = a.authtime;
      starttime = a.starttime;
      endtime = a.endtime;
      flags = a.flags;
      authorization_data = a.authorization_data;
      subkey = a.subkey;
      checksum = a.checksum;
      seq_number = a.seq_number;
      reply = option_map (λ v. v.items) a.reply;
    } };
}

/// Makes the admission of what was presented, with the AP-REP to it.
pub fn admission_of(presented: Presented, reply: Option<Vec<u8>>) -> Admission
    ensures { result ≡ admission_of presented (option_map (λ bytes. bytes.items) reply) }
{
    let Presented {
        part,
        authenticator,
        ..
    } = presented;
    admission_with(part, taken_from(authenticator), reply)
}

// The fields of an authenticator that an admission has.
#[derive(Drop)]
struct Taken {
    subkey: Option<EncryptionKey>,
    checksum: Option<Checksum>,
    seq_number: Option<IntegerAsn1>,
}

// Makes the admission of the ticket's client, with the authenticator's fields and this AP-REP.
fn admission_with(part: EncTicketPartInner, taken: Taken, reply: Option<Vec<u8>>) -> Admission
    ensures { result ≡ record { realm = part.crealm.0; client = part.cname.0; session = part.key.0; authtime = part.auth_time.0.0; starttime = starttime_of part; endtime = part.endtime.0.0; flags = part.flags.0; authorization_data = authorization_data_of part; subkey = taken.subkey; checksum = taken.checksum; seq_number = taken.seq_number; reply = option_map (λ v. v.items) reply } }
{
    let authtime = part.auth_time.0.0;
    let starttime = starttime_of(&part);
    let endtime = part.endtime.0.0;
    let EncTicketPartInner {
        flags: ExplicitContextTag(flags),
        key: ExplicitContextTag(session),
        crealm: ExplicitContextTag(realm),
        cname: ExplicitContextTag(client),
        authorization_data: Optional(data),
        ..
    } = part;
    let Taken {
        subkey,
        checksum,
        seq_number,
    } = taken;
    Admission {
        realm,
        client,
        session,
        authtime,
        starttime,
        endtime,
        flags,
        authorization_data: untagged(data),
        subkey,
        checksum,
        seq_number,
        reply,
    }
}

// Takes the subkey, the checksum and the sequence number out of an authenticator.
fn taken_from(mut authenticator: AuthenticatorInner) -> Taken
    ensures { result ≡ record { subkey = subkey_of authenticator; checksum = checksum_of authenticator; seq_number = seq_number_of authenticator } }
{
    let subkey = authenticator.subkey.0.take();
    let checksum = authenticator.cksum.0.take();
    let number = authenticator.seq_number.0.take();
    drop(authenticator);
    Taken {
        subkey: untagged(subkey),
        checksum: untagged(checksum),
        seq_number: untagged(number),
    }
}

// Returns the value under a tag, if there is one.
fn untagged<const N: u8, T: Drop>(tagged: Option<ExplicitContextTag<N, T>>) -> Option<T>
    ensures { result ≡ option_map (λ value. value.0) tagged }
{
    if let Some(value) = tagged {
        return Some(value.0);
    }
    None
}

/// The reply to what was presented, if one is required, with the authenticator's time alone (RFC 4120, section 3.2.4). `words`: random
/// bytes, of which the first 16 count. This fails only if memory runs out. It takes no memory if no reply is required.
///
/// The session key has to be one of the presented suite, as `KeytabEntry::receive` gives it.
pub fn reply_to(
    alloc: Global,
    presented: &Presented,
    words: &[u8],
) -> Result<Option<Vec<u8>>, AllocError>
    requires confounder { AreEnoughForApReply words.now }
    requires keyed { HasSessionKey presented.now }
    ensures reply { IfOk result (λ reply. IsReplyTo presented.now words.now (option_map (λ bytes. bytes.items) reply)) }
    ensures unwanted { presented.now.wants_reply ≡ false → result ≡ Ok None }
{
    reply_with(alloc, presented, ReplyFields::TimeAlone, words)
}

/// The reply to what was presented, as [`reply_to`] makes it, but with these fields.
pub fn reply_with(
    alloc: Global,
    presented: &Presented,
    fields: ReplyFields,
    words: &[u8],
) -> Result<Option<Vec<u8>>, AllocError>
    requires enough { random_size fields ≤ length words.now }
    requires keyed { HasSessionKey presented.now }
    ensures reply { IfOk result (λ reply. IsReplyWith fields presented.now words.now (option_map (λ bytes. bytes.items) reply)) }
    ensures unwanted { presented.now.wants_reply ≡ false → result ≡ Ok None }
{
    if !presented.wants_reply {
        return Ok(None);
    }
    let key = session_key(presented);
    let bytes = ap_reply(alloc, &key, fields, &presented.authenticator, words)?;
    Ok(Some(bytes))
}

// Returns the session key, which is one of the presented suite.
fn session_key(presented: &Presented) -> Key
    requires { HasSessionKey presented.now }
    ensures { result ≡ record { suite = presented.now.suite; bytes = presented.now.part.key.0.key_value.0 } }
{
    key_of(&presented.part.key.0).unwrap()
}
