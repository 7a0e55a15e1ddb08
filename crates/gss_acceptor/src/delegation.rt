//! What an initiator delegates: the KRB-CRED in its authenticator's checksum (RFC 4121, sections 4.1.1 and 4.1.1.1; RFC 4120, sections 3.6
//! and 5.8).
ghost use Rattle.std.specs.Prelude.{◌≡◌, IfOk};
ghost use Rattle.std.specs.Option.{option_map};
ghost use Rattle.picky_asn1_der.specs.Found.{IsFound};
ghost use Rattle.gss_acceptor.specs.Delegation.{IsCredPart, IsKrbCred, cred_in, deleg_in, delegated_by, delegated_in, delegated_of, delegation, is_each_told, is_krb_cred, opened_cred, part_in, summed};
ghost use Rattle.gss_acceptor.specs.Negotiation.{IsRead};

use crate::checksum::ContextFlags;
use crate::context_flags::DELEGATION;
use crate::refusal::AcceptRefusal;
use byte_streams::u32_le;
use krb_constants::key_usages;
use krb_constants::types::{KERBEROS_VERSION, KRB_CRED_MSG_TYPE};
use krb_crypto::Key;
use krb_messages::data_types::{Checksum, EncryptedData, EncryptionKey, Ticket};
use krb_messages::{
    EncKrbCredPart, EncKrbCredPartInner, KrbCred, KrbCredInfo, KrbCredInner, is_number,
};
use krb_tickets::{key_of, open_sealed};
use picky_asn1::wrapper::Asn1SequenceOf;
use picky_asn1_der::{ExplicitContextTag, read_whole};
use std::alloc::{AllocError, Global};

/// The place of DlgOpt in the checksum, after the flags.
const PLACE: usize = 24;

/// The place of Deleg in the checksum, after DlgOpt and Dlgth.
const FRONT: usize = 28;

/// The option of a delegation, DlgOpt.
pub const DLG_OPT: u32 = 1;

/// What an initiator delegates to the acceptor: tickets with their keys, mostly one ticket-granting ticket (RFC 4120, section 5.8).
///
/// Who has it acts as the client at each service, for as long as the tickets last. Its client isn't compared with the context's.
pub struct Delegated {
    /// The tickets, of which there is one or more.
    pub tickets: Asn1SequenceOf<Ticket>,
    /// The key, the client, the service, the flags and the times of each ticket, in their order, as the initiator tells them.
    pub infos: Asn1SequenceOf<KrbCredInfo>,
}

impl Drop for Delegated {
    fn drop(self) {
        let Delegated {
            tickets: _,
            infos: _,
        } = self;
    }
}

/// What the initiator delegates, if its flag says that it does. `session`: the session key of the ticket that it presents.
pub(crate) fn delegation(
    alloc: Global,
    flags: ContextFlags,
    session: &EncryptionKey,
    checksum: &Option<Checksum>,
) -> Result<Option<Delegated>, AcceptRefusal>
    ensures { IsRead (delegation flags session.now checksum.now).gives result }
{
    if !flags.is_set(DELEGATION) {
        return Ok(None);
    }
    match summed(alloc, session, checksum) {
        Ok(delegated) => Ok(Some(delegated)),
        Err(refusal) => Err(refusal),
    }
}

// Opens the delegation of the checksum, which has to be there.
fn summed(
    alloc: Global,
    session: &EncryptionKey,
    checksum: &Option<Checksum>,
) -> Result<Delegated, AcceptRefusal>
    ensures { IsRead (summed session.now checksum.now).gives result }
{
    match checksum {
        Some(checksum) => delegated_in(alloc, session, checksum.checksum.0.as_bytes()),
        None => Err(AcceptRefusal::BadDelegation),
    }
}

// Opens the delegation of a checksum's octets.
fn delegated_in(
    alloc: Global,
    session: &EncryptionKey,
    octets: &[u8],
) -> Result<Delegated, AcceptRefusal>
    ensures { IsRead (delegated_in session.now octets.now).gives result }
{
    let Some(deleg) = deleg_in(octets) else {
        return Err(AcceptRefusal::BadDelegation);
    };
    let Some(key) = key_of(session) else {
        return Err(AcceptRefusal::BadDelegation);
    };
    cred_in(alloc, &key, deleg)
}

// Returns Deleg, if DlgOpt, Dlgth and it are there.
fn deleg_in(octets: &[u8]) -> Option<&[u8]>
    ensures { option_map (λ o. o.now) result ≡ deleg_in octets.now }
{
    if octets.len() < FRONT {
        return None;
    }
    let front = u32_le(octets, PLACE);
    if front % 65536 != DLG_OPT {
        return None;
    }
    let size = (front / 65536) as usize;
    if octets.len() < FRONT + size {
        return None;
    }
    Some(&octets[FRONT..FRONT + size])
}

// Opens the KRB-CRED whose DER encoding the bytes are.
fn cred_in(alloc: Global, key: &Key, deleg: &[u8]) -> Result<Delegated, AcceptRefusal>
    ensures { IsRead (cred_in key.now deleg.now).gives result }
{
    let read = read_krb_cred(alloc, deleg)?;
    match read {
        Some(message) => opened_cred(alloc, key, message),
        None => Err(AcceptRefusal::BadDelegation),
    }
}

// Returns the KRB-CRED whose DER encoding the bytes are, or none (RFC 4120, section 5.8.1).
fn read_krb_cred(alloc: Global, bytes: &[u8]) -> Result<Option<KrbCredInner>, AllocError>
    ensures { IfOk result (IsFound (IsKrbCred bytes.now)) }
{
    let read: Option<KrbCred> = read_whole(alloc, bytes)?;
    match read {
        Some(message) => Ok(Some(message.0)),
        None => Ok(None),
    }
}

// Hands out what a KRB-CRED has.
fn opened_cred(alloc: Global, key: &Key, message: KrbCredInner) -> Result<Delegated, AcceptRefusal>
    ensures { IsRead (opened_cred key.now message).gives result }
{
    match part_in(alloc, key, &message) {
        Ok(part) => delegated_by(message, part),
        Err(refusal) => {
            drop(message);
            Err(refusal)
        }
    }
}

// Opens the enc-part of a KRB-CRED.
fn part_in(
    alloc: Global,
    key: &Key,
    message: &KrbCredInner,
) -> Result<EncKrbCredPartInner, AcceptRefusal>
    ensures { IsRead (part_in key.now message.now).gives result }
{
    if !is_krb_cred(message) {
        return Err(AcceptRefusal::BadDelegation);
    }
    let opened = open_cred_part(alloc, key, &message.enc_part.0)?;
    match opened {
        Some(part) => Ok(part),
        None => Err(AcceptRefusal::BadDelegation),
    }
}

// Whether the message's pvno is 5 and its msg-type KRB_CRED.
fn is_krb_cred(message: &KrbCredInner) -> bool
    ensures { result ≡ is_krb_cred message.now }
{
    is_number(&message.pvno.0, KERBEROS_VERSION)
        && is_number(&message.msg_type.0, u32::from(KRB_CRED_MSG_TYPE))
}

// Returns the part that the key opens, or none.
fn open_cred_part(
    alloc: Global,
    key: &Key,
    encrypted: &EncryptedData,
) -> Result<Option<EncKrbCredPartInner>, AllocError>
    ensures { IfOk result (IsFound (IsCredPart key.now encrypted.now)) }
{
    let found: Option<EncKrbCredPart> = open_sealed(
        alloc,
        key,
        key_usages::KRB_CRED_ENC_PART,
        encrypted,
    )?;
    match found {
        Some(part) => Ok(Some(part.0)),
        None => Ok(None),
    }
}

// Hands out the tickets and what is told of each, if there is one, and each is told of.
fn delegated_by(
    message: KrbCredInner,
    part: EncKrbCredPartInner,
) -> Result<Delegated, AcceptRefusal>
    ensures { result ≡ delegated_by message part }
{
    let delegated = delegated_of(message, part);
    if is_each_told(&delegated) {
        return Ok(delegated);
    }
    drop(delegated);
    Err(AcceptRefusal::BadDelegation)
}

// The tickets of the message, and what its part tells of them.
fn delegated_of(message: KrbCredInner, part: EncKrbCredPartInner) -> Delegated
    ensures { result ≡ delegated_of message part }
{
    let KrbCredInner {
        tickets: ExplicitContextTag(tickets),
        ..
    } = message;
    let EncKrbCredPartInner {
        ticket_info: ExplicitContextTag(infos),
        ..
    } = part;
    Delegated { tickets, infos }
}

// Whether there is a ticket, and as much is told as there are tickets.
fn is_each_told(delegated: &Delegated) -> bool
    ensures { result ≡ is_each_told delegated.now }
{
    let tickets = delegated.tickets.as_slice().len();
    tickets > 0 && tickets == delegated.infos.as_slice().len()
}
