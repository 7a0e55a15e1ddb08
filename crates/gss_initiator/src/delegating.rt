//! What an initiator delegates: a forwarded ticket in a KRB-CRED (RFC 4121, sections 4.1.1 and 4.1.1.1; RFC 4120, sections 3.6 and 5.8).
ghost use Rattle.std.specs.Prelude.{◌≡◌, ◌<◌, ◌≤◌, ◌∷◌, [], length, IfOk};
ghost use Rattle.krb_client.specs.Held.{principal_name};
ghost use Rattle.krb_constants.specs.declared.types.TheConstants.{NT_PRINCIPAL};
ghost use Rattle.krb_tickets.specs.Sealing.{encryption_key};
ghost use Rattle.gss_initiator.specs.Delegating.{HandsOn, IsSealedPart, cred_info, cred_part, cred_part_bytes, delegating, delegation_octets, krb_cred_bytes, krb_cred_of, tagged_till};

use byte_streams::u32_le_bytes;
use gss_acceptor::context_flags::DELEGATION;
use gss_acceptor::{ContextFlags, DLG_OPT, InitialChecksum};
use krb_client::{Client, Credential};
use krb_constants::key_usages::KRB_CRED_ENC_PART;
use krb_constants::types::{
    ENC_KRB_CRED_PART_TYPE, KERBEROS_VERSION, KRB_CRED_MSG_TYPE, NT_PRINCIPAL,
};
use krb_messages::data_types::{EncryptedData, EncryptionKey, KerberosTime, PrincipalName, Ticket};
use krb_messages::{EncKrbCredPartInner, KrbCredInfo, KrbCredInner};
use krb_tickets::{confounder_at, encryption_key, sealed_data};
use picky_asn1::wrapper::{
    Asn1SequenceOf, GeneralStringAsn1, GeneralizedTimeAsn1, IntegerAsn1, OctetStringAsn1,
};
use picky_asn1_der::{
    ExplicitContextTag, ExplicitContextTag7, LentFields, Optional, both, tagged_encoding,
};
use std::alloc::{AllocError, Global};

/// Where the confounder of a KRB-CRED's part begins in the random octets of a call.
const CRED_CONFOUNDER: usize = 64;

/// The octets that are too many for Dlgth, which has two octets.
pub(crate) const TOO_LONG: usize = 65536;

/// These bindings and flags, with the flag of delegation.
pub(crate) fn delegating(initial: InitialChecksum) -> InitialChecksum
    ensures { result ≡ delegating initial }
{
    let InitialChecksum { bindings, flags } = initial;
    InitialChecksum {
        bindings,
        flags: ContextFlags(flags.0 | DELEGATION),
    }
}

/// The octets of a delegation in the checksum, after the flags: DlgOpt and Dlgth, in two octets each, the lowest first, and Deleg.
pub(crate) fn delegation_octets(alloc: Global, deleg: &[u8]) -> Result<Vec<u8>, AllocError>
    requires { length deleg.now < 65536 }
    ensures { IfOk result (λ octets. octets.items ≡ delegation_octets deleg.now) }
{
    let front = DLG_OPT + 65536 * (deleg.len() as u32);
    let mut octets = Vec::from_slice(alloc, &u32_le_bytes(front))?;
    octets.extend_from_slice(deleg)?;
    Ok(octets)
}

/// The KRB-CRED that hands on a client's forwarded ticket, under the session key of the credential. `words`: random octets, of which 64 to
/// 79 are the confounder.
pub(crate) fn krb_cred(
    alloc: Global,
    client: &Client,
    credential: &Credential,
    forwarded: &Credential,
    words: &[u8],
) -> Result<Vec<u8>, AllocError>
    requires { 96 ≤ length words.now }
    ensures { IfOk result (λ bytes. HandsOn client.now credential.now forwarded.now words.now bytes.items) }
{
    let plain = plain_part(alloc, client, forwarded)?;
    let sealed = sealed_part(alloc, credential, words, &plain)?;
    let message = krb_cred_of(alloc, forwarded.ticket(), sealed)?;
    let bytes = krb_cred_bytes(alloc, message)?;
    Ok(bytes)
}

// The encoding of the part.
fn plain_part(alloc: Global, client: &Client, forwarded: &Credential) -> Result<Vec<u8>, AllocError>
    ensures { IfOk result (λ plain. plain.items ≡ cred_part_bytes (cred_part client.now forwarded.now)) }
{
    let part = cred_part(alloc, client, forwarded)?;
    let plain = cred_part_bytes(alloc, part)?;
    Ok(plain)
}

// The part, sealed under the session key.
fn sealed_part(
    alloc: Global,
    credential: &Credential,
    words: &[u8],
    plain: &[u8],
) -> Result<EncryptedData, AllocError>
    requires { 96 ≤ length words.now }
    ensures { IfOk result (IsSealedPart credential.now words.now plain.now) }
{
    let confounder = confounder_at(credential.suite(), words, CRED_CONFOUNDER);
    let sealed = sealed_data(
        alloc,
        credential.key(),
        None,
        KRB_CRED_ENC_PART,
        confounder,
        plain,
    )?;
    Ok(sealed)
}

// The part, which tells of the one ticket.
#[tactic(auto, unfolding(crate::specs::Delegating::cred_part))]
fn cred_part(
    alloc: Global,
    client: &Client,
    forwarded: &Credential,
) -> Result<EncKrbCredPartInner, AllocError>
    ensures { IfOk result (λ part. part ≡ cred_part client.now forwarded.now) }
{
    let infos = cred_infos(alloc, client, forwarded)?;
    Ok(EncKrbCredPartInner {
        ticket_info: ExplicitContextTag(infos),
        nonce: Optional(None),
        timestamp: Optional(None),
        usec: Optional(None),
        s_address: Optional(None),
        r_address: Optional(None),
    })
}

// The information on the one ticket, as a list.
fn cred_infos(
    alloc: Global,
    client: &Client,
    forwarded: &Credential,
) -> Result<Asn1SequenceOf<KrbCredInfo>, AllocError>
    ensures { IfOk result (λ infos. infos ≡ cred_info client.now forwarded.now ∷ []) }
{
    let info = cred_info(alloc, client, forwarded)?;
    let infos = vec![in alloc; info]?;
    Ok(Asn1SequenceOf::from(infos))
}

// The information on the ticket: the session key, the client, the flags, the times and the service.
#[tactic(auto, unfolding(crate::specs::Delegating::cred_info))]
fn cred_info(
    alloc: Global,
    client: &Client,
    forwarded: &Credential,
) -> Result<KrbCredInfo, AllocError>
    ensures { IfOk result (λ info. info ≡ cred_info client.now forwarded.now) }
{
    let key = session_key(alloc, forwarded);
    let name = principal_name(alloc, client.components());
    let flags: Result<_, AllocError> = forwarded.flags().clone();
    let realms = (client.realm(), (forwarded.realm(), ())).copied();
    let service: Result<_, AllocError> = forwarded.service().clone();
    let ((key, name), (flags, (realms, service))) = both(
        both(key, name),
        both(flags, both(realms, service)),
    )?;
    Ok(KrbCredInfo {
        key: ExplicitContextTag(key),
        prealm: Optional(Some(ExplicitContextTag(realms.0))),
        pname: Optional(Some(ExplicitContextTag(name))),
        flags: Optional(Some(ExplicitContextTag(flags))),
        auth_time: Optional(Some(ExplicitContextTag(GeneralizedTimeAsn1(forwarded.authtime())))),
        start_time: Optional(Some(ExplicitContextTag(GeneralizedTimeAsn1(forwarded.starttime())))),
        end_time: Optional(Some(ExplicitContextTag(GeneralizedTimeAsn1(forwarded.endtime())))),
        renew_till: Optional(tagged_till(forwarded)),
        srealm: Optional(Some(ExplicitContextTag(realms.1.0))),
        sname: Optional(Some(ExplicitContextTag(service))),
        caddr: Optional(None),
    })
}

// The session key of the ticket, with the number of its suite.
fn session_key(alloc: Global, forwarded: &Credential) -> Result<EncryptionKey, AllocError>
    ensures { IfOk result (λ key. key ≡ encryption_key forwarded.now.suite forwarded.now.key) }
{
    let octets = Vec::from_slice(alloc, forwarded.key().as_bytes())?;
    let octets = OctetStringAsn1::from(octets);
    let key = encryption_key(alloc, forwarded.suite(), &octets)?;
    Ok(key)
}

// The name of a principal with copies of the components (RFC 4120, section 6.2).
fn principal_name(
    alloc: Global,
    components: &[GeneralStringAsn1],
) -> Result<PrincipalName, AllocError>
    ensures { IfOk result (λ name. name ≡ principal_name NT_PRINCIPAL components.now) }
{
    let kind = IntegerAsn1::from_u64(alloc, u64::from(NT_PRINCIPAL));
    let (kind, copies) = both(kind, copies_of(alloc, components))?;
    Ok(PrincipalName {
        name_type: ExplicitContextTag(kind),
        name_string: ExplicitContextTag(copies),
    })
}

fn copies_of(
    alloc: Global,
    components: &[GeneralStringAsn1],
) -> Result<Asn1SequenceOf<GeneralStringAsn1>, AllocError>
    ensures { IfOk result (λ copies. copies ≡ components.now) }
{
    let mut copies = Vec::with_capacity(alloc, components.len())?;
    for component in components {
        copies.push(component.clone()?)?;
    }
    Ok(Asn1SequenceOf::from(copies))
}

// renew-till as a field, if the ticket is renewable.
fn tagged_till(forwarded: &Credential) -> Option<ExplicitContextTag7<KerberosTime>>
    ensures { result ≡ tagged_till forwarded.now.renew_till }
{
    match forwarded.renew_till() {
        Some(time) => Some(ExplicitContextTag(GeneralizedTimeAsn1(time))),
        None => None,
    }
}

// The encoding of the part.
#[tactic(auto, unfolding(crate::specs::Delegating::cred_part_bytes))]
fn cred_part_bytes(alloc: Global, part: EncKrbCredPartInner) -> Result<Vec<u8>, AllocError>
    ensures { IfOk result (λ bytes. bytes.items ≡ cred_part_bytes part) }
{
    let bytes = tagged_encoding::<EncKrbCredPartInner, ENC_KRB_CRED_PART_TYPE>(alloc, part)?;
    Ok(bytes)
}

// The message with the ticket and the sealed part.
#[tactic(auto, unfolding(crate::specs::Delegating::krb_cred_of))]
fn krb_cred_of(
    alloc: Global,
    ticket: &Ticket,
    part: EncryptedData,
) -> Result<KrbCredInner, AllocError>
    ensures { IfOk result (λ message. message ≡ krb_cred_of ticket.now.0 part) }
{
    let version = IntegerAsn1::from_u64(alloc, u64::from(KERBEROS_VERSION));
    let kind = IntegerAsn1::from_u64(alloc, u64::from(KRB_CRED_MSG_TYPE));
    let tickets = tickets_of(alloc, ticket);
    let ((version, kind), (tickets, part)) = both(both(version, kind), both(tickets, Ok(part)))?;
    Ok(KrbCredInner {
        pvno: ExplicitContextTag(version),
        msg_type: ExplicitContextTag(kind),
        tickets: ExplicitContextTag(tickets),
        enc_part: ExplicitContextTag(part),
    })
}

// The one ticket, as a list.
fn tickets_of(alloc: Global, ticket: &Ticket) -> Result<Asn1SequenceOf<Ticket>, AllocError>
    ensures { IfOk result (λ tickets. tickets ≡ ticket.now ∷ []) }
{
    let copy = ticket.clone()?;
    let tickets = vec![in alloc; copy]?;
    Ok(Asn1SequenceOf::from(tickets))
}

// The encoding of the message.
#[tactic(auto, unfolding(crate::specs::Delegating::krb_cred_bytes))]
fn krb_cred_bytes(alloc: Global, message: KrbCredInner) -> Result<Vec<u8>, AllocError>
    ensures { IfOk result (λ bytes. bytes.items ≡ krb_cred_bytes message) }
{
    let bytes = tagged_encoding::<KrbCredInner, KRB_CRED_MSG_TYPE>(alloc, message)?;
    Ok(bytes)
}
