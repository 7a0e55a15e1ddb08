//! What a ticket is granted with, and the ticket with its encrypted part.
ghost use Rattle.std.specs.Prelude.{◌≡◌, length, IfOk};
ghost use Rattle.krb_constants.specs.KeyUsages.{key_usage};
ghost use Rattle.krb_constants.specs.declared.key_usages.TheConstants.{TICKET_REP};
ghost use Rattle.krb_crypto.specs.Suites.{cipher_confounder_size};
ghost use Rattle.krb_tickets.specs.Grant.{grant_of};
ghost use Rattle.krb_tickets.specs.Sealed.{IsSealedData, ticket_part_bytes};
ghost use Rattle.krb_tickets.specs.Parts.{ticket_of, ticket_part};

use crate::parts::ticket_part;
use crate::sealed_data;
use krb_constants::key_usages;
use krb_constants::types::{ENC_TICKET_PART_TYPE, KERBEROS_VERSION};
use krb_crypto::CipherSuite;
use krb_messages::data_types::{
    EncTicketPartInner, EncryptedData, HostAddresses, PrincipalName, TicketInner,
};
use krb_realm_accounts::Account;
use picky_asn1::date::GeneralizedTime;
use picky_asn1::wrapper::{GeneralStringAsn1, IntegerAsn1, OctetStringAsn1};
use picky_asn1_der::{ExplicitContextTag, LentFields, both, tagged_encoding};
use std::alloc::{AllocError, Global};

/// What a ticket is granted with, in an AS or a TGS exchange. Names are borrowed: each message that holds one copies it once.
#[derive(Drop)]
pub struct Grant<'a> {
    /// The suite of the session's key.
    pub suite: CipherSuite,
    /// The session's key, which client and service will share.
    pub session: OctetStringAsn1,
    /// The realm of client and service.
    pub realm: &'a GeneralStringAsn1,
    /// The client, as it named itself, or as the presented ticket names it.
    pub client: &'a PrincipalName,
    /// The service, as the client named it.
    pub service: &'a PrincipalName,
    /// The ticket's flags.
    pub flags: TicketFlags,
    /// The second in which the client authenticated: the starttime, or that of the presented ticket.
    pub auth_time: GeneralizedTime,
    /// The second that the ticket starts in.
    pub starttime: GeneralizedTime,
    /// The second that the ticket ends in.
    pub endtime: GeneralizedTime,
    /// The last second that a renewed ticket may end in, if the ticket is renewable.
    pub renew_till: Option<GeneralizedTime>,
    /// The addresses that a forwarded ticket or a proxy is for, if the request has some. Nobody judges them.
    pub addresses: Option<&'a HostAddresses>,
    /// The request's nonce, which the reply repeats.
    pub nonce: &'a IntegerAsn1,
}

/// The flags of a ticket that a realm sets (RFC 4120, section 5.3); all others are zero.
#[derive(Clone, Copy, Debug, PartialEq, Eq)]
pub struct TicketFlags {
    /// The ticket may be forwarded: bit 1.
    pub forwardable: bool,
    /// The ticket was forwarded, or granted by one that was: bit 2.
    pub forwarded: bool,
    /// Proxies may be granted by the ticket: bit 3.
    pub proxiable: bool,
    /// The ticket is a proxy: bit 4.
    pub proxy: bool,
    /// The ticket may be renewed: bit 8.
    pub renewable: bool,
    /// The ticket was granted in an AS exchange, and not by another ticket: bit 9.
    pub initial: bool,
    /// The client authenticated itself before the first ticket was granted: bit 10.
    pub pre_authenticated: bool,
}

/// Encrypts the ticket's part under the service's key, with the confounder and the key's kvno (RFC 4120, section 5.3).
pub fn sealed_ticket(
    alloc: Global,
    grant: &Grant<'_>,
    service: &Account,
    confounder: &[u8],
) -> Result<EncryptedData, AllocError>
    requires { length confounder.now ≡ cipher_confounder_size service.now.suite }
    ensures { IfOk result (IsSealedData service.now (key_usage TICKET_REP) confounder.now (ticket_part_bytes (ticket_part (grant_of grant.now)))) }
{
    let part = ticket_part(alloc, grant)?;
    let plain = ticket_part_bytes(alloc, part)?;
    let kvno = Some(service.kvno());
    let usage = key_usages::TICKET_REP;
    let sealed = sealed_data(alloc, service.key(), kvno, usage, confounder, &plain)?;
    Ok(sealed)
}

/// Makes the ticket with its encrypted part.
#[tactic(auto, unfolding(crate::specs::Parts::ticket_of))]
pub(crate) fn ticket_of(
    alloc: Global,
    grant: &Grant<'_>,
    part: EncryptedData,
) -> Result<TicketInner, AllocError>
    ensures { IfOk result (λ ticket. ticket ≡ ticket_of (grant_of grant.now) part) }
{
    let version = IntegerAsn1::from_u64(alloc, u64::from(KERBEROS_VERSION));
    let names = (grant.realm, (grant.service, ())).copied();
    let ((version, names), part) = both(both(version, names), Ok(part))?;
    Ok(TicketInner {
        tkt_vno: ExplicitContextTag(version),
        realm: ExplicitContextTag(names.0),
        sname: ExplicitContextTag(names.1.0),
        enc_part: ExplicitContextTag(part),
    })
}

// Encodes the ticket's part, and drops it.
#[tactic(auto, unfolding(crate::specs::Sealed::ticket_part_bytes))]
fn ticket_part_bytes(alloc: Global, part: EncTicketPartInner) -> Result<Vec<u8>, AllocError>
    ensures { IfOk result (λ bytes. bytes.items ≡ ticket_part_bytes part) }
{
    let bytes = tagged_encoding::<EncTicketPartInner, ENC_TICKET_PART_TYPE>(alloc, part)?;
    Ok(bytes)
}
