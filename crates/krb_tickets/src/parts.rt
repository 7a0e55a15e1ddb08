//! The parts of a granted ticket and of its reply, before encryption.
ghost use Rattle.std.specs.Prelude.{◌≡◌, ◌≤◌, IfOk};
ghost use Rattle.std.specs.Option.{option_copied};
ghost use Rattle.krb_tickets.specs.Grant.{grant_of};
ghost use Rattle.krb_tickets.specs.Parts.{flags_octet, flags_of, front_octet, last_requests, masked, no_realms, reply_part, tagged_addresses, tagged_till, ticket_part};

use crate::encryption_key;
use crate::flag_bits::{
    FORWARDABLE_MASK, FORWARDED_MASK, PROXIABLE_MASK, PROXY_MASK, RENEWABLE_MASK,
};
use crate::grant::{Grant, TicketFlags};
use krb_constants::ticket_flags::{INITIAL_MASK, PRE_AUTHENT_MASK};
use krb_messages::data_types::{
    EncTicketPartInner, HostAddresses, KerberosFlags, KerberosTime, LastReq, LastReqInner,
    TransitedEncoding,
};
use krb_messages::messages::EncKdcRepPart;
use picky_asn1::date::GeneralizedTime;
use picky_asn1::wrapper::{
    Asn1SequenceOf, BitStringAsn1, GeneralizedTimeAsn1, IntegerAsn1, OctetStringAsn1,
};
use picky_asn1_der::{
    ExplicitContextTag, ExplicitContextTag8, ExplicitContextTag9, ExplicitContextTag11, LentFields,
    Optional, both,
};
use std::alloc::{AllocError, Global};

/// The encoding of transited realms that RFC 4120 names, DOMAIN-X500-COMPRESS (section 7.5.5).
const DOMAIN_X500_COMPRESS: u64 = 1;

/// The type of a last request that says nothing (RFC 4120, section 5.4.2).
const NO_LAST_REQUEST: u64 = 0;

/// Makes the part of the ticket that the service decrypts (RFC 4120, section 5.3).
#[tactic(auto, unfolding(crate::specs::Parts::ticket_part))]
pub(crate) fn ticket_part(
    alloc: Global,
    grant: &Grant<'_>,
) -> Result<EncTicketPartInner, AllocError>
    ensures { IfOk result (λ part. part ≡ ticket_part (grant_of grant.now)) }
{
    let flags = flags_of(alloc, grant.flags);
    let key = encryption_key(alloc, grant.suite, &grant.session);
    let names = (grant.realm, (grant.client, ())).copied();
    let transited = no_realms(alloc);
    let caddr = ticket_addresses(grant.addresses);
    let ((flags, key), (names, (transited, caddr))) = both(
        both(flags, key),
        both(names, both(transited, caddr)),
    )?;
    Ok(EncTicketPartInner {
        flags: ExplicitContextTag(flags),
        key: ExplicitContextTag(key),
        crealm: ExplicitContextTag(names.0),
        cname: ExplicitContextTag(names.1.0),
        transited: ExplicitContextTag(transited),
        auth_time: ExplicitContextTag(GeneralizedTimeAsn1(grant.auth_time)),
        starttime: Optional(Some(ExplicitContextTag(GeneralizedTimeAsn1(grant.starttime)))),
        endtime: ExplicitContextTag(GeneralizedTimeAsn1(grant.endtime)),
        renew_till: Optional(tagged_till(grant.renew_till)),
        caddr: Optional(caddr),
        authorization_data: Optional(None),
    })
}

/// Makes the part of the reply that the client decrypts (RFC 4120, section 5.4.2).
#[tactic(auto, unfolding(crate::specs::Parts::reply_part))]
pub(crate) fn reply_part(alloc: Global, grant: &Grant<'_>) -> Result<EncKdcRepPart, AllocError>
    ensures { IfOk result (λ part. part ≡ reply_part (grant_of grant.now)) }
{
    let key = encryption_key(alloc, grant.suite, &grant.session);
    let last_req = last_requests(alloc, grant.starttime);
    let flags = flags_of(alloc, grant.flags);
    let copies = (grant.nonce, (grant.realm, (grant.service, ()))).copied();
    let caddr = reply_addresses(grant.addresses);
    let ((key, last_req), (flags, (copies, caddr))) = both(
        both(key, last_req),
        both(flags, both(copies, caddr)),
    )?;
    Ok(EncKdcRepPart {
        key: ExplicitContextTag(key),
        last_req: ExplicitContextTag(last_req),
        nonce: ExplicitContextTag(copies.0),
        key_expiration: Optional(None),
        flags: ExplicitContextTag(flags),
        auth_time: ExplicitContextTag(GeneralizedTimeAsn1(grant.auth_time)),
        start_time: Optional(Some(ExplicitContextTag(GeneralizedTimeAsn1(grant.starttime)))),
        end_time: ExplicitContextTag(GeneralizedTimeAsn1(grant.endtime)),
        renew_till: Optional(tagged_till(grant.renew_till)),
        srealm: ExplicitContextTag(copies.1.0),
        sname: ExplicitContextTag(copies.1.1.0),
        caddr: Optional(caddr),
        encrypted_pa_data: Optional(None),
    })
}

// Makes a ticket's flags, as 32 bits.
fn flags_of(alloc: Global, flags: TicketFlags) -> Result<KerberosFlags, AllocError>
    ensures { IfOk result (λ bits. bits ≡ flags_of flags) }
{
    let octets = [front_octet(flags), flags_octet(flags), 0x00, 0x00];
    let Ok(bits) = BitStringAsn1::new(alloc, &octets, 0) else {
        return Err(AllocError);
    };
    Ok(bits)
}

// The first of the four octets of a ticket's flags.
fn front_octet(flags: TicketFlags) -> u8
    ensures { result ≡ front_octet flags }
{
    masked(flags.forwardable, FORWARDABLE_MASK)
        + masked(flags.forwarded, FORWARDED_MASK)
        + masked(flags.proxiable, PROXIABLE_MASK)
        + masked(flags.proxy, PROXY_MASK)
}

// The second of the four octets of a ticket's flags.
fn flags_octet(flags: TicketFlags) -> u8
    ensures { result ≡ flags_octet flags }
{
    masked(flags.renewable, RENEWABLE_MASK)
        + masked(flags.initial, INITIAL_MASK)
        + masked(flags.pre_authenticated, PRE_AUTHENT_MASK)
}

// The bit where the flag is set.
fn masked(set: bool, mask: u8) -> u8
    ensures value { result ≡ masked set mask }
    ensures at_most { result ≤ mask }
{
    if set { mask } else { 0x00 }
}

// renew-till as a field of the ticket's part and of the reply's.
fn tagged_till(till: Option<GeneralizedTime>) -> Option<ExplicitContextTag8<KerberosTime>>
    ensures { result ≡ tagged_till till }
{
    match till {
        Some(time) => Some(ExplicitContextTag(GeneralizedTimeAsn1(time))),
        None => None,
    }
}

// Copies addresses.
fn copied(addresses: &HostAddresses) -> Result<HostAddresses, AllocError>
    ensures { IfOk result (λ copy. copy ≡ addresses.now) }
{
    let copy = addresses.clone()?;
    Ok(copy)
}

// caddr as a field of the ticket's part.
fn ticket_addresses(
    addresses: Option<&HostAddresses>,
) -> Result<Option<ExplicitContextTag9<HostAddresses>>, AllocError>
    ensures { IfOk result (λ caddr. caddr ≡ tagged_addresses (option_copied addresses.entry)) }
{
    let Some(list) = addresses else {
        return Ok(None);
    };
    let caddr = copied(list)?;
    Ok(Some(ExplicitContextTag(caddr)))
}

// caddr as a field of the reply's part.
fn reply_addresses(
    addresses: Option<&HostAddresses>,
) -> Result<Option<ExplicitContextTag11<HostAddresses>>, AllocError>
    ensures { IfOk result (λ caddr. caddr ≡ tagged_addresses (option_copied addresses.entry)) }
{
    let Some(list) = addresses else {
        return Ok(None);
    };
    let caddr = copied(list)?;
    Ok(Some(ExplicitContextTag(caddr)))
}

// Makes the transited encoding that names no realm.
fn no_realms(alloc: Global) -> Result<TransitedEncoding, AllocError>
    ensures { IfOk result (λ transited. transited ≡ no_realms) }
{
    let spelling = IntegerAsn1::from_u64(alloc, DOMAIN_X500_COMPRESS)?;
    Ok(TransitedEncoding {
        tr_type: ExplicitContextTag(spelling),
        contents: ExplicitContextTag(OctetStringAsn1::from(Vec::new(alloc))),
    })
}

// Makes last-req of one entry, which says nothing: RFC 4120 requires one, and the realm keeps no last requests.
fn last_requests(alloc: Global, start: GeneralizedTime) -> Result<LastReq, AllocError>
    ensures { IfOk result (λ requests. requests ≡ last_requests start) }
{
    let kind = IntegerAsn1::from_u64(alloc, NO_LAST_REQUEST)?;
    let request = LastReqInner {
        lr_type: ExplicitContextTag(kind),
        lr_value: ExplicitContextTag(GeneralizedTimeAsn1(start)),
    };
    let requests = vec![in alloc; request]?;
    Ok(Asn1SequenceOf::from(requests))
}
