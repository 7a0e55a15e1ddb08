//! What a message asks for.
ghost use Rattle.std.specs.Prelude.{◌≡◌, IfOk, option_map, string_bytes};
ghost use Rattle.std.specs.Option.{option_copied};
ghost use Rattle.krb_log.specs.Asked.{IsAsked, IsAskedBy, IsFoundIn, IsNamed, IsNamedBy, means_of, named, ticket_client};
ghost use Rattle.krb_messages.specs.Messages.{IsAsReq, IsTgsReq};

use crate::name::shown_name;
use krb_constants::padata_types::{PA_ENC_TIMESTAMP, PA_PK_AS_REQ};
use krb_kdc::SeenRequest;
use krb_kdc_exchanges::{client_of, service_of};
use krb_messages::data_types::{EncTicketPartInner, PaData, PrincipalName, Realm};
use krb_messages::messages::{AsReq, KdcReq, TgsReq};
use krb_messages::{first_of, padata_in};
use picky_asn1_der::read_whole;
use std::alloc::{AllocError, Global};

/// What a message asks for.
#[derive(Debug, Drop)]
pub enum Asked {
    /// It is an AS request, with these names.
    As(Names),
    /// It is a TGS request, with these names.
    Tgs(Names),
    /// It is no request.
    Nothing,
}

/// How a client authenticates itself in an AS request.
#[derive(Clone, Copy, Debug, PartialEq, Eq)]
pub enum Means {
    /// By its certificate: the request has padata PA-PK-AS-REQ (RFC 4556, section 3.2.1).
    Pkinit,
    /// By its key, which mostly is of a password: the request has padata PA-ENC-TIMESTAMP (RFC 4120, section 5.2.7.2).
    Password,
    /// Not at all.
    Nothing,
}

/// The names of a request, as a line has them, and the client's means.
#[derive(Debug, Drop)]
pub struct Names {
    /// The client, if there is one: of an AS request that it names, of a TGS request that of the ticket which it presents, if that opens.
    pub client: Option<String>,
    /// The service, if the request names one.
    pub service: Option<String>,
    /// How the client authenticates itself. It counts in an AS request alone.
    pub means: Means,
}

impl Asked {
    /// Returns what a request asks for that was seen.
    pub(crate) fn of_seen(alloc: Global, request: &SeenRequest<'_>) -> Result<Asked, AllocError>
        ensures { IfOk result (IsAskedBy request.now) }
    {
        match *request {
            SeenRequest::As(request) => {
                let names = names_in(alloc, request)?;
                Ok(Asked::As(names))
            }
            SeenRequest::Tgs(request, ticket) => {
                let names = names_by_ticket(alloc, request, ticket)?;
                Ok(Asked::Tgs(names))
            }
        }
    }

    /// Returns what a message asks for (RFC 4120, section 5.4.1).
    pub(crate) fn of(alloc: Global, message: &[u8]) -> Result<Asked, AllocError>
        ensures { IfOk result (IsAsked message.now) }
    {
        if let Some(names) = names_of_as(alloc, message)? {
            return Ok(Asked::As(names));
        }
        match names_of_tgs(alloc, message)? {
            Some(names) => Ok(Asked::Tgs(names)),
            None => Ok(Asked::Nothing),
        }
    }
}

// Returns the names of the AS request that the message is, or none.
fn names_of_as(alloc: Global, message: &[u8]) -> Result<Option<Names>, AllocError>
    ensures { IfOk result (IsFoundIn (IsAsReq message.now)) }
{
    let read: Option<AsReq> = read_whole(alloc, message)?;
    let Some(request) = read else {
        return Ok(None);
    };
    let names = names_in(alloc, &request.0);
    drop(request);
    Ok(Some(names?))
}

// Returns the names of the TGS request that the message is, or none.
fn names_of_tgs(alloc: Global, message: &[u8]) -> Result<Option<Names>, AllocError>
    ensures { IfOk result (IsFoundIn (IsTgsReq message.now)) }
{
    let read: Option<TgsReq> = read_whole(alloc, message)?;
    let Some(request) = read else {
        return Ok(None);
    };
    let names = names_in(alloc, &request.0);
    drop(request);
    Ok(Some(names?))
}

// Returns the names that a request has.
fn names_in(alloc: Global, request: &KdcReq) -> Result<Names, AllocError>
    ensures { IfOk result (IsNamed request.now) }
{
    let body = &request.req_body.0;
    let client = named(alloc, client_of(body), &body.realm.0)?;
    names_with(alloc, request, client)
}

// Returns the names of a TGS request that presents a ticket with this part, if it opens.
fn names_by_ticket(
    alloc: Global,
    request: &KdcReq,
    ticket: Option<&EncTicketPartInner>,
) -> Result<Names, AllocError>
    ensures { IfOk result (IsNamedBy (ticket_client request.now (option_copied ticket.entry)) request.now) }
{
    let Some(part) = ticket else {
        return names_in(alloc, request);
    };
    let client = shown_name(alloc, &part.cname.0, &part.crealm.0)?;
    names_with(alloc, request, Some(client))
}

// Returns the names of a request with this client.
fn names_with(alloc: Global, request: &KdcReq, client: Option<String>) -> Result<Names, AllocError>
    ensures { IfOk result (IsNamedBy (option_map string_bytes client) request.now) }
{
    let body = &request.req_body.0;
    let service = named(alloc, service_of(body), &body.realm.0)?;
    Ok(Names {
        client,
        service,
        means: means_of(padata_in(request)),
    })
}

// Returns a name in its realm, if it is given.
fn named(
    alloc: Global,
    name: Option<&PrincipalName>,
    realm: &Realm,
) -> Result<Option<String>, AllocError>
    ensures { IfOk result (λ text. option_map string_bytes text ≡ named realm.now (option_copied name.entry)) }
{
    match name {
        Some(name) => Ok(Some(shown_name(alloc, name, realm)?)),
        None => Ok(None),
    }
}

// Returns how a client authenticates itself by this padata.
fn means_of(padata: &[PaData]) -> Means
    ensures { result ≡ means_of padata.now }
{
    if first_of(padata, PA_PK_AS_REQ).is_some() {
        return Means::Pkinit;
    }
    if first_of(padata, PA_ENC_TIMESTAMP).is_some() {
        return Means::Password;
    }
    Means::Nothing
}
