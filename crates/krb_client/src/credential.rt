//! What a KDC grants a client.
ghost use Rattle.std.specs.Prelude.{◌≡◌, Some, IfOk};
ghost use Rattle.krb_tickets.specs.Keys.{key_in};
ghost use Rattle.krb_client.specs.Taking.{credential_of, renew_till_of, starttime_of};

use crate::copies::ticket_copy;
use krb_crypto::{CipherSuite, Key};
use krb_messages::data_types::{KerberosFlags, PrincipalName, Ticket};
use krb_messages::messages::{EncKdcRepPart, KdcRep};
use picky_asn1::date::GeneralizedTime;
use picky_asn1::wrapper::GeneralStringAsn1;
use picky_asn1_der::both;
use std::alloc::AllocError;
use std::marker::Model;

/// The times of a ticket (RFC 4120, section 5.3).
#[derive(Clone, Copy, Debug, PartialEq, Eq)]
pub struct TicketTimes {
    /// When the client authenticated itself for its first ticket.
    pub authtime: GeneralizedTime,
    /// When the ticket starts: its authtime, where it has no starttime of its own.
    pub starttime: GeneralizedTime,
    /// When the ticket ends.
    pub endtime: GeneralizedTime,
    /// Until when the ticket may be renewed, if it is renewable.
    pub renew_till: Option<GeneralizedTime>,
}

/// What a realm granted a client: a ticket, the session's key, which client and service share, the service's realm
/// and name, and the ticket's times and flags. A contract sees these, the key as its suite and its bytes.
#[derive(Drop)]
pub struct Credential {
    ticket: Ticket,
    key: Key,
    realm: GeneralStringAsn1,
    service: PrincipalName,
    authtime: GeneralizedTime,
    starttime: GeneralizedTime,
    endtime: GeneralizedTime,
    renew_till: Option<GeneralizedTime>,
    flags: KerberosFlags,
}

impl Model for Credential {
    ghost use Rattle.krb_client.specs.Client.{CredentialRecord};

    ghost Value = { CredentialRecord };

    ghost view = { λ c. record {
      ticket = c.ticket.0;
      suite = c.key.suite;
      key = c.key.bytes;
      realm = c.realm;
      service = c.service;
      authtime = c.authtime;
      starttime = c.starttime;
      endtime = c.endtime;
      renew_till = c.renew_till;
      flags = c.flags;
    } };
}

impl Credential {
    /// The credential of these parts, as a credential cache holds them. Nothing is compared: it is for the caller to know that they were
    /// granted together.
    pub fn new(
        ticket: Ticket,
        key: Key,
        realm: GeneralStringAsn1,
        service: PrincipalName,
        times: TicketTimes,
        flags: KerberosFlags,
    ) -> Credential
        ensures { result ≡ record {
          ticket = ticket.0;
          suite = key.suite;
          key = key.bytes;
          realm = realm;
          service = service;
          authtime = times.authtime;
          starttime = times.starttime;
          endtime = times.endtime;
          renew_till = times.renew_till;
          flags = flags;
        } }
    {
        Credential {
            ticket,
            key,
            realm,
            service,
            authtime: times.authtime,
            starttime: times.starttime,
            endtime: times.endtime,
            renew_till: times.renew_till,
            flags,
        }
    }

    /// The credential of a reply and its opened part, in which this key is.
    pub(crate) fn of_reply(
        reply: &KdcRep,
        part: &EncKdcRepPart,
        key: Key,
    ) -> Result<Credential, AllocError>
        requires { key_in part.now.key.0 ≡ Some key }
        ensures { IfOk result (λ credential. credential ≡ credential_of reply.now part.now key.suite) }
    {
        Credential::with_key(reply, part, key)
    }

    /// The credential of a reply and its opened part, whose key has these octets.
    fn with_key(reply: &KdcRep, part: &EncKdcRepPart, key: Key) -> Result<Credential, AllocError>
        requires { key.bytes ≡ part.now.key.0.key_value.0 }
        ensures { IfOk result (λ credential. credential ≡ credential_of reply.now part.now key.suite) }
    {
        let realm: Result<_, AllocError> = part.srealm.0.clone();
        let service: Result<_, AllocError> = part.sname.0.clone();
        let flags: Result<_, AllocError> = part.flags.0.clone();
        let ticket = both(ticket_copy(&reply.ticket.0), both(flags, Ok(key)));
        let ((realm, service), (ticket, (flags, key))) = both(both(realm, service), ticket)?;
        Ok(Credential {
            ticket,
            key,
            realm,
            service,
            authtime: part.auth_time.0.0,
            starttime: starttime_of(part),
            endtime: part.end_time.0.0,
            renew_till: renew_till_of(part),
            flags,
        })
    }

    /// The ticket.
    pub fn ticket(&self) -> &Ticket
        ensures { result.now.0 ≡ self.now.ticket }
    {
        &self.ticket
    }

    /// The suite of the session's key.
    pub fn suite(&self) -> CipherSuite
        ensures { result ≡ self.now.suite }
    {
        self.key.suite()
    }

    /// The session's key.
    pub fn key(&self) -> &Key
        ensures { result.now ≡ record { suite = self.now.suite; bytes = self.now.key } }
    {
        &self.key
    }

    /// The service's realm.
    pub fn realm(&self) -> &GeneralStringAsn1
        ensures { result.now ≡ self.now.realm }
    {
        &self.realm
    }

    /// The service's name.
    pub fn service(&self) -> &PrincipalName
        ensures { result.now ≡ self.now.service }
    {
        &self.service
    }

    /// The ticket's authtime: when the client authenticated itself for its first ticket (RFC 4120, section 5.4.2).
    pub fn authtime(&self) -> GeneralizedTime
        ensures { result ≡ self.now.authtime }
    {
        self.authtime
    }

    /// When the ticket starts: its starttime, or its authtime where it has no starttime (RFC 4120, section 5.4.2).
    pub fn starttime(&self) -> GeneralizedTime
        ensures { result ≡ self.now.starttime }
    {
        self.starttime
    }

    /// The ticket's endtime, after which services refuse it (RFC 4120, section 5.4.2). The client compares no time itself.
    pub fn endtime(&self) -> GeneralizedTime
        ensures { result ≡ self.now.endtime }
    {
        self.endtime
    }

    /// Until when the ticket may be renewed, if it is renewable (RFC 4120, section 5.4.2).
    pub fn renew_till(&self) -> Option<GeneralizedTime>
        ensures { result ≡ self.now.renew_till }
    {
        self.renew_till
    }

    /// The ticket's flags, which `krb_constants::ticket_flags` numbers (RFC 4120, section 5.4.2).
    pub fn flags(&self) -> &KerberosFlags
        ensures { result.now ≡ self.now.flags }
    {
        &self.flags
    }
}

// Returns the ticket's starttime, or its authtime where it has no starttime.
fn starttime_of(part: &EncKdcRepPart) -> GeneralizedTime
    ensures { result ≡ starttime_of part.now }
{
    match &part.start_time.0 {
        Some(tagged) => tagged.0.0,
        None => part.auth_time.0.0,
    }
}

// Returns until when the ticket may be renewed.
fn renew_till_of(part: &EncKdcRepPart) -> Option<GeneralizedTime>
    ensures { result ≡ renew_till_of part.now }
{
    match &part.renew_till.0 {
        Some(tagged) => Some(tagged.0.0),
        None => None,
    }
}
