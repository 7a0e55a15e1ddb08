//! Acceptors.
ghost use Rattle.std.specs.Prelude.{◌≡◌, ◌≤◌, length};
ghost use Rattle.gss_acceptor.specs.Accepting.{AdmitRequest, Establishes, Handles, Takes, carried, held, negotiated, next, opened, responded_to, resumed};
ghost use Rattle.gss_acceptor.specs.Concluding.{IsContextAnswered, IsLast};

use crate::accepted::{Accepted, Negotiation, Stage};
use crate::conclude::{ask, conclude, verify};
use crate::established::{Established, established_by};
use crate::exchange::{Exchange, Terms, Tokens, Unverified, due_mic};
use crate::negotiation::{Offer, read_offer};
use crate::refusal::AcceptRefusal;
use crate::response::read_response;
use crate::terms::AcceptorTerms;
use crate::token::ap_req_in;
use krb_file_formats::Keytab;
use krb_service::{Admitter, KeytabService, KeytabServiceRefusal};
use krb_time::Moment;
use std::alloc::Global;
use std::marker::Model;

/// The acceptor of a service, which has one key (`Service`) or a keytab's keys (`KeytabService`): it establishes contexts of its clients. A
/// contract sees the service as one of a keytab.
#[derive(Drop)]
pub struct Acceptor<S: Admitter + Drop> {
    service: S,
    terms: AcceptorTerms,
}

impl<S: Admitter + Drop> Model for Acceptor<S> {
    ghost use Rattle.gss_acceptor.specs.Accepting.{AcceptorRecord};

    ghost Value = { AcceptorRecord };

    ghost view = { λ a. record { service = S.as_keytab a.service; terms = a.terms } };
}

impl Acceptor<KeytabService> {
    ghost use Rattle.std.specs.Prelude.{◌⊎◌, Ok, Err, MatchResult, OnErr, OnOk};
    ghost use Rattle.krb_service.specs.KeytabEntries.{entries_of};
    ghost use Rattle.krb_service.specs.KeytabService.{giving};
    ghost use Rattle.krb_service.specs.declared.keytab_service.refusal.KeytabServiceRefusal.{KeytabServiceRefusal};
    ghost use Rattle.krb_service.specs.declared.keytab_service.refusal.KeytabServiceRefusal.TheVariants.{Memory};

    /// Takes the service's keys in another keytab in place of those that it has, as [`KeytabService::replace_keys`] does. The replay cache
    /// stays, and so do the contexts and negotiations.
    ///
    /// A keytab without a key of the service is refused (`NoKey`). What is refused changes nothing.
    pub fn replace_keys(
        &mut self,
        alloc: Global,
        keytab: &Keytab,
    ) -> Result<(), KeytabServiceRefusal>
        ensures replaced { OnOk result (self.new ≡ record self.old { service = record self.old.service { entries = entries_of self.old.service.realm self.old.service.components keytab.now } }) }
        ensures kept { OnErr result (self.new ≡ self.old) }
        ensures refused { MatchResult result
            (λ _. giving (entries_of self.old.service.realm self.old.service.components keytab.now) ≡ Ok tt)
            (λ refusal. (refusal ≡ Memory) ⊎ (giving (entries_of self.old.service.realm self.old.service.components keytab.now) ≡ Err refusal)) }

        // Running out of memory hides no other refusal.
        ensures first { (refusal : KeytabServiceRefusal) → giving (entries_of self.old.service.realm self.old.service.components keytab.now) ≡ Err refusal → result ≡ Err refusal }
    {
        self.service.replace_keys(alloc, keytab)
    }
}

impl<S: Admitter + Drop> Acceptor<S> {
    /// The acceptor of a service, on these terms.
    pub fn new(service: S, terms: AcceptorTerms) -> Acceptor<S>
        ensures { result ≡ record { service = S.as_keytab service; terms = terms } }
    {
        Acceptor { service, terms }
    }

    /// Takes an initiator's first token, at a moment: one of Kerberos (RFC 4121, section 4.1), or one of SPNEGO that offers Kerberos
    /// (RFC 4178, section 4.2.1). `words`: random bytes that no other call had, of which the first 64 count: 0 to 15 are the AP-REP's
    /// confounder, 16 to 19 its sequence number, and 32 to 63 its subkey's seed.
    ///
    /// A token of Kerberos establishes a context. It may be in one of SPNEGO, if Kerberos is the first mechanism. If it isn't, or has
    /// no token, the answer asks for Kerberos. The context is then established by [`Acceptor::resume`].
    ///
    /// The refusals, in this order: `NotAToken` or `NoKerberos`, which leave the acceptor as it was; `Admit`; and of what the service
    /// admits `NoChecksum`, `OtherChecksum`, `OtherBindings`, `BadSequenceNumber`, `UnknownKey`, `OldSuite`,
    /// `BadDelegation`, `Mic`. `Memory` comes either before the
    /// admission, and leaves the acceptor as it was, or after it. A refusal after the admission leaves the service as `Service::admit`
    /// does: the client needs a new authenticator.
    pub fn accept(
        &mut self,
        alloc: Global,
        token: &[u8],
        moment: Moment,
        words: &[u8],
    ) -> Result<Accepted, AcceptRefusal>
        requires { 64 ≤ length words.now }
        ensures { Handles (carried token.now) self.old moment words.now result self.new }
    {
        match ap_req_in(token) {
            Some(request) => self.admit(alloc, request, None, moment, words),
            None => self.negotiate(alloc, token, moment, words),
        }
    }

    /// Takes the initiator's next token, which a negotiation waits for (RFC 4178, section 4.2.2), at a moment. `words`: random bytes, as
    /// [`Acceptor::accept`] takes them.
    ///
    /// The first token of Kerberos establishes a context. MICs of the list of mechanisms are due if Kerberos isn't the first of them. The
    /// initiator sends its MIC with its token, or, if there is an AP-REP, may send it after the acceptor's. A context whose initiator's
    /// MIC is due isn't handed out before the MIC was verified (RFC 4178, section 5).
    ///
    /// The refusals are those of [`Acceptor::accept`], but `NoKerberos`; and `NoMic`, as the last. A refusal ends the negotiation.
    pub fn resume(
        &mut self,
        alloc: Global,
        negotiation: Negotiation,
        token: &[u8],
        moment: Moment,
        words: &[u8],
    ) -> Result<Accepted, AcceptRefusal>
        requires { 64 ≤ length words.now }
        ensures { Handles (resumed negotiation token.now) self.old moment words.now result self.new }
    {
        match read_response(alloc, token) {
            Ok(tokens) => self.take_next(alloc, negotiation, tokens, moment, words),
            Err(refusal) => {
                drop(negotiation);
                Err(refusal)
            }
        }
    }

    // Takes a first token of SPNEGO.
    fn negotiate(
        &mut self,
        alloc: Global,
        token: &[u8],
        moment: Moment,
        words: &[u8],
    ) -> Result<Accepted, AcceptRefusal>
        requires { 64 ≤ length words.now }
        ensures { Handles (negotiated token.now) self.old moment words.now result self.new }
    {
        match read_offer(alloc, token) {
            Ok(offer) => self.take_offer(alloc, offer, moment, words),
            Err(refusal) => Err(refusal),
        }
    }

    // Takes the token that is offered, or asks for it.
    fn take_offer(
        &mut self,
        alloc: Global,
        offer: Offer,
        moment: Moment,
        words: &[u8],
    ) -> Result<Accepted, AcceptRefusal>
        requires { 64 ≤ length words.now }
        ensures { Handles (opened offer) self.old moment words.now result self.new }
    {
        let Offer {
            mechanism,
            terms,
            tokens,
        } = offer;
        let Tokens {
            mechanism: token,
            mic,
        } = tokens;
        match token {
            Some(token) => {
                let exchange = Exchange {
                    supported: Some(mechanism),
                    terms,
                    mic,
                };
                let accepted = self.take_token(alloc, token.as_bytes(), exchange, moment, words);
                drop(token);
                accepted
            }
            None => {
                drop(mic);
                ask(alloc, mechanism, terms)
            }
        }
    }

    // Takes the tokens that a negotiation waits for.
    fn take_next(
        &mut self,
        alloc: Global,
        negotiation: Negotiation,
        tokens: Tokens,
        moment: Moment,
        words: &[u8],
    ) -> Result<Accepted, AcceptRefusal>
        requires { 64 ≤ length words.now }
        ensures { Handles (next negotiation.stage tokens) self.old moment words.now result self.new }
    {
        match negotiation.stage {
            Stage::Token(terms) => self.take_response(alloc, terms, tokens, moment, words),
            Stage::Mic(unverified) => take_mic(alloc, unverified, tokens),
        }
    }

    // Takes the first token of Kerberos after the first of SPNEGO.
    fn take_response(
        &mut self,
        alloc: Global,
        terms: Terms,
        tokens: Tokens,
        moment: Moment,
        words: &[u8],
    ) -> Result<Accepted, AcceptRefusal>
        requires { 64 ≤ length words.now }
        ensures { Handles (responded_to terms tokens) self.old moment words.now result self.new }
    {
        let Tokens { mechanism, mic } = tokens;
        let exchange = Exchange {
            supported: None,
            terms,
            mic,
        };
        match mechanism {
            Some(token) => {
                let accepted = self.take_token(alloc, token.as_bytes(), exchange, moment, words);
                drop(token);
                accepted
            }
            None => {
                drop(exchange);
                Err(AcceptRefusal::NotAToken)
            }
        }
    }

    // Takes a token of Kerberos that came in a message of SPNEGO.
    fn take_token(
        &mut self,
        alloc: Global,
        token: &[u8],
        exchange: Exchange,
        moment: Moment,
        words: &[u8],
    ) -> Result<Accepted, AcceptRefusal>
        requires { 64 ≤ length words.now }
        ensures { Handles (held token.now exchange) self.old moment words.now result self.new }
    {
        match ap_req_in(token) {
            Some(request) => self.admit(alloc, request, Some(exchange), moment, words),
            None => {
                drop(exchange);
                Err(AcceptRefusal::NotAToken)
            }
        }
    }

    // Admits an AP-REQ, and answers it as it came.
    fn admit(
        &mut self,
        alloc: Global,
        request: &[u8],
        exchange: Option<Exchange>,
        moment: Moment,
        words: &[u8],
    ) -> Result<Accepted, AcceptRefusal>
        requires { 64 ≤ length words.now }
        ensures { Takes (AdmitRequest request.now exchange) self.old moment words.now result self.new }
    {
        match self.establish(alloc, request, moment, words) {
            Ok(established) => answered(alloc, established, exchange),
            Err(refusal) => {
                drop(exchange);
                Err(refusal)
            }
        }
    }

    // Establishes a context by an AP-REQ.
    fn establish(
        &mut self,
        alloc: Global,
        request: &[u8],
        moment: Moment,
        words: &[u8],
    ) -> Result<Established, AcceptRefusal>
        requires { 64 ≤ length words.now }
        ensures { Establishes self.old moment request.now words.now result self.new }
    {
        let skew = self.service.clock_skew();
        let fields = self.terms.fields();
        match self
            .service
            .admit_request(alloc, request, moment, fields, words)
        {
            Ok(admission) => established_by(alloc, &self.terms, skew, words, admission),
            Err(cause) => Err(AcceptRefusal::Admit(cause)),
        }
    }
}

// Answers a context's initiator: by the token of Kerberos alone, or by a message of SPNEGO.
fn answered(
    alloc: Global,
    established: Established,
    exchange: Option<Exchange>,
) -> Result<Accepted, AcceptRefusal>
    ensures { IsContextAnswered exchange established result }
{
    match exchange {
        Some(exchange) => conclude(alloc, established, exchange),
        None => Ok(Accepted::Established(established)),
    }
}

// Takes the initiator's MIC, which is due.
fn take_mic(
    alloc: Global,
    unverified: Unverified,
    tokens: Tokens,
) -> Result<Accepted, AcceptRefusal>
    ensures { IsLast unverified tokens result }
{
    match due_mic(tokens) {
        Ok(mic) => {
            let accepted = verify(alloc, unverified, mic.as_bytes());
            drop(mic);
            accepted
        }
        Err(refusal) => {
            drop(unverified);
            Err(refusal)
        }
    }
}
