//! Requests to a KDC: what those for a first ticket and for further ones have in common.
ghost use Rattle.std.specs.Prelude.{◌≡◌, [], ◌∷◌, IfOk};
ghost use Rattle.krb_messages.specs.RandomBytes.{AreEnoughForRequest};
ghost use Rattle.krb_client.specs.Requests.{etypes, name_where, no_options, nonce_of, listing_body, kdc_request_of, optioned_body};

use crate::client::Client;
use crate::names::principal_name;
use crate::options::{TicketOptions, options_of, rtime_of};
use krb_constants::types::{KERBEROS_VERSION, NT_PRINCIPAL, NT_SRV_INST};
use krb_crypto::CipherSuite;
use krb_messages::data_types::{KerberosFlags, PaData, PrincipalName};
use krb_messages::messages::{KdcReq, KdcReqBody};
use krb_messages::random_bytes::NONCE;
use picky_asn1::date::GeneralizedTime;
use picky_asn1::wrapper::{
    Asn1SequenceOf, BitStringAsn1, GeneralStringAsn1, GeneralizedTimeAsn1, IntegerAsn1,
};
use picky_asn1_der::{ExplicitContextTag, ExplicitContextTag1, Optional, both};
use std::alloc::{AllocError, Global};

/// A nonce has 31 bits, so that it is positive for every reader (RFC 4120, section 5.4.1).
const NONCES: u32 = 0x8000_0000;

impl Client {
    /// The body of a request for a ticket for a service of the client's realm till a time, with this nonce (RFC 4120, section 5.4.1). Its
    /// etypes are those of the suites, in their order, and it has no option and no address. `named`: whether it has the client's name, as
    /// an AS request's body does. Fails only if memory runs out.
    pub fn request_body(
        &self,
        alloc: Global,
        named: bool,
        suites: &[CipherSuite],
        service: &[GeneralStringAsn1],
        till: GeneralizedTime,
        nonce: u32,
    ) -> Result<KdcReqBody, AllocError>
        ensures { IfOk result (λ body. body ≡ listing_body self.now named suites.now service.now till nonce) }
    {
        let options = no_options(alloc);
        let nonce = IntegerAsn1::from_u64(alloc, u64::from(nonce));
        let suites = etypes(alloc, suites);
        let client = self.name_where(alloc, named);
        let realm: Result<_, AllocError> = self.realm().clone();
        let service = principal_name(alloc, NT_SRV_INST, service);
        let numbers = both(both(options, nonce), suites);
        let names = both(both(client, realm), service);
        let (((options, nonce), suites), ((client, realm), service)) = both(numbers, names)?;
        Ok(KdcReqBody {
            kdc_options: ExplicitContextTag(options),
            cname: Optional(client),
            realm: ExplicitContextTag(realm),
            sname: Optional(Some(ExplicitContextTag(service))),
            from: Optional(None),
            till: ExplicitContextTag(GeneralizedTimeAsn1(till)),
            rtime: Optional(None),
            nonce: ExplicitContextTag(nonce),
            etype: ExplicitContextTag(suites),
            addresses: Optional(None),
            enc_authorization_data: Optional(None),
            additional_tickets: Optional(None),
        })
    }

    /// The body of `request_body`, with options and rtime. Fails only if memory runs out.
    pub fn request_body_with(
        &self,
        alloc: Global,
        named: bool,
        suites: &[CipherSuite],
        options: TicketOptions,
        service: &[GeneralStringAsn1],
        till: GeneralizedTime,
        nonce: u32,
    ) -> Result<KdcReqBody, AllocError>
        ensures { IfOk result (λ body. body ≡ optioned_body self.now named suites.now options service.now till nonce) }
    {
        let body = self.request_body(alloc, named, suites, service, till, nonce);
        let (mut body, bits) = both(body, options_of(alloc, options))?;
        body.kdc_options = ExplicitContextTag(bits);
        body.rtime = Optional(rtime_of(options));
        Ok(body)
    }

    // The client's name, where the request is to have it.
    fn name_where(
        &self,
        alloc: Global,
        named: bool,
    ) -> Result<Option<ExplicitContextTag1<PrincipalName>>, AllocError>
        ensures { IfOk result (λ name. name ≡ name_where self.now named) }
    {
        if !named {
            return Ok(None);
        }
        let name = principal_name(alloc, NT_PRINCIPAL, self.components())?;
        Ok(Some(ExplicitContextTag(name)))
    }
}

/// The request of this type, with one PA-DATA as its padata.
pub(crate) fn kdc_request_of(
    alloc: Global,
    kind: u8,
    pa_data: PaData,
    body: KdcReqBody,
) -> Result<KdcReq, AllocError>
    ensures { IfOk result (λ request. request ≡ kdc_request_of kind pa_data body) }
{
    let version = IntegerAsn1::from_u64(alloc, u64::from(KERBEROS_VERSION));
    let number = IntegerAsn1::from_u64(alloc, u64::from(kind));
    let padata = padata_in(alloc, pa_data);
    let ((version, number), (padata, body)) = both(both(version, number), both(padata, Ok(body)))?;
    Ok(KdcReq {
        pvno: ExplicitContextTag(version),
        msg_type: ExplicitContextTag(number),
        padata: Optional(Some(ExplicitContextTag(padata))),
        req_body: ExplicitContextTag(body),
    })
}

/// The nonce of a request: four of its random bytes, big-endian, of which 31 bits count. `words`: random bytes, 96 or more, of which the
/// nonce is 16 to 19.
pub fn nonce_of(words: &[u8]) -> u32
    requires { AreEnoughForRequest words.now }
    ensures { result ≡ nonce_of words.now }
{
    let mut octets = [0; 4];
    octets.copy_from_slice(&words[NONCE..NONCE + 4]);
    u32::from_be_bytes(octets) % NONCES
}

// The padata of one PA-DATA.
fn padata_in(alloc: Global, pa_data: PaData) -> Result<Asn1SequenceOf<PaData>, AllocError>
    ensures { IfOk result (λ padata. padata ≡ pa_data ∷ []) }
{
    let padata = vec![in alloc; pa_data]?;
    Ok(Asn1SequenceOf::from(padata))
}

// The etypes of the suites.
fn etypes(alloc: Global, suites: &[CipherSuite]) -> Result<Asn1SequenceOf<IntegerAsn1>, AllocError>
    ensures { IfOk result (λ list. list ≡ etypes suites.now) }
{
    let mut list = Vec::with_capacity(alloc, suites.len())?;
    for suite in suites {
        let etype = IntegerAsn1::from_u64(alloc, u64::from(u8::from(*suite)))?;
        list.push(etype)?;
    }
    Ok(Asn1SequenceOf::from(list))
}

fn no_options(alloc: Global) -> Result<KerberosFlags, AllocError>
    ensures { IfOk result (λ options. options ≡ no_options) }
{
    let Ok(options) = BitStringAsn1::new(alloc, &[0, 0, 0, 0], 0) else {
        return Err(AllocError);
    };
    Ok(options)
}
