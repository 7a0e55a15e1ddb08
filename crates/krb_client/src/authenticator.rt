//! AP requests, to services and, inside TGS requests, to KDCs.
ghost use Rattle.std.specs.Prelude.{◌≡◌, length, IfOk};
ghost use Rattle.std.specs.Int.{cast_unsigned, w32};
ghost use Rattle.krb_client.specs.Authenticators.{IsApRequest, IsAuthenticatorOf, ap_request_of, authenticator_with, options_of, authenticator_parts_of};
ghost use Rattle.krb_crypto.specs.Suites.{cipher_confounder_size};
ghost use Rattle.krb_client.specs.Messages.{ap_request_bytes, authenticator_bytes};

use crate::client::Client;
use crate::copies::ticket_copy;
use crate::credential::Credential;
use crate::names::principal_name;
use krb_constants::ap_options::MUTUAL_REQUIRED_MASK;
use krb_constants::types::{AP_REQ_MSG_TYPE, AUTHENTICATOR_TYPE, KERBEROS_VERSION, NT_PRINCIPAL};
use krb_messages::data_types::{
    ApOptions, AuthenticatorInner, Checksum, EncryptedData, EncryptionKey, PrincipalName, Ticket,
};
use krb_messages::messages::ApReqInner;
use krb_tickets::sealed_data;
use krb_time::Moment;
use picky_asn1::date::GeneralizedTime;
use picky_asn1::wrapper::{BitStringAsn1, GeneralStringAsn1, GeneralizedTimeAsn1, IntegerAsn1};
use picky_asn1_der::{ExplicitContextTag, Optional, both, tagged_encoding};
use std::alloc::{AllocError, Global};

// The parts of an authenticator that need memory: the client's, and the microseconds of its time. They are made at once, so that
// what makes an authenticator has one way out.
#[derive(Drop)]
struct AuthenticatorParts {
    version: IntegerAsn1,
    realm: GeneralStringAsn1,
    name: PrincipalName,
    microsecond: IntegerAsn1,
}

impl Client {
    /// The client's authenticator of the moment, with a checksum and a subkey, where they are given (RFC 4120, section 5.5.1). Fails only
    /// if memory runs out.
    pub fn authenticator(
        &self,
        alloc: Global,
        moment: Moment,
        checksum: Option<Checksum>,
        subkey: Option<EncryptionKey>,
    ) -> Result<AuthenticatorInner, AllocError>
        ensures { IfOk result (IsAuthenticatorOf self.now moment checksum subkey) }
    {
        let second = moment.second();
        let parts = self.authenticator_parts(alloc, moment.microsecond())?;
        Ok(authenticator_with(parts, second, checksum, subkey))
    }

    fn authenticator_parts(
        &self,
        alloc: Global,
        microsecond: u32,
    ) -> Result<AuthenticatorParts, AllocError>
        ensures { IfOk result (λ parts. parts ≡ authenticator_parts_of self.now microsecond) }
    {
        let version = IntegerAsn1::from_u64(alloc, u64::from(KERBEROS_VERSION));
        let microsecond = IntegerAsn1::from_u64(alloc, u64::from(microsecond));
        let realm: Result<_, AllocError> = self.realm().clone();
        let name = principal_name(alloc, NT_PRINCIPAL, self.components());
        let numbers = both(version, microsecond);
        let ((version, microsecond), (realm, name)) = both(numbers, both(realm, name))?;
        Ok(AuthenticatorParts {
            version,
            realm,
            name,
            microsecond,
        })
    }
}

fn authenticator_with(
    parts: AuthenticatorParts,
    second: GeneralizedTime,
    checksum: Option<Checksum>,
    subkey: Option<EncryptionKey>,
) -> AuthenticatorInner
    ensures { result ≡ authenticator_with parts second checksum subkey }
{
    AuthenticatorInner {
        authenticator_vno: ExplicitContextTag(parts.version),
        crealm: ExplicitContextTag(parts.realm),
        cname: ExplicitContextTag(parts.name),
        cksum: Optional(checksum.map(ExplicitContextTag)),
        cusec: ExplicitContextTag(parts.microsecond),
        ctime: ExplicitContextTag(GeneralizedTimeAsn1(second)),
        subkey: Optional(subkey.map(ExplicitContextTag)),
        seq_number: Optional(None),
        authorization_data: Optional(None),
    }
}

/// The AP request with the credential's ticket and the authenticator, which is sealed under the session key for the usage
/// (RFC 4120, section 5.5.1). Fails only if memory runs out.
pub fn ap_request(
    alloc: Global,
    credential: &Credential,
    usage: i32,
    mutual_required: bool,
    authenticator: AuthenticatorInner,
    confounder: &[u8],
) -> Result<Vec<u8>, AllocError>
    requires { length confounder.now ≡ cipher_confounder_size credential.now.suite }
    ensures { IfOk result (λ bytes. IsApRequest credential.now (cast_unsigned w32 usage) mutual_required authenticator confounder.now bytes.items) }
{
    let plain = authenticator_bytes(alloc, authenticator)?;
    let sealed = sealed_data(alloc, credential.key(), None, usage, confounder, &plain)?;
    let request = ap_request_of(alloc, mutual_required, credential.ticket(), sealed)?;
    let bytes = ap_request_bytes(alloc, request)?;
    Ok(bytes)
}

// The encoding of the authenticator.
#[tactic(auto, unfolding(crate::specs::Messages::authenticator_bytes))]
fn authenticator_bytes(alloc: Global, inner: AuthenticatorInner) -> Result<Vec<u8>, AllocError>
    ensures { IfOk result (λ bytes. bytes.items ≡ authenticator_bytes inner) }
{
    let bytes = tagged_encoding::<AuthenticatorInner, AUTHENTICATOR_TYPE>(alloc, inner)?;
    Ok(bytes)
}

// The options of the request.
fn options_of(alloc: Global, mutual_required: bool) -> Result<ApOptions, AllocError>
    ensures { IfOk result (λ options. options ≡ options_of mutual_required) }
{
    let first = if mutual_required {
        MUTUAL_REQUIRED_MASK
    } else {
        0
    };
    let Ok(options) = BitStringAsn1::new(alloc, &[first, 0, 0, 0], 0) else {
        return Err(AllocError);
    };
    Ok(options)
}

// The request with its sealed authenticator.
fn ap_request_of(
    alloc: Global,
    mutual_required: bool,
    ticket: &Ticket,
    authenticator: EncryptedData,
) -> Result<ApReqInner, AllocError>
    ensures { IfOk result (λ request. request ≡ ap_request_of mutual_required ticket.now.0 authenticator) }
{
    let version = IntegerAsn1::from_u64(alloc, u64::from(KERBEROS_VERSION));
    let kind = IntegerAsn1::from_u64(alloc, u64::from(AP_REQ_MSG_TYPE));
    let options = options_of(alloc, mutual_required);
    let head = both(both(version, kind), options);
    let tail = both(ticket_copy(ticket), Ok(authenticator));
    let (((version, kind), options), (ticket, authenticator)) = both(head, tail)?;
    Ok(ApReqInner {
        pvno: ExplicitContextTag(version),
        msg_type: ExplicitContextTag(kind),
        ap_options: ExplicitContextTag(options),
        ticket: ExplicitContextTag(ticket),
        authenticator: ExplicitContextTag(authenticator),
    })
}

// The encoding of the request.
#[tactic(auto, unfolding(crate::specs::Messages::ap_request_bytes))]
fn ap_request_bytes(alloc: Global, request: ApReqInner) -> Result<Vec<u8>, AllocError>
    ensures { IfOk result (λ bytes. bytes.items ≡ ap_request_bytes request) }
{
    let bytes = tagged_encoding::<ApReqInner, AP_REQ_MSG_TYPE>(alloc, request)?;
    Ok(bytes)
}
