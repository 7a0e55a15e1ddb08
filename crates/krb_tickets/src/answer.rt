//! Which reply of a KDC answers a request.
ghost use Rattle.std.specs.Prelude.{◌≡◌};
ghost use Rattle.krb_tickets.specs.Answers.{is_answer};

use krb_messages::messages::{EncKdcRepPart, KdcRep};
use krb_messages::{is_number, is_same_name, is_same_realm};
use picky_asn1::wrapper::GeneralStringAsn1;

/// Whether a reply, with its part opened, answers the request that a client of this realm and of these components made for
/// the service, with the nonce (RFC 4120, sections 3.1.5 and 3.3.4): the part has the nonce, the reply names the client, and
/// the part the service.
#[tactic(auto, unfolding(crate::specs::Answers::is_answer))]
pub fn is_answer(
    realm: &GeneralStringAsn1,
    client: &[GeneralStringAsn1],
    service: &[GeneralStringAsn1],
    nonce: u32,
    reply: &KdcRep,
    part: &EncKdcRepPart,
) -> bool
    ensures { result ≡ is_answer realm.now client.now service.now nonce reply.now part.now }
{
    if !is_number(&part.nonce.0, nonce) {
        return false;
    }
    if !is_same_realm(&reply.crealm.0, realm) {
        return false;
    }
    if !is_same_name(reply.cname.0.name_string.0.as_slice(), client) {
        return false;
    }
    if !is_same_realm(&part.srealm.0, realm) {
        return false;
    }
    is_same_name(part.sname.0.name_string.0.as_slice(), service)
}
