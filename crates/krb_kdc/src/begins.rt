//! What a request begins with.
ghost use Rattle.std.specs.Prelude.{◌≡◌, false, slice_get};
ghost use Rattle.std.specs.Option.{option_map_or};
ghost use Rattle.krb_kdc.specs.Begins.{IsNoRequest, is_request_octet};

use krb_constants::types::{APPLICATION, AS_REQ_MSG_TYPE, TGS_REQ_MSG_TYPE};

/// Returns whether a message begins with the identifier octet of an AS request or of a TGS request (RFC 4120, section 5.4.1). Bytes that
/// begin with neither are no request.
pub fn begins_request(message: &[u8]) -> bool
    ensures begins { result ≡ option_map_or is_request_octet (slice_get message.now 0) false }
    ensures none { result ≡ false → IsNoRequest message.now }
{
    match message.first() {
        Some(&octet) => {
            octet == APPLICATION + AS_REQ_MSG_TYPE || octet == APPLICATION + TGS_REQ_MSG_TYPE
        }
        None => false,
    }
}
