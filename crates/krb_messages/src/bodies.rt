//! The encoding of a request's body, over which checksums are computed (RFC 4120, section 5.5.1; RFC 4556, section 3.2.1).
ghost use Rattle.std.specs.Prelude.{◌≡◌, IfOk};
ghost use Rattle.krb_messages.specs.Bodies.{body_bytes};

use crate::messages::KdcReqBody;
use picky_asn1_der::to_vec;
use std::alloc::{AllocError, Global};

/// The one encoding of a request's body. Fails only if memory runs out.
#[tactic(auto, unfolding(crate::specs::Bodies::body_bytes))]
pub fn body_bytes(alloc: Global, body: &KdcReqBody) -> Result<Vec<u8>, AllocError>
    ensures { IfOk result (λ bytes. bytes.items ≡ body_bytes body.now) }
{
    let Ok(bytes) = to_vec(alloc, body) else {
        return Err(AllocError);
    };
    Ok(bytes)
}
