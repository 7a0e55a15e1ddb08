//! The padata-value of a PA-PK-AS-REQ with algorithm agility.
ghost use Rattle.std.specs.Prelude.{◌≡◌, IfOk, MatchOption, length};
ghost use Rattle.pkinit_clients.specs.AgileRequests.{IsAgileRequest, IsNoAgileRequest};

use crate::agility::pack::agile_pack_bytes;
use crate::request::pk_as_req_bytes;
use crate::signed::signed_auth_pack;
use krb_messages::messages::KdcReqBody;
use krb_time::Moment;
use std::alloc::{AllocError, Global};
use x509_keys::KeyFunctions;

/// The data of the padata PA-PK-AS-REQ, as `pk_as_req` makes it, with the lists of CMS types and of key derivation functions.
///
/// `None` if the key functions have no public value or no signature, or the bytes are no certificate.
pub(crate) fn agile_pk_as_req<K: KeyFunctions>(
    alloc: Global,
    keys: &K,
    certificate: &[u8],
    body: &KdcReqBody,
    moment: Moment,
    words: &[u8],
) -> Result<Option<Vec<u8>>, AllocError>
    requires { length words.now ≡ 64 }
    ensures { IfOk result (λ made. MatchOption made
        (IsNoAgileRequest (K.functions keys.now) certificate.now body.now moment words.now)
        (λ bytes. IsAgileRequest (K.functions keys.now) certificate.now body.now moment words.now bytes.items)) }
{
    let Some(value) = keys.public_value(alloc, words)? else {
        return Ok(None);
    };
    let second = moment.second();
    let pack = agile_pack_bytes(alloc, body, second, moment.microsecond(), value)?;
    let Some(signed) = signed_auth_pack(alloc, keys, certificate, &pack)? else {
        return Ok(None);
    };
    let bytes = pk_as_req_bytes(alloc, signed)?;
    Ok(Some(bytes))
}
