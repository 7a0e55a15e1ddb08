//! Keys that shared secrets give.

use crate::row::Vector;
use crate::sealing::is;
use krb_crypto::CipherSuite;
use krb_crypto::diffie_hellman::{DhNonce, generate_key_from_shared_secret};
use std::alloc::Global;

/// Secret and key, or between them both nonces.
pub(crate) fn is_agreed(alloc: Global, row: &Vector<'_>) -> bool {
    match row.columns.as_slice() {
        [secret, key] => is_key(alloc, row.size(), secret, None, key),
        [secret, client_nonce, server_nonce, key] => {
            let nonce = DhNonce {
                client_nonce,
                server_nonce,
            };
            is_key(alloc, row.size(), secret, Some(nonce), key)
        }
        _ => false,
    }
}

fn is_key(
    alloc: Global,
    suite: usize,
    secret: &[u8],
    nonce: Option<DhNonce<'_>>,
    key: &[u8],
) -> bool {
    let Ok(suite) = CipherSuite::try_from(suite) else {
        return false;
    };
    let Ok(secret) = Vec::from_slice(alloc, secret) else {
        return false;
    };
    is(
        generate_key_from_shared_secret(alloc, secret, nonce, suite.cipher()),
        key,
    )
}
