//! What the suites make, each by its number.

use crate::row::Vector;
use crate::sealing::is;
use krb_crypto::{Checksum, Cipher, CipherSuite};
use std::alloc::Global;

/// Password, salt and key.
pub(crate) fn is_key(alloc: Global, row: &Vector<'_>) -> bool {
    let (Ok(suite), [password, salt, key]) = (
        CipherSuite::try_from(row.size()),
        row.columns.as_slice(),
    ) else {
        return false;
    };
    is(suite.generate_key_from_password(alloc, password, salt), key)
}

/// Key, confounder, text and what they are sealed to, which is opened to the text with its padding; whole and in parts.
pub(crate) fn is_sealed(alloc: Global, row: &Vector<'_>) -> bool {
    let (Ok(suite), [key, confounder, text, sealed]) = (
        CipherSuite::try_from(row.size()),
        row.columns.as_slice(),
    ) else {
        return false;
    };
    confounder.len() == suite.confounder_size()
        && is(
            suite.encrypt(alloc, key, row.usage(), text, confounder),
            sealed,
        )
        && is_opened(alloc, row, suite)
        && is_in_parts(alloc, row, suite)
}

/// Whether what is sealed opens to the text, followed by just its padding.
fn is_opened(alloc: Global, row: &Vector<'_>, suite: CipherSuite) -> bool {
    let [key, _, text, sealed] = row.columns.as_slice() else {
        return false;
    };
    let Ok(opened) = suite.decrypt(alloc, key, row.usage(), sealed) else {
        return false;
    };
    match opened.strip_prefix(text.as_slice()) {
        Some(padding) => suite.is_padding(text, padding),
        None => false,
    }
}

/// Whether what is sealed is the encrypted text and its checksum, each made alone. The same confounder and key of the
/// checksum come from both ways.
fn is_in_parts(alloc: Global, row: &Vector<'_>, suite: CipherSuite) -> bool {
    let [key, confounder, text, sealed] = row.columns.as_slice() else {
        return false;
    };
    if confounder.len() != suite.confounder_size() {
        return false;
    }
    let (Ok(there), Ok(back)) = (
        suite.encrypt_no_checksum(alloc, key, row.usage(), text, confounder),
        suite.decrypt_no_checksum(alloc, key, row.usage(), sealed),
    ) else {
        return false;
    };
    let Some(checksum) = sealed.strip_prefix(there.encrypted.as_slice()) else {
        return false;
    };
    checksum == back.checksum.as_slice()
        && back.plaintext.starts_with(text)
        && there.confounder == back.confounder
        && there.ki == back.ki
        && back.confounder.as_slice() == confounder.as_slice()
}

/// Key, text and checksum.
pub(crate) fn is_checksum(alloc: Global, row: &Vector<'_>) -> bool {
    let (Ok(suite), [key, text, checksum]) = (
        CipherSuite::try_from(row.size()),
        row.columns.as_slice(),
    ) else {
        return false;
    };
    let hasher = suite.checksum_type();
    is(hasher.checksum(alloc, key, row.usage(), text), checksum)
}
