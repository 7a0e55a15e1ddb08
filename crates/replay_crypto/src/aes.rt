//! What AES makes in a chain.

use crate::row::Vector;
use crate::sealing::is;
use block_ciphers::{AesSize, decrypt_aes_cbc, decrypt_aes_cts, encrypt_aes_cbc, encrypt_aes_cts};
use std::alloc::Global;

fn size_of(row: &Vector<'_>) -> AesSize {
    if row.size() == 16 {
        AesSize::Aes128
    } else {
        AesSize::Aes256
    }
}

/// Whether CBC mode encrypts the row's text to its ciphertext under its key, and decrypts that to the text.
pub(crate) fn is_chained(alloc: Global, row: &Vector<'_>) -> bool {
    let [key, text, cipher] = row.columns.as_slice() else {
        return false;
    };
    let size = size_of(row);
    is(encrypt_aes_cbc(alloc, key, text, &size), cipher)
        && is(decrypt_aes_cbc(alloc, key, cipher, &size), text)
}

/// Whether CBC mode with ciphertext stealing encrypts the row's text to its ciphertext, and decrypts that to the text (RFC 3962,
/// section 5).
pub(crate) fn is_stolen(alloc: Global, row: &Vector<'_>) -> bool {
    let [key, text, cipher] = row.columns.as_slice() else {
        return false;
    };
    let size = size_of(row);
    is(encrypt_aes_cts(alloc, key, text, &size), cipher)
        && is(decrypt_aes_cts(alloc, key, cipher, &size), text)
}
