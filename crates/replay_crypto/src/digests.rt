//! What the digests make.

use crate::row::Vector;
use crate::sealing::is;
use encryption_profiles::{hmac, hmac_sha1, kdf_hmac_sha2, n_fold, pbkdf2_hmac_sha1};
use sha1::Sha1;
use sha2::{Sha256, Sha384};
use std::alloc::Global;

/// Key, message and code, of the message whole and in two parts.
pub(crate) fn is_code(row: &Vector<'_>) -> bool {
    let [key, message, code] = row.columns.as_slice() else {
        return false;
    };
    let (front, back) = message.split_at(message.len() / 2);
    hmac::<Sha1, 20, 64>(key, message, &[]).as_slice() == code.as_slice()
        && hmac::<Sha1, 20, 64>(key, front, back).as_slice() == code.as_slice()
}

/// Key and derived key, by the label of usage 2 and the row's kind.
pub(crate) fn is_derived(alloc: Global, row: &Vector<'_>) -> bool {
    let (Ok(kind), [key, derived]) = (u8::try_from(row.usage()), row.columns.as_slice()) else {
        return false;
    };
    let label = [0, 0, 0, 2, kind];
    let size = derived.len();
    match row.size() {
        19 if size <= 32 => is(
            kdf_hmac_sha2::<Sha256, 32, 64>(alloc, key, &label, size),
            derived,
        ),
        20 if size <= 48 => is(
            kdf_hmac_sha2::<Sha384, 48, 128>(alloc, key, &label, size),
            derived,
        ),
        _ => false,
    }
}

/// Key, message and code, cut or padded to the row's size.
pub(crate) fn is_fitted_code(alloc: Global, row: &Vector<'_>) -> bool {
    let [key, message, code] = row.columns.as_slice() else {
        return false;
    };
    is(hmac_sha1(alloc, key, message, row.size()), code)
}

/// Password, salt and key, after as many rounds as the row's size.
pub(crate) fn is_password_key(alloc: Global, row: &Vector<'_>) -> bool {
    let (Ok(rounds), [password, salt, key]) = (u32::try_from(row.size()), row.columns.as_slice())
    else {
        return false;
    };
    if rounds == 0 || key.len() > 100 {
        return false;
    }
    is(
        pbkdf2_hmac_sha1(alloc, password, salt, rounds, key.len()),
        key,
    )
}

/// Data and what it is folded to, of as many bits as the row's size.
pub(crate) fn is_folded(alloc: Global, row: &Vector<'_>) -> bool {
    let [data, folded] = row.columns.as_slice() else {
        return false;
    };
    let size = row.size();
    if data.is_empty() || size == 0 || size % 8 != 0 {
        return false;
    }
    is(n_fold(alloc, data, size), folded)
}
