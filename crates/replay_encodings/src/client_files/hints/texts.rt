//! The texts of rows.

use krb_client::{ByKey, Credential};
use krb_client_exchanges::KeyHint;
use std::alloc::Global;
use std::fmt::Debug;

/// The text of a refusal.
pub(crate) fn refused<E: Debug>(alloc: Global, refusal: &E) -> anyhow::Result<String> {
    Ok(format!(in alloc; "refused: {refusal:?}")?)
}

/// The text of a hint, and of the key by it.
pub(crate) fn key_text(alloc: Global, hint: &KeyHint, means: &ByKey) -> anyhow::Result<String> {
    let suite = u8::from(hint.suite);
    let salt = match &hint.salt {
        Some(salt) => hex::encode(alloc, salt.as_bytes())?,
        None => format!(in alloc; "default")?,
    };
    let salt = if salt.is_empty() {
        "empty"
    } else {
        salt.as_str()
    };
    let key = hex::encode(alloc, means.key.as_bytes())?;
    Ok(format!(in alloc; "suite {suite} salt {salt} key {key}")?)
}

/// The text of a key, and of what was granted under it.
pub(crate) fn granted_text(
    alloc: Global,
    key: &str,
    credential: &Credential,
) -> anyhow::Result<String> {
    let mut text = format!(in alloc; "{key} granted ")?;
    let mut mark = "";
    for component in credential.service().name_string.0.as_slice() {
        text.push_str(mark)?;
        text.push_str(component.as_str())?;
        mark = "/";
    }
    Ok(text)
}
