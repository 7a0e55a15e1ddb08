//! One spelling, read, counted and rewritten.
use crate::x509::line::{Recorded, Wanted};
use std::alloc::Global;
use x509_codec::{deviations, encoded_len, from_bytes, to_vec};
use x509_spelling::{Spelled, X509Fault};

/// Whether a recorded spelling is read, counted and rewritten as expected, memory aside.
pub type Answer = Result<bool, X509Fault>;

/// Whether a spelling is read, counted and rewritten as expected, if the line names this type; none for any other type.
pub fn spelled_as<T: Spelled>(
    alloc: Global,
    recorded: &Recorded<'_>,
    type_name: &str,
) -> Option<Answer> {
    if recorded.type_name != type_name {
        return None;
    }
    Some(is_told::<T>(alloc, recorded))
}

/// Whether a recorded spelling of this type is read, counted and rewritten as expected.
pub fn is_told<T: Spelled>(alloc: Global, recorded: &Recorded<'_>) -> Answer {
    let bytes = recorded.bytes.as_slice();
    match (from_bytes::<T>(alloc, bytes), &recorded.wanted) {
        (Ok(value), Some(wanted)) => is_written(alloc, &value, bytes, wanted),
        (Err(X509Fault::Memory), _) => Err(X509Fault::Memory),
        (Err(_), wanted) => Ok(wanted.is_none()),
        (Ok(_), None) => Ok(false),
    }
}

/// Whether these bytes are counted, and the value that they spell is written, as expected.
pub fn is_written<T: Spelled>(alloc: Global, value: &T, bytes: &[u8], wanted: &Wanted) -> Answer {
    let count = deviations::<T>(alloc, bytes)?;
    let strict = to_vec(alloc, value)?;
    let len = encoded_len(value)?;
    Ok(count == wanted.count && len == wanted.strict.len() && strict == wanted.strict)
}
