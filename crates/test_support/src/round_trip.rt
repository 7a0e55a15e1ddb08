//! One message, read and written back.
use crate::columns::{Recorded, Wanted};
use picky_asn1_der::{Asn1DerError, Deserialize, FromDer, Serialize, from_exact_bytes, to_vec};
use std::alloc::Global;

/// Whether a message is read and written as expected, memory aside.
pub type Answer = Result<bool, Asn1DerError>;

/// Whether a message of this type is read and written as expected. One bound covers reading and writing, since a call at a
/// message's own type spells each bound's impl out.
pub fn is_told<T: Deserialize + Drop>(alloc: Global, recorded: &Recorded<'_>) -> Answer {
    is_read_told::<T>(alloc, recorded)
}

/// Whether a message is read and written as expected. Its type may be read in a way of its own.
pub fn is_read_told<T: FromDer + Serialize>(alloc: Global, recorded: &Recorded<'_>) -> Answer {
    match from_exact_bytes::<T>(alloc, &recorded.bytes) {
        Ok(value) => is_written(alloc, &value, recorded),
        Err(Asn1DerError::Memory) => Err(Asn1DerError::Memory),
        Err(_) => Ok(is_refused(recorded)),
    }
}

/// Whether a value is written as expected.
pub fn is_written<T: Serialize>(alloc: Global, value: &T, recorded: &Recorded<'_>) -> Answer {
    let written = to_vec(alloc, value)?;
    Ok(are_wanted(&written, recorded))
}

/// Whether the written bytes are those that are expected.
pub fn are_wanted(written: &[u8], recorded: &Recorded<'_>) -> bool {
    match &recorded.wanted {
        Wanted::Itself => written == recorded.bytes.as_slice(),
        Wanted::Other(bytes) => written == bytes.as_slice(),
        Wanted::Held(_) | Wanted::Refused => false,
    }
}

/// Whether a refusal is expected.
pub fn is_refused(recorded: &Recorded<'_>) -> bool {
    matches!(recorded.wanted, Wanted::Refused)
}
