//! What a value is written as, and what bytes are read as.
use picky_asn1_der::{Asn1DerError, Deserialize, Serialize, from_bytes, from_exact_bytes, to_vec};
use std::alloc::Global;

// Whether the value is written as these bytes, and read from them both with nothing behind it and as a front.
pub(crate) fn is_spelled<T: Deserialize + PartialEq + Drop>(
    alloc: Global,
    value: &T,
    bytes: &[u8],
) -> bool {
    is_written(alloc, value, bytes)
        && is_read(alloc, value, bytes)
        && match from_bytes::<T>(alloc, bytes) {
            Ok(read) => read == *value,
            Err(_) => false,
        }
}

pub(crate) fn is_written<T: Serialize>(alloc: Global, value: &T, bytes: &[u8]) -> bool {
    match to_vec(alloc, value) {
        Ok(written) => written.as_slice() == bytes,
        Err(_) => false,
    }
}

pub(crate) fn is_read<T: Deserialize + PartialEq + Drop>(
    alloc: Global,
    value: &T,
    bytes: &[u8],
) -> bool {
    match from_exact_bytes::<T>(alloc, bytes) {
        Ok(read) => read == *value,
        Err(_) => false,
    }
}

// What bytes are refused as.
pub(crate) fn fault_of<T: Deserialize + Drop>(alloc: Global, bytes: &[u8]) -> Option<Asn1DerError> {
    from_exact_bytes::<T>(alloc, bytes).err()
}

// What bytes are refused as, where more bytes may follow a value.
pub(crate) fn front_fault_of<T: Deserialize + Drop>(
    alloc: Global,
    bytes: &[u8],
) -> Option<Asn1DerError> {
    from_bytes::<T>(alloc, bytes).err()
}

// Whether a value was made, and is written as these bytes.
pub(crate) fn is_made<T: Serialize + Drop, E: Drop>(
    alloc: Global,
    made: Result<T, E>,
    bytes: &[u8],
) -> bool {
    match made {
        Ok(value) => is_written(alloc, &value, bytes),
        Err(_) => false,
    }
}

// Whether a copy of the value is equal to it.
pub(crate) fn is_own_copy<T: Clone + PartialEq + Drop>(value: &T) -> bool {
    match value.clone() {
        Ok(copy) => copy == *value,
        Err(_) => false,
    }
}
