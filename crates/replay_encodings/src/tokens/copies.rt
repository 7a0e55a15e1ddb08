//! Messages that are copied before they are written.
use picky_asn1_der::{Asn1DerError, Deserialize, Serialize, from_exact_bytes};
use std::alloc::Global;
use test_support::{Answer, Recorded, is_refused, is_written};

/// Whether a message is copied as expected, if the line names this type; none for any other type.
pub fn copied_as<T: Deserialize + Clone + PartialEq + Drop>(
    alloc: Global,
    recorded: &Recorded<'_>,
    type_name: &str,
) -> Option<Answer> {
    if recorded.type_name != type_name {
        return None;
    }
    Some(is_copied::<T>(alloc, recorded))
}

/// Whether a message is read as expected, and a copy of it is equal to it and written as expected.
fn is_copied<T: Deserialize + Clone + PartialEq + Drop>(
    alloc: Global,
    recorded: &Recorded<'_>,
) -> Answer {
    match from_exact_bytes::<T>(alloc, &recorded.bytes) {
        Ok(value) => is_copy_written(alloc, &value, recorded),
        Err(Asn1DerError::Memory) => Err(Asn1DerError::Memory),
        Err(_) => Ok(is_refused(recorded)),
    }
}

fn is_copy_written<T: Serialize + Clone + PartialEq>(
    alloc: Global,
    value: &T,
    recorded: &Recorded<'_>,
) -> Answer {
    let Ok(copy) = value.clone() else {
        return Err(Asn1DerError::Memory);
    };
    if copy != *value {
        return Ok(false);
    }
    is_written(alloc, &copy, recorded)
}
