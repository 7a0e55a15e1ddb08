//! What is written of a value that was made, and why none was.
use picky_asn1_der::Serialize;
use std::alloc::Global;
use x509_spelling::X509Fault;

/// Whether a value was made that is written as these bytes.
pub(crate) fn is_written<T: Serialize + Drop>(
    alloc: Global,
    made: Option<T>,
    bytes: &[u8],
) -> bool {
    let Some(value) = made else {
        return false;
    };
    match picky_asn1_der::to_vec(alloc, &value) {
        Ok(written) => written.as_slice() == bytes,
        Err(_) => false,
    }
}

pub(crate) fn fault_of<T: Drop>(made: Result<T, X509Fault>) -> Option<X509Fault> {
    made.err()
}
