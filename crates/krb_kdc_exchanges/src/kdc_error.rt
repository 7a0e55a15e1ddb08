//! The code and e-data of a KRB-ERROR.

/// The code and e-data of the KRB-ERROR that answers a request.
#[derive(Drop)]
pub(crate) struct KdcError {
    /// The code (RFC 4120, section 7.5.9).
    pub(crate) code: u32,
    /// The e-data that belongs to the code.
    pub(crate) e_data: Option<Vec<u8>>,
}
