//! The faults of a look-up.
use std::io::ErrorKind;
use thiserror::Error;

/// Why a file gives no answer.
#[derive(Clone, Copy, Debug, PartialEq, Eq, Error)]
pub enum Fault {
    /// A read of the file failed, by this kind of fault.
    #[error("the database could not be read: {0:?}")]
    Failed(ErrorKind),
    /// The file is damaged: it states a position past its end.
    #[error("the database is damaged")]
    Damaged,
    /// The data are longer than the caller's buffer.
    #[error("the data are longer than the buffer")]
    Long,
}
