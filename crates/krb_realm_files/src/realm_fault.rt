//! Why a realm's file can't be used.

use krb_kdc::LookupFault;
use std::io::ErrorKind;
use thiserror::Error;

/// Why a realm's file can't be used. It is displayed as what follows the file's name, with what was expected.
#[derive(Clone, Copy, Debug, PartialEq, Eq, Error)]
pub enum FileFault {
    /// It can't be opened, by this kind of fault.
    #[error("can't be opened: {0}: expected a database of accounts that may be read")]
    Unopened(ErrorKind),
    /// It can't be read, by this kind of fault.
    #[error("can't be read: {0}: expected a file on a disk that works")]
    Unread(ErrorKind),
    /// It is no database, or its record of the realm or of an account is damaged or missing.
    #[error("is no realm's database, or damaged: expected one as krb_accounts makes it, replaced whole by rename")]
    Damaged,
}

impl FileFault {
    ghost use Rattle.std.specs.Prelude.{◌≡◌};
    ghost use Rattle.krb_realm_files.specs.Faults.{file_fault_of};

    /// Returns why the file can't be used, where a look-up in it failed. That memory ran out is no fault of the file.
    pub fn of(fault: LookupFault) -> Option<FileFault>
        ensures { result ≡ file_fault_of fault }
    {
        match fault {
            LookupFault::Failed(kind) => Some(FileFault::Unread(kind)),
            LookupFault::Damaged => Some(FileFault::Damaged),
            LookupFault::Memory => None,
        }
    }
}

/// Reports why a realm's file can't be used, before the message is refused.
pub trait FaultReporter {
    /// Reports the fault: the one for which the call then fails (`Accounts`). It is given one fault at most in each call, and none where
    /// the call has another result. No clause says this, since a call by `&self` changes nothing that a contract sees.
    fn report(&self, fault: FileFault);
}

/// Reports no fault.
#[derive(Clone, Copy, Debug)]
pub struct Silent;

impl FaultReporter for Silent {
    fn report(&self, _fault: FileFault) {}
}
