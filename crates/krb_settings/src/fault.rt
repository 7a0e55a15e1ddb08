//! What is wrong with a settings file, and where.
ghost use Rattle.std.specs.Prelude.{◌≡◌, ◌↔◌, IsTrue};
ghost use Rattle.krb_settings.specs.Accounts.{fault_in_account, fault_in_file};
ghost use Rattle.krb_settings.specs.declared.fault.TableFault.TheVariants as table_fault;
ghost use Rattle.krb_settings.specs.declared.fault.SettingsFault.TheVariants as settings_fault;

use crate::Field;
use std::alloc::{AllocError, AllocFailed};
use thiserror::Error;
use toml::de;

/// What is wrong with the file's own table, or with that of an account.
#[derive(Clone, Copy, Debug, PartialEq, Eq, Error)]
pub enum TableFault {
    /// A key is the name of no field of this table.
    #[error("unknown key")]
    UnknownKey,
    /// A field is missing.
    #[error("no {0}")]
    Missing(Field),
    /// A field holds another type's value.
    #[error("{} is not {}", .0.name(), .0.kind())]
    WrongType(Field),
    /// The suite is none that is known.
    #[error("unknown suite")]
    UnknownSuite,
    /// The key isn't pairs of hexadecimal digits.
    #[error("key is not pairs of hexadecimal digits")]
    BadDigits,
    /// An account has a password and a key.
    #[error("both password and key")]
    BothSecrets,
    /// An account has neither a password nor a key.
    #[error("neither password nor key")]
    NeitherSecret,
    /// Memory ran out.
    #[error("out of memory")]
    Memory,
}

impl From<AllocError> for TableFault {
    ghost from_gives = { λ _ fault. fault ≡ table_fault.Memory };

    fn from(_failed: AllocError) -> TableFault {
        TableFault::Memory
    }
}

impl<T: Drop> From<AllocFailed<T>> for TableFault {
    ghost from_gives = { λ _ fault. fault ≡ table_fault.Memory };

    fn from(_failed: AllocFailed<T>) -> TableFault {
        TableFault::Memory
    }
}

/// What is wrong with a settings file, and where. It holds nothing of what the file holds.
#[derive(Clone, Copy, Debug, PartialEq, Eq, Error)]
pub enum SettingsFault {
    /// The file is longer than [`crate::SETTINGS_LIMIT`].
    #[error("more than 1,048,576 bytes")]
    TooLong,
    /// The file is no TOML text. The fault has line and column.
    #[error("{0}")]
    NotToml(de::Error),
    /// A fault of the file's own table.
    #[error("{0}")]
    File(TableFault),
    /// A fault of an account. The first has number 1.
    #[error("account {0}: {1}")]
    Account(usize, TableFault),
    /// Memory ran out.
    #[error("out of memory")]
    Memory,
}

impl SettingsFault {
    // A fault of the file's own table.
    pub(crate) fn in_file(fault: TableFault) -> SettingsFault
        ensures { result ≡ fault_in_file fault }
    {
        match fault {
            TableFault::Memory => SettingsFault::Memory,
            other => SettingsFault::File(other),
        }
    }

    // A fault of the account of this number.
    pub(crate) fn in_account(number: usize, fault: TableFault) -> SettingsFault
        ensures { result ≡ fault_in_account number fault }
    {
        match fault {
            TableFault::Memory => SettingsFault::Memory,
            other => SettingsFault::Account(number, other),
        }
    }
}

impl From<AllocError> for SettingsFault {
    ghost from_gives = { λ _ fault. fault ≡ settings_fault.Memory };

    fn from(_failed: AllocError) -> SettingsFault {
        SettingsFault::Memory
    }
}

impl<T: Drop> From<AllocFailed<T>> for SettingsFault {
    ghost from_gives = { λ _ fault. fault ≡ settings_fault.Memory };

    fn from(_failed: AllocFailed<T>) -> SettingsFault {
        SettingsFault::Memory
    }
}
