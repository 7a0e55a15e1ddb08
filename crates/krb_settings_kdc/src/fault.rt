//! Why a settings file is no realm's.

use krb_realm_accounts::RealmRefusal;
use krb_settings::SettingsFault;
use thiserror::Error;

/// Why a settings file is no realm's, and where.
#[derive(Clone, Copy, Debug, PartialEq, Eq, Error)]
pub enum RealmFault {
    /// A fault of the file itself.
    #[error("{0}")]
    File(SettingsFault),
    /// The realm's own name, key or settings were refused.
    #[error("realm: {0}")]
    Realm(RealmRefusal),
    /// The realm refused an account. The first has number 1.
    #[error("account {0}: {1}")]
    Account(usize, RealmRefusal),
    /// Memory ran out.
    #[error("out of memory")]
    Memory,
}
