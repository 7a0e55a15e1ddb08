//! Why a text of accounts was not read.
ghost use Rattle.std.specs.Prelude.{◌≡◌};
ghost use Rattle.krb_account_texts.specs.declared.fault.LineFault.TheVariants as line_fault;
ghost use Rattle.krb_account_texts.specs.declared.fault.TextFault.TheVariants as text_fault;

use std::alloc::{AllocError, AllocFailed};
use thiserror::Error;

/// Why a line is none of a text of accounts: what was expected. It shows nothing of the line.
#[derive(Clone, Copy, Debug, PartialEq, Eq, Error)]
pub enum LineFault {
    /// The line has another number of fields, or four or six of which the first isn't `realm`.
    #[error("expected name, suite, kvno, salt and key, and perhaps last second, lifetime, marks and older keys, or realm, name, skew and lifetime, and perhaps words and octets or -, with a tab between each two")]
    Fields,
    /// The fifth of six fields has another word than those of a realm's line, or one twice, or they are in another order.
    #[error("words: expected some of limits-des3, forwardable, proxiable, renewable=SECONDS, guards-passwords, pkinit-agility, pkinit-sha1 and pkinit, in this order, with a comma between each two")]
    Words,
    /// The greatest renewable life is no number of seconds from one to a year's.
    #[error("renewable: expected a whole number of seconds from 1 to 31536000")]
    Renewable,
    /// The fifth of six fields doesn't have the word `pkinit`, and the sixth one isn't `-`.
    #[error("expected - behind words without pkinit")]
    NoPkinit,
    /// Behind the mark of a disabled account, `#disabled` and a tab, the line has another number of fields.
    #[error("expected name, suite, kvno, salt and key behind #disabled, with a tab between each two")]
    DisabledFields,
    /// The name is none of a principal.
    #[error("name: expected 1 to 16 components of 1 to 255 ASCII characters, with / between each two")]
    Name,
    /// The suite is none that is known.
    #[error("suite: expected one of aes128-cts-hmac-sha1-96, aes256-cts-hmac-sha1-96, des3-cbc-sha1-kd, aes128-cts-hmac-sha256-128, aes256-cts-hmac-sha384-192")]
    Suite,
    /// The kvno is no number from 1 on that has 32 bits.
    #[error("kvno: expected a whole number from 1 to 4294967295")]
    Kvno,
    /// The salt isn't pairs of hexadecimal digits.
    #[error("salt: expected pairs of hexadecimal digits, or - for none")]
    Salt,
    /// The salt has an octet from 128 on, which no ETYPE-INFO2 has.
    #[error("salt: expected octets below 128")]
    SaltOctet,
    /// The key isn't as many pairs of hexadecimal digits as its suite's keys have octets.
    #[error("key: expected as many hexadecimal digits as a key of the suite has: 32, 48 or 64")]
    Key,
    /// The last second of the account is no number of 32 bits.
    #[error("last second: expected seconds since 1970, from 0 to 4294967295, or - for none")]
    Ends,
    /// The greatest lifetime of the account is no number of 32 bits.
    #[error("lifetime: expected seconds, from 0 to 4294967295, or - for none")]
    Lifetime,
    /// The marks of the account are others than those that are known, or in another order.
    #[error("marks: expected off, must-change and no-service in this order, with a comma between each two, or - for none")]
    Marks,
    /// An older key isn't a suite, a kvno and a key, the kvno isn't below that of the key before it, or there are too many of them.
    #[error("older key: expected suite, kvno and key with a colon between each two, kvnos that fall, and 15 older keys at most")]
    OlderKey,
    /// The realm's name is none of a realm, or has an octet below 32.
    #[error("realm: expected 1 to 255 printable ASCII characters")]
    RealmName,
    /// The clock skew or the lifetime is out of its range.
    #[error("realm: expected a skew from 0 to 86400 seconds and a lifetime from 1 to 31536000 seconds")]
    Seconds,
    /// What logins by certificate are answered by isn't pairs of hexadecimal digits, one or more.
    #[error("pkinit: expected pairs of hexadecimal digits, as certify writes them")]
    Pkinit,
    /// An account or the end of the text is before the realm's line.
    #[error("expected the line of the realm before all accounts: realm, name, skew and lifetime")]
    NoRealm,
    /// There is a second line of a realm.
    #[error("expected one line of a realm alone")]
    SecondRealm,
    /// The account's name isn't after that of the account before it.
    #[error("name: expected accounts in the order of their names, each name once")]
    Order,
    /// Memory ran out.
    #[error("out of memory")]
    Memory,
}

impl From<AllocError> for LineFault {
    ghost from_gives = { λ _ fault. fault ≡ line_fault.Memory };

    fn from(_error: AllocError) -> LineFault {
        LineFault::Memory
    }
}

impl<T: Drop> From<AllocFailed<T>> for LineFault {
    ghost from_gives = { λ _ fault. fault ≡ line_fault.Memory };

    fn from(_error: AllocFailed<T>) -> LineFault {
        LineFault::Memory
    }
}

/// Why a text is none of accounts, and in which line. The first line has number 1.
#[derive(Clone, Copy, Debug, PartialEq, Eq, Error)]
pub enum TextFault {
    /// The line of this number has this fault.
    #[error("{0}: {1}")]
    Line(usize, LineFault),
    /// The line of this number, which is the last one, has no line feed after it.
    #[error("{0}: expected a line break at the end")]
    NoEnd(usize),
    /// Memory ran out.
    #[error("out of memory")]
    Memory,
}

impl From<AllocError> for TextFault {
    ghost from_gives = { λ _ fault. fault ≡ text_fault.Memory };

    fn from(_error: AllocError) -> TextFault {
        TextFault::Memory
    }
}

impl<T: Drop> From<AllocFailed<T>> for TextFault {
    ghost from_gives = { λ _ fault. fault ≡ text_fault.Memory };

    fn from(_error: AllocFailed<T>) -> TextFault {
        TextFault::Memory
    }
}
