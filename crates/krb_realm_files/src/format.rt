//! The numbers of the format.

/// The version of both records, of an account and of the realm: their octet 0.
pub const RECORD_VERSION: u8 = 1;

/// How many octets an account's record has before the key: the version, the suite's number, the kvno, and the marks.
pub const ACCOUNT_HEAD: usize = 7;

/// The mark of a salt.
pub const SALT: u8 = 1;

/// The mark of older keys.
pub const OLDER_KEYS: u8 = 2;

/// The mark of attributes.
pub const ATTRIBUTES: u8 = 4;

/// How many octets the attributes have: the end of the account, the greatest lifetime, and their own marks.
pub const ATTRIBUTES_LEN: usize = 13;

/// How many octets an older key has in front: the suite's number and the kvno.
pub const OLDER_HEAD: usize = 5;

/// How many octets the realm's record has in front: the version, the clock skew, the greatest lifetime, how many octets logins by
/// certificate are answered by, and the policy.
pub const REALM_HEAD: usize = 17;

/// What the number of a policy in the realm's record has for limited session keys of triple DES. No policy is 0.
pub const LIMITS_DES3: u32 = 1;

/// What it has for forwardable tickets.
pub const FORWARDABLE: u32 = 2;

/// What it has for proxiable tickets.
pub const PROXIABLE: u32 = 4;

/// What it has for requests by certificate with algorithm agility.
pub const PKINIT_AGILITY: u32 = 8;

/// What it has for each second of the greatest renewable life.
pub const RENEWABLE_SECOND: u32 = 16;

/// What it has for clients that sign by SHA-1: 2 to the power of 29. A renewable life of a year comes to less.
pub const PKINIT_SHA1: u32 = 536_870_912;

/// How many octets a record has at most: enough for the salt of a name of 16 components and of a realm's name, each of 255 characters.
pub const RECORD_ROOM: usize = 8_192;

/// How many octets logins by certificate are answered by at most: what the realm's record has room for, with a name of 255 characters.
pub const PKINIT_ROOM: usize = 7_920;

/// The one octet of the key under which the realm's record is. The octets of a name's block are at most 128, so it is no name's.
pub const REALM_KEY: u8 = 255;
