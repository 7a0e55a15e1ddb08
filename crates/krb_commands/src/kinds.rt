//! What kinds of files commands read and write, and how a file's front shows its kind.
ghost use Rattle.std.specs.Prelude.{◌≡◌, ◌≤◌, false, length};
ghost use Rattle.krb_commands.specs.Kinds.{all_joined, behind_comments, is_accounts, is_cache, is_database, is_header};

use byte_streams::u32_le;
use cdb::{HEADER_SIZE, PAIR_SIZE, TABLES};
use std::fmt;

/// How many octets a text of accounts or a database may have: positions in a database are numbers of 32 bits.
pub const ACCOUNTS_LIMIT: u64 = 4_294_967_295;

/// How many octets a keytab or a credential cache may have: 16 mebibytes.
pub const KEYS_LIMIT: u64 = 16_777_216;

/// How many octets a certificate, a private key or a settings file may have: one mebibyte.
pub const SMALL_LIMIT: u64 = 1_048_576;

/// How many octets of a file's front show its kind at most.
pub(crate) const FRONT_LIMIT: u64 = 65_536;

/// What the first line of a text of accounts begins with that is no comment.
const REALM_WORD: &[u8] = b"realm\t";

/// The kind of a file.
#[derive(Clone, Copy, Debug, PartialEq, Eq)]
pub enum FileKind {
    /// A text of accounts, the master of a realm.
    Accounts,
    /// A database of accounts, which a KDC reads.
    Database,
    /// A keytab.
    Keytab,
    /// A credential cache.
    Cache,
    /// A certificate. No command writes one.
    Certificate,
    /// A private key. No command writes one.
    PrivateKey,
    /// A settings file. No command writes one.
    Settings,
}

impl FileKind {
    ghost use Rattle.krb_commands.specs.Kinds.{is_of_kind, limit_of};

    /// How many octets a file of this kind may have.
    pub fn limit(self) -> u64
        ensures { result ≡ limit_of self }
    {
        match self {
            FileKind::Accounts | FileKind::Database => ACCOUNTS_LIMIT,
            FileKind::Keytab | FileKind::Cache => KEYS_LIMIT,
            FileKind::Certificate | FileKind::PrivateKey | FileKind::Settings => SMALL_LIMIT,
        }
    }

    /// Whether a file with these first octets is of this kind, as far as they show it. A command puts a new file only in the place of such
    /// a one, so no file is of a kind that no command writes.
    pub fn has_front(self, front: &[u8]) -> bool
        ensures { result ≡ is_of_kind self front.now }
    {
        match self {
            FileKind::Accounts => is_accounts(front),
            FileKind::Database => is_database(front),
            FileKind::Keytab => front.starts_with(&[5, 2]),
            FileKind::Cache => is_cache(front),
            FileKind::Certificate | FileKind::PrivateKey | FileKind::Settings => false,
        }
    }
}

/// The kind in an administrator's words.
impl fmt::Display for FileKind {
    fn fmt<W: fmt::Write>(&self, f: &mut fmt::Formatter<W>) -> fmt::Result {
        f.write_str(match self {
            FileKind::Accounts => "text of accounts",
            FileKind::Database => "database",
            FileKind::Keytab => "keytab",
            FileKind::Cache => "credential cache",
            FileKind::Certificate => "certificate",
            FileKind::PrivateKey => "private key",
            FileKind::Settings => "settings file",
        })
    }
}

// Whether octets begin with the version of a credential cache.
fn is_cache(front: &[u8]) -> bool
    ensures { result ≡ is_cache front.now }
{
    front.starts_with(&[5, 3]) || front.starts_with(&[5, 4])
}

// Whether the first line that is no comment begins as that of a realm. Where all are comments, what follows the front decides.
fn is_accounts(front: &[u8]) -> bool
    ensures { result ≡ is_accounts front.now }
{
    let lines = behind_comments(front);
    lines.is_empty() || lines.starts_with(REALM_WORD)
}

// The octets from the first line on that is no comment.
fn behind_comments(front: &[u8]) -> &[u8]
    ensures { result.now ≡ behind_comments false front.now }
{
    let mut is_comment = false;
    for (place, octet) in front.iter().enumerate() {
        if is_comment {
            is_comment = *octet != b'\n';
        } else if *octet == b'#' {
            is_comment = true;
        } else {
            return &front[place..];
        }
    }
    &[]
}

// Whether octets begin with the header of a constant database, whose hash tables stand one behind the other.
fn is_database(front: &[u8]) -> bool
    ensures { result ≡ is_database front.now }
{
    front.len() >= HEADER_SIZE && is_header(front)
}

// Whether octets begin so that are enough for a header.
fn is_header(front: &[u8]) -> bool
    requires { HEADER_SIZE ≤ length front.now }
    ensures { result ≡ is_header front.now }
{
    let first = u32_le(front, 0);
    first as usize >= HEADER_SIZE && all_joined(front, first)
}

// Whether the hash tables of a header stand one behind the other, the first at this position.
fn all_joined(front: &[u8], first: u32) -> bool
    requires { HEADER_SIZE ≤ length front.now }
    ensures { result ≡ all_joined first front.now }
{
    let mut end = u64::from(first);
    for table in 0..TABLES as usize {
        let place = table * PAIR_SIZE as usize;
        let position = u64::from(u32_le(front, place));
        if position != end {
            return false;
        }
        end = position + u64::from(u32_le(front, place + 4)) * PAIR_SIZE;
    }
    true
}
