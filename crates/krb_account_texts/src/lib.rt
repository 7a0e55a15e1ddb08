//! The text that is the master of a realm's accounts: a line for the realm, and then a line for each account.
//!
//! ```text
//! # comments are kept
//! realm    EXAMPLE.COM    300    36000    limits-des3,pkinit    3082..
//! host/server.example.com    aes256-cts-hmac-sha1-96    1    -    (64 hexadecimal digits)
//! #disabled    other    aes256-cts-hmac-sha1-96    2    -    (64 hexadecimal digits)
//! user    aes128-cts-hmac-sha256-128    3    4558..    (32 hexadecimal digits)
//! ```
//!
//! A tab, and no blank, is between each two fields. An account's are its name as RFC 1964 writes it, the suite, the kvno, the salt or `-`,
//! and the key. Where it has attributes or older keys, its last second, its greatest lifetime, its marks and each older key follow. Behind
//! the word `#disabled` they are a disabled account's. The realm's are its name, the clock skew and the greatest lifetime of a ticket, both
//! in seconds. Where a policy is set, passwords are guarded or logins by certificate are answered, two fields follow: words with a comma
//! between each two, and what logins by certificate are answered by, or `-`. The words are `limits-des3`, `forwardable`, `proxiable`,
//! `renewable=604800` with the greatest renewable life in seconds, `guards-passwords`, `pkinit-agility`, `pkinit-sha1` and `pkinit`, in
//! this order. `specs/Lines` has what each line is written as, and `specs/Reading` how a text is read.
//!
//! [`read_lines`] returns the lines that a text writes, or its first fault with the number of its line. [`text_of`] writes lines, and what
//! is written is read as the same lines (law `written_is_read`). [`add`], [`change_key`], [`keep_key`], [`purge`], [`allow`], [`remove`],
//! [`disable`] and [`enable`] change the line of one account and no other. They refuse a name that is there, a name that is not there, and
//! a kvno that none follows. The account of the realm's ticket-granting service is neither removed nor disabled. Where the realm's line has
//! the word `guards-passwords`, an account that [`add`], [`change_key`] or [`keep_key`] gives a key of a password has the mark
//! `no-service`: there is no ticket for it as a service, by which its password could be guessed. [`certify`] changes the line of the realm
//! and no other. A [`Pattern`] matches the names that `matches` says, and [`can_be_typed`] says which realms' names a client's user can
//! type.
#![tactic(auto)]

mod edits;
mod fault;
mod fields;
mod further;
pub mod laws;
mod line;
mod order;
mod passwords;
mod patterns;
mod reading;
mod showing;
mod typed;
mod words;

pub use edits::{
    EditRefusal, add, allow, certify, change_key, disable, enable, is_krbtgt, keep_key, place_of,
    purge, remove,
};
pub use fault::{LineFault, TextFault};
pub use fields::{read_key, suite_named};
pub use further::marks_text;
pub use line::{AccountLine, Line, RealmLine, principal_name};
pub use order::{check_next, check_order, realm_among};
pub use patterns::Pattern;
pub use reading::{read_line, read_lines, read_name};
pub use showing::{line_text, salt_text, text_of};
pub use typed::can_be_typed;
