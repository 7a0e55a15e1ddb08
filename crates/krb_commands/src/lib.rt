//! What the programs for administrators and users have in common: their arguments, why one of them stopped, files that are written
//! whole or not at all, and the configuration that a machine has in /etc/krb5.conf (MIT's form, which Heimdal shares).
//!
//! [`given_of`] takes options, their values and the other words apart. [`Stop`] is one line for standard error, which shows no secret, and
//! the status of the program. A request of a client takes its random octets of a [`RandomFile`], and its moment of [`moment_or_now`].
//!
//! [`begin`] makes a new file beside the one whose place it is to take, under a name of its own, and `NewFile::finish` puts it there once
//! it is on disk. So the path has the old file or the new one at each moment. The old file is locked meanwhile: another run waits for up to
//! ten seconds. It is replaced only where it is of its [`FileKind`] or empty, and none of the files that the command reads. [`octets_of`]
//! reads a file up to the limit of its kind, and [`lines_of`] a text of accounts, which [`whole_text`] writes. [`Printable`] and
//! [`PrintableName`] show what comes from files and peers.
//!
//! Each call is safe and returns. `limit` and `has_front` of `FileKind` are `limit_of` and `is_of_kind`. `Printable` and `PrintableName`
//! print `printable_text` and `printable_name`. `given_of` takes arguments apart, or refuses them in a text, both as `parts_of` says.
//! `Given` has the words and values of those parts. `principal_in` reads a name as `principal_of_text` does, and refuses only what isn't
//! one. A `Stop` has the text of `stop_text` and the status of `status_of`. No contract says what files, the program's arguments and
//! standard output hold. `default_realm_in` returns the realm that a text names by `default_realm` in its section `[libdefaults]`, as
//! `default_realm_in` of `specs/` says. It returns, and its only refusal is of memory.
//!
//! [`holder_in`], [`listed_file`], [`linked_path`] and [`folder_of`] have no contract. The crate `test_calls` tests them.
#![tactic(auto)]

mod arguments;
mod files;
mod kinds;
mod locks;
mod output;
mod places;
mod printable;
mod reading;
mod realms;
mod requests;
mod stop;
mod texts;

pub use arguments::{Given, arguments_of, given_of, is_word, principal_in};
pub use files::{NewFile, begin, begin_first, write_file};
pub use kinds::{ACCOUNTS_LIMIT, FileKind, KEYS_LIMIT, SMALL_LIMIT};
pub use locks::{holder_in, listed_file};
pub use output::{print_line, print_version};
pub use places::{folder_of, linked_path};
pub use printable::{Printable, PrintableName, printable_of};
pub use reading::{is_there, keytab_in, octets_of, read_input, unread};
pub use realms::default_realm_in;
pub use requests::{RandomFile, WORDS_TAKEN, moment_or_now};
pub use stop::{Stop, failed, refused, usage};
pub use texts::{account_among, lines_of, realm_of, stop_of, text_in, unnamed_realm, whole_text};
