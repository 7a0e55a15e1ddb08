//! The log of a KDC: one line of text for each message.
//!
//!     2026-11-27T21:30:00.123456Z AS alice@EXAMPLE.ORG krbtgt/EXAMPLE.ORG@EXAMPLE.ORG ticket=18 reply=18 by=password micros=41
//!     2026-11-27T21:30:01.000017Z TGS alice@EXAMPLE.ORG host/a@EXAMPLE.ORG error=KRB_AP_ERR_TKT_EXPIRED by=ticket micros=12
//!     2026-11-27T21:30:01.000211Z AS bob@EXAMPLE.ORG krbtgt/EXAMPLE.ORG@EXAMPLE.ORG error=KDC_ERR_PREAUTH_FAILED by=pkinit reason="AuthPack: unknown field" micros=95
//!     2026-11-27T21:30:01.000305Z - - - no-request by=- micros=3
//!
//! A line has the time, the exchange, the client, the service, the answer, how the client authenticates itself, and how many microseconds
//! the answer took. The answer is the encryption types of the ticket and of the reply's part, or the error's name. Of a TGS request the
//! client is that of its ticket, where the ticket opens. Two error codes leave the reason open: the line has it.
//!
//! An [`Entry`] is made of what the KDC saw of the request and of its reply ([`Entry::of_seen`], `IsEntryOf`): neither is read once more.
//! Only a message without a reply is read for its entry. What is displayed of an entry is known (`entry_text`). Each name in it is printable
//! ASCII without a blank, two components are shown alike only if they are the same (`laws`), and a name that is too long is shown as
//! `(long)`. To find a reason an authenticator or a timestamp is decrypted once more. Nothing of a key is shown.
//!
//! [`noted_answer`] returns the answer of a file's realm with an entry that is of this message and this reply (`IsEntry`). [`Logged`] is a
//! responder that writes the line of that entry on standard error before it returns the reply, which no contract says. Its replies are those
//! of the realm.
#![tactic(auto)]

mod answer;
mod asked;
mod entry;
pub mod laws;
mod line;
mod logged;
mod name;
mod noted;
mod preauthentication;
mod presented;
mod reason;
mod seen_reason;
mod stamp;
mod watch;

pub use answer::Answer;
pub use asked::{Asked, Means, Names};
pub use entry::Entry;
pub use line::Line;
pub use logged::Logged;
pub use name::{LONG_NAME, NAME_ROOM};
pub use noted::{Noted, noted_answer};
pub use reason::Reason;
pub use stamp::Stamp;
