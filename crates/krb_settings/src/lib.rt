//! Settings files: a realm and its accounts, written in TOML, and messages about them: what is wrong with one and where, and what is
//! likely a slip in it.
//!
//! ```toml
//! realm = "EXAMPLE.COM"
//! suite = "aes256-cts-hmac-sha1-96"
//! key = "8f..." # 64 hexadecimal digits
//! skew = 300
//! lifetime = 36000
//!
//! [[account]]
//! name = ["user"]
//! suite = "aes256-cts-hmac-sha1-96"
//! password = "correct horse battery staple"
//! ```
//!
//! [`read_settings_file`] gives what a file writes, or the first of its faults. [`explain`] gives the message of a fault: line, word, and
//! what was expected. [`warnings_of`] gives what is likely a slip. None of the messages shows a key or a password.
//!
//! `read_settings_file` gives the realm that the TOML text writes, or the first fault of the file (`IsRealmText`, `HasFault`). A file
//! writes at most one realm, and none if it has a fault other than `Memory` (laws `one_realm`, `no_realm_with_fault`). `suite_name` and
//! `Field::name` are the words that a file has for suites and fields. `warnings_of` gives the warnings whose tests hold of the realm, in
//! the order of the accounts, each in its words (`warnings`, `found_text`). A `Remark` is displayed as its line and its words
//! (`remark_text`). On which line a warning is, and what `explain` says of a fault, has no contract.
#![tactic(auto)]

mod account;
mod cases;
mod des3;
mod fault;
mod field;
mod file;
pub mod laws;
mod lines;
mod messages;
mod outline;
mod place;
mod realm;
mod remark;
mod rules;
mod scan;
mod settings;
mod table;
mod warning;
mod warnings;
mod words;

pub use account::ACCOUNT_FIELDS;
pub use fault::{SettingsFault, TableFault};
pub use field::Field;
pub use file::{SETTINGS_LIMIT, read_settings_file};
pub use messages::explain;
pub use place::Place;
pub use realm::REALM_FIELDS;
pub use remark::Remark;
pub use rules::{Rule, explain_rule};
pub use settings::{AccountSettings, RealmSettings, Secret};
pub use table::{is_among, suite_at, suite_name};
pub use warning::{Found, Warning};
pub use warnings::warnings_of;
