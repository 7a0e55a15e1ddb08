//! A realm in a file: a constant database that has an account's record under the block of each name, and one record of the realm. It is
//! opened anew for each message, so that a change of its accounts counts from the next message on.
//!
//! `specs/AccountRecords` and `specs/RealmRecords` have the layouts of the records, `specs/Files` what a file's octets say of a name and
//! of the realm. [`Opens`] is what gives the file: [`AtPath`] opens a file of the system by its path, and octets in memory are always the
//! same file. [`FileRealm`] is the responder of a frame loop over it. A request by certificate is answered by the certificate, the key and
//! the anchor of that file, as [`means_in`] reads them (RFC 4556).
//!
//! `AccountFile` is a `Lookup`: an account that it returns is what the file's octets say of its name. `realm_of` returns the realm that
//! they say. Of octets in memory both refuse as damaged only if the octets are, and a damaged record is never a missing one.
//! `write_accounts` returns only files whose octets say these accounts, no other account, and this realm. `write_records` does so of the
//! accounts' records. Each refusal of theirs has its reason in the realm, the accounts or their records, unless memory runs out: a name or
//! a realm that has no record, records of which one is too long or two neighbours clash, or 2^32 octets. `record_of_account` refuses only a
//! name that is none of a principal, and `record_of_realm` only a realm that has no record (`is_recorded`), unless memory runs out. Each
//! record is read as it was written (laws `account_as_written`, `realm_as_written`). The promises are of files whose octets stay as they
//! are while they are open. Each reply of a `FileRealm` is that of the realm of one opened file, with all accounts of that file, where its
//! octets are known (`RepliesFrom`). So a file that is replaced while a message is answered gives no mixture of two realms. Where they
//! aren't known, it is that of some realm with some accounts (`IsRealmReply`). A message is refused as `Unreadable` only if it is no
//! request, and as `Accounts` only if the file may not be opened or read, or is damaged for that message (`IsDamagedFor`). It is so at the
//! realm's record, at an account that the message involves, and, if it asks by certificate, at what such logins are answered by.
//! `answer_from` tells a failed read (`Failed`) from damage (`Damaged`). `means_in` refuses a key that is too weak, and one that isn't the
//! certificate's. Where the realm's policy has algorithm agility, requests by certificate are judged by [`pkinit_validation::policies`],
//! and else as before (law `certificates_as_before`). The fault is given to [`FaultReporter`] before the refusal is returned, which no
//! contract says. What an observer sees is of the message, of its reply and of the opened file (`IsToldFrom`).
#![tactic(auto)]

mod account_file;
mod account_record;
mod answer;
mod fault;
mod file_pkinit;
mod format;
mod further_fields;
pub mod laws;
mod means;
mod opens;
mod pkinit_fault;
mod realm;
mod realm_fault;
mod realm_parameters;
mod realm_record;
mod realm_source;
mod refused_pkinit;
mod writing;

pub use account_file::{AccountFile, realm_of};
pub use account_record::{account_bytes, read_account};
pub use answer::answer_from;
pub use fault::RecordFault;
pub use format::{ACCOUNT_HEAD, PKINIT_ROOM, REALM_HEAD, REALM_KEY, RECORD_ROOM, RECORD_VERSION};
pub use means::{PkinitMeans, PkinitParts, means_in, means_of};
pub use opens::{AtPath, Opens};
pub use pkinit_fault::PkinitFault;
pub use realm::{FileRealm, find_realm};
pub use realm_fault::{FaultReporter, FileFault, Silent};
pub use realm_parameters::RealmParameters;
pub use realm_record::{has_number, is_pkinit, read_realm, realm_bytes};
pub use refused_pkinit::RefusedPkinit;
pub use writing::{
    NamedAccount, record_of_account, record_of_realm, write_accounts, write_records,
};
