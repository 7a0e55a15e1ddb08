//! The AS and TGS exchanges of a realm (RFC 4120, sections 3.1, 3.3 and 5.4): reading requests, the decision tables of both exchanges
//! and the code of each row, and replies over whole messages.
//!
//! The modules `as_exchange` and `tgs_exchange` have the rows of one exchange each. Those that both share are in `requests`. The rows for
//! the presented ticket and its authenticator are in `krb_ap_requests`. `Pkinit` is the call by which a request by certificate is judged
//! (RFC 4556): how certificates, signatures and public values are judged is in crates above.
//!
//! `read_as_req` and `read_tgs_req` give a request if and only if the bytes are its one encoding. `check_header` and `lasting` judge the
//! version, type, realm, options and times of a request. `start_of` and `end_of` are a ticket's times. `open_encrypted_timestamp` opens
//! PA-ENC-TIMESTAMP if and only if it encrypts such data under the client's key, and has the etype of this key. The first row that holds
//! decides, unless memory runs out (`IsJudged`). `judge_as` gives the reply that `as_table` grants, or the code of the first row that
//! refuses, for each implementation of `Pkinit`. `Pkinit::judge` gives an outcome of its own table, which has one for each request
//! (`PkinitRows`). `judge_tgs` gives the reply that `tgs_table` grants, or the code of the first row that refuses. The checksum of a TGS
//! request covers the one encoding of the body. In a request with padata the body is a part of the request's own bytes (laws
//! `body_is_part`, `as_body_is_part`), and so is the first padata of a type in an AS request (law `padata_is_part`). `as_reply` and
//! `tgs_reply` give a reply that the table allows: a ticket, or a KRB-ERROR with its code. They also give its outcome: what is granted, or
//! the code (`IsOutcome`). A message has one reply at most, and a request has one (laws `one_reply`, `has_reply`). The reply depends on
//! the involved accounts alone (law `of_involved_alone`). Where a realm sets no policy, its tables are those without one (law
//! `as_before`). Accounts without attributes are judged as if there were none (law `plain_accounts_as_before`).
#![tactic(auto)]

mod allowed;
mod answer;
pub mod as_exchange;
mod call;
mod chosen;
mod encrypted_timestamp;
mod error;
mod granted;
mod kdc_error;
pub mod laws;
mod names;
pub mod option_bits;
mod options;
mod pkinit;
mod pkinit_call;
mod read;
mod renewals;
mod reply;
mod requests;
mod span;
pub mod tgs_exchange;
mod times;

pub use answer::{as_reply, tgs_reply};
pub use as_exchange::judge_as;
pub use call::Call;
pub use chosen::{ChosenKey, chosen_key};
pub use encrypted_timestamp::{moment_of, open_encrypted_timestamp};
pub use granted::{Granted, GrantedTicket};
pub use options::AskedOptions;
pub use pkinit::Pkinit;
pub use pkinit_call::{Agreed, PkinitCall};
pub use read::{read_as_req, read_tgs_req};
pub use reply::Reply;
pub use requests::{
    NamedPrincipals, account_of, check_header, client_of, lasting, named_in, service_of,
    session_key,
};
pub use span::Span;
pub use tgs_exchange::judge_tgs;
pub use times::{end_of, start_of};
