//! AP requests as they are presented to a key, of a service or of the ticket-granting service (RFC 4120, section 3.2.3).
//!
//! `check_recipient`, `check_fields`, `check_ticket`, `check_times`, `check_presented` and `check_authenticator` each judge an AP-REQ by
//! the table that the contract names. The first case of the table that holds decides, unless memory runs out (`IsJudged`). `read_ap_req`
//! gives a request if and only if the bytes are its one encoding.
#![tactic(auto)]

mod judge;
mod messages;
mod presented;
mod refusal;

pub use judge::{
    check_authenticator, check_fields, check_presented, check_recipient, check_ticket, check_times,
    enc_part_in, kvno_fits, open_ticket, starttime_of,
};
pub use messages::read_ap_req;
pub use presented::{Authenticated, Presented};
pub use refusal::AdmitRefusal;
