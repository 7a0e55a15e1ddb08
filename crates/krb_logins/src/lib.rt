//! Whole logins (RFC 4120, sections 3.1, 3.2, 3.3): what a login is, by whatever means the client authenticates itself, and what
//! holds of every honest one. And the AP exchange of a login, run over one client and one service.
//!
//! Each step of an honest login is granted and accepted (laws `first_granted`, `first_taken`, `further_granted`, `further_taken`,
//! `client_admitted`). The login ends with one session key on both sides, or with `Memory` (laws `one_key`, `one_key_by_password`). Each
//! login has one outcome (law `one_login`). The steps of an honest login may lie hours apart, while its tickets last: a login whose steps
//! all lie within one clock skew is a special case (law `near_is_timely`). One ticket may be used several times (laws `several_services`,
//! `several_uses`). A ticket may be asked for with options, and be renewed and forwarded (laws `first_held`, `next_held`,
//! `renewed_as_seen`). A login by any ticket-granting ticket that the client holds ends with one session key, and so does one over renewed
//! and forwarded tickets (laws `one_key_by_ticket`, `one_key_over_chain`). `is_honest` and `is_honest_by_key` answer true of exactly the
//! honest logins. [`ap_exchange`] ends as `ApExchange` says: with the client's session key and the service's admission, or with the refusal
//! of the step that refuses. What the service remembers after it is what it then has seen.
#![tactic(auto)]

mod granting;
mod honest;
mod input;
pub mod laws;
mod presenting;
mod refusal;

pub use granting::granting_service;
pub use honest::{is_honest, is_honest_by_key};
pub use input::{LoginInput, LoginMoments};
pub use presenting::ap_exchange;
pub use refusal::LoginRefusal;
