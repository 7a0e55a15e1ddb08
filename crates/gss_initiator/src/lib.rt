//! An initiator of the GSS-API (RFC 2743) for the mechanism Kerberos (RFC 4121), bare or in SPNEGO (RFC 4178), by a client's credential for
//! the service. DCE style isn't offered.
//!
//! `initiate` makes the one first token of what is chosen (`Initiates`, law `one_first_token`), or names the first refusal that there is.
//! `initiate_delegating` makes the one that also hands on a forwarded ticket under the session key (`InitiatesDelegating`).
//! `Pending::take` takes an answer if and only if it answers that token (`Takes`): an AP-REP with the authenticator's time, and of SPNEGO
//! an answer whose MIC is right where there is one, and is there where it is due. It consumes what waits, so that one answer is taken at
//! most. A refusal gives it back as it was.
#![tactic(auto)]

mod asking;
mod checksum;
mod context;
mod delegating;
mod heard;
mod initiated;
pub mod laws;
mod refusal;
mod reply;
mod request;
mod response;
mod take;

pub use asking::{delegation_refusal, initiate, initiate_delegating, refusal_of};
pub use checksum::{NO_BINDINGS, bindings_of};
pub use initiated::{Initiated, Pending, Progress, TokenForm};
pub use refusal::InitiateRefusal;
pub use take::{RefusedAnswer, Taken};
