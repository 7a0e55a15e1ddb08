//! Logins by GSS (RFC 4121), over both ends: what an initiator and an acceptor are left with.
//!
//! An honest login ends with two ends of one context, or memory runs out (laws `one_context`, and by SPNEGO `one_negotiated_context`): one
//! key, opposite sides, and each takes the other's next number. What an honest login by password or certificate granted makes one by GSS
//! honest (laws `granted_is_honest`, `exchanged_is_honest`), and `is_honest` answers true of exactly these. What one end wraps the other
//! unwraps to the same message, and each MIC is right, as long as the numbers go up (law `one_conversation`).
//!
//! Where no ciphertext was forged, the realm had authenticated whoever gets a context (law `established_was_authenticated`). Both ends know
//! of each other without a premise of honesty. The acceptor's end is made of an admission for which the client itself asked (law
//! `context_was_asked`). That of an initiator that asked for mutual authentication is made by the AP-REP of a service that opened the ticket
//! and admitted a request of its session and time (law `end_was_answered`). What an end unwraps an end on the other side wrapped (law
//! `unwrapped_was_wrapped`). What an initiator sends is a request of the client, as the laws of `krb_authenticity` take it (law
//! `context_request_is_sent`). What an initiator delegates the acceptor hands out, as it was told (law `delegated_is_handed_out`).
#![tactic(auto)]

mod honest;
pub mod laws;

pub use honest::is_honest;
