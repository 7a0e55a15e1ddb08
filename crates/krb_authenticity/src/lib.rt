//! Authenticity (RFC 4120, sections 1.6 and 10): what follows of a run in which no ciphertext was forged.
//!
//! A run is the realm's exchanges, the requests that clients sent, and the AP-REPs that services sent. The premise is on ciphertexts: what
//! a party of the run opens under one of some keys, a party made under that key, suite and key usage (`IsUnforged`). It holds of honest runs
//! (law `honest_is_unforged`). No law says what an attacker can compute.
//!
//! Where no ciphertext was forged, whom a service admits the realm had authenticated (laws `admitted_was_authenticated`,
//! `each_was_authenticated`). If the session key is one of the run's, the client itself made the request. Where moreover no two accounts
//! share a key, the ticket is for this service (`service_was_named`). If the account's key is one of the run's, the client of that name
//! asked for the first ticket by it (`client_was_named`). What a client takes as a reply the realm granted to a request with its nonce
//! (`first_reply_was_sent`, `further_reply_was_sent`). What it takes as an AP-REP a service sent that admitted a request of its session and
//! time (`service_replied`). Where no session key was granted for two services, it is the one of the ticket (`replying_service_was_asked`).
//! The steps are laws too: of tickets (`ticket_was_granted`, `grants_or_refuses`), of the first exchange (`client_was_authenticated`), of
//! further ones (`further_was_asked`) and of the request to a service (`client_asked`, `presented_was_authenticated`). What clients and
//! services of this stack write is what the premise speaks of (`ap_request_is_sent`, `answer_is_sent`).
#![tactic(auto)]

pub mod laws;
