//! A realm (RFC 4120) that answers the requests of clients, clients by password or by certificate, and services.
//!
//! A [`Realm`] has a name, settings and accounts. [`Realm::answer`] gives the reply to a message at a moment, and
//! [`serve`] answers the frames of a stream. A [`Client`] asks and takes replies, and a [`Service`] admits each of its
//! requests once. What the parts are is in crates of their own, the realm in `krb_memory_realms`, which this one hands on under one name.
//!
//! A realm grants by password, and by certificate where its settings have an anchor and an own certificate (RFC 4556). Its
//! signatures and key agreements are the caller's [`KeyFunctions`]. A realm that grants by password alone takes [`NoKeys`].
//!
//! A client requests and takes replies as its means say, those of its password or of its certificate (`means_of`). A whole login is a
//! run of client, realm and service on every input, and the first refusal ends it (`LoginRun`). Every login has one outcome (law
//! `one_login`). An honest login ends with one session key at client and service, under the client's name (`IsOneKey`).
//! `is_honest_by_password` and `is_honest_by_certificate` answer true of exactly the honest logins. In an honest AS exchange by
//! certificate the client has a request, the realm grants it (law `agreement_granted`), and the client takes the reply's secret (law
//! `agreement_taken`). An honest login by certificate ends with one session key, or memory runs out (law `one_key_by_certificate`).
//! `IsHonestByCertificate` requires of the key functions that, in this login, each party accepts the other's certificate and
//! signature, and both come to one secret.
//! [`one_key_by_rsa`] is this law for the key functions of `rsa_keys`. Its premises speak of certificates, names and clocks, and of
//! right keys and public values that are made. That a party signs, that its signature verifies, and that both come to one secret, is no
//! premise there.
//!
//! Where no one signs but the holders of their keys, a client that the realm accepted by certificate asked by it, if the certificate's key
//! is one of the run's (law `certified_client_asked`). Where moreover no two accounts share a key, the client of each AS exchange itself
//! asked: by its certificate or by the key of its account, if that key is one of the run's (law `first_client_asked`). The premise on
//! signatures holds of requests that come to the realm as clients sent them (law `certified_is_signed`).
#![tactic(auto)]

mod certified_honesty;
mod certified_laws;
mod client;
mod client_means;
mod exchange;
mod honest;
mod honest_by_certificate;
pub mod laws;
mod login;
mod rsa_laws;
mod signature_laws;

pub use byte_streams::{Sink, SinkFault, Source};
pub use client::Client;
pub use honest::is_honest_by_password;
pub use honest_by_certificate::is_honest_by_certificate;
pub use krb_ap_requests::AdmitRefusal;
pub use krb_client::{ApAsked, AsAsked, AskRefusal, Credential, TakeRefusal, TgsAsked};
pub use krb_crypto::{ChecksumSuite, CipherSuite, Key};
pub use krb_frames::{AnswerRefusal, Responder, ServeFault, SoleResponder};
pub use krb_logins::{LoginInput, LoginMoments, LoginRefusal};
pub use krb_memory_realms::{Answering, Realm, Settings, serve, serve_bytes, words_needed};
pub use krb_messages::data_types::{EncryptionKey, PrincipalName, Ticket};
pub use krb_messages::{NameTextFault, PrincipalText, components_of_text, principal_of_text};
pub use krb_realm_accounts::RealmRefusal;
pub use krb_service::{Admission, Service};
pub use krb_time::Moment;
pub use login::{login_by_certificate, login_by_password};
pub use picky_asn1::date::GeneralizedTime;
pub use picky_asn1::wrapper::{GeneralStringAsn1, OctetStringAsn1};
pub use pkinit_validation::Anchor;
pub use rsa_laws::one_key_by_rsa;
pub use x509_keys::{KeyFunctions, NoKeys, SignatureAlgorithm, Signed, Theirs};
