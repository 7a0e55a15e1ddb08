//! Clients that authenticate by certificate (RFC 4556, sections 3.2.1 and 3.2.4): the data of the padata PA-PK-AS-REQ, and the
//! secret that a client takes from the data of PA-PK-AS-REP. Both are a client's means, `ByCertificate`.
//!
//! [`pk_as_req`] signs the body's checksum, the moment and the client's public value, around the certificate's own bytes
//! (`IsPkAsReqOf`). [`secret_of`] returns the secret of a reply to this request that the realm signed by a certificate under the
//! client's anchor, and else `NotTrusted` (`IsTakenAs`). As a client's means, [`ByCertificate`] gives this padata and the reply key of
//! this secret (`by_certificate`). What a client verifies of a reply is in the reply's own bytes (law `reply_verified_is_part`).
//! [`agility::AgileCertificate`] is a client with algorithm agility (RFC 8636). It lists CMS types and key derivation functions, takes
//! signed replies as KDCs send them, and makes the reply key by the function that the KDC chose (`by_agile_certificate`).
//! What it signs is an AuthPack that a realm with algorithm agility reads (law `agile_pack_is_extensible`).
#![tactic(auto)]

pub mod agility;
mod asked;
mod auth_pack;
mod encoding;
mod fault;
pub mod laws;
mod means;
mod reading;
mod reply;
mod request;
mod signed;
mod signer;

pub use asked::PkinitAsked;
pub use fault::ReplyFault;
pub use means::ByCertificate;
pub use reply::secret_of;
pub use request::pk_as_req;
