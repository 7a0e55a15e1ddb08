//! What a realm and its clients validate in logins by certificate (RFC 4556, sections 3.2.2 and 3.2.4): which certificates and signatures a
//! party trusts, and the rows of the AS exchange's table for padata of the type PA-PK-AS-REQ, with the error code of each. And replies to
//! them (section 3.2.3.1): the signed public value of the realm's Diffie-Hellman agreement.
//!
//! A realm and its clients each have an [`Anchor`]: the name and the key of the one authority that they trust. [`check_trusted`] judges
//! signed content by it, for both of them. [`RealmPkinit`] judges requests.
//!
//! [`Anchor::from_certificate`] returns the subject and the key of the one certificate that the bytes spell. [`check_trusted`] passes
//! signed content exactly where its certificate is accepted for the expected principal (`accepted`), and the certificate's holder signed it
//! (`signed_by`). Of several reasons against it the first row of the table counts. What the anchor's key verifies of a certificate is a
//! part of the input's bytes, and never a new encoding (`IsCertificate`). [`RealmPkinit`] agrees with a client or refuses its request, row
//! by row, with any `KeyFunctions` (`pkinit_table`). Each request has an outcome (`has_pkinit`). The paChecksum is the SHA-1 digest of the
//! body's one encoding (`covers`). What the signatures of the content and of its certificate cover is in the padata's own bytes, however
//! the certificate is spelled (law `judged_is_part`). [`pk_as_rep`] returns the one encoding of a PA-PK-AS-REP with the realm's public
//! value and the authenticator's nonce, which the certificate's holder signs. Where there is none, it returns error 60. Signed data of a
//! content with a certificate's own bytes are one string of bytes (`one_written`). [`public_key_of`] returns the public key of which an
//! element is the one encoding, if there is one. [`request_fault`] tells which row of a PA-PK-AS-REQ ends with KDC_ERR_PREAUTH_FAILED,
//! where one does. A [`policies::PolicyPkinit`] is a [`RealmPkinit`] with a policy, or without. Without a policy its rows are those of the
//! realm alone (law `policies::laws::as_before`). With one it takes signed data and an AuthPack as stock clients send them, and makes the
//! reply key by a key derivation function that the client lists (`general_table`). Each such request has an outcome (`has_general`). What
//! is granted without a policy is granted with one (law `policies::laws::takes_no_less`).
#![tactic(auto)]

mod accepted;
mod anchor;
mod auth_packs;
mod certificates;
mod diagnosis;
mod expected;
mod fault;
mod fields;
mod judged;
mod judging;
pub mod laws;
mod parts;
pub mod policies;
mod principal_name;
mod principals;
mod public_key;
mod reading;
mod realm;
mod refusal;
mod reply;
mod signed;
mod signer;
mod signers;
mod table;
mod trusted;

pub use anchor::Anchor;
pub use diagnosis::request_fault;
pub use expected::ExpectedSigner;
pub use fault::PkAsReqFault;
pub use judged::JudgedContent;
pub use principal_name::Krb5PrincipalName;
pub use public_key::AgreementPublicKey;
pub use realm::RealmPkinit;
pub use refusal::{TrustFault, TrustRefusal};
pub use reply::{pk_as_rep, public_key_of};
pub use signers::check_signer;
pub use trusted::check_trusted;
