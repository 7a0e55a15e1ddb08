//! Kerberos messages (RFC 4120, sections 5.4 to 5.9), what they hold (sections 5.2 to 5.5), and how requests are refused.
//!
//! The names, fields and tags are the standard's; [`from_bytes`] reads a message that is all of its input, and
//! `picky_asn1_der::to_vec` writes one.
//!
//! Each type is read if and only if the bytes are its one encoding, and is written as that encoding (`ReadsWhole`).
//! `ResultExt::deserialize` reads a KRB-ERROR where the first octet is 0x7E, and else the message. `body_bytes` is the one encoding of a
//! request's body. `is_same_realm` and `is_same_name` compare by characters. `first_of` gives the first padata of a type. `components_of_text` and `principal_of_text` read a name in
//! text, or give the fault of the text (RFC 1964, section 2.1.1). A name of ASCII characters that was printed is read again (law
//! `printed_name_is_read`).
#![tactic(auto)]

ghost use Rattle.std.specs.Prelude.{◌≡◌};
ghost use Rattle.asn1_codec.specs.Reads.{ReadsWhole};

mod bodies;
pub mod data_types;
mod enc_krb_cred_part;
mod krb_cred;
mod krb_cred_info;
mod krb_result;
pub mod messages;
mod name_reading;
mod names;
mod numbers;
mod padata;
pub mod random_bytes;
mod refusal;
mod ticket_granting;

pub use bodies::body_bytes;
pub use enc_krb_cred_part::{EncKrbCredPart, EncKrbCredPartInner};
pub use krb_cred::{KrbCred, KrbCredInner};
pub use krb_cred_info::KrbCredInfo;
pub use krb_result::{KrbResult, ResultExt};
pub use name_reading::{
    NameTextFault, PrincipalText, components_of_text, principal_of_text, printed_name_is_read,
};
pub use names::{is_same_name, is_same_realm};
pub use numbers::is_number;
pub use padata::{first_in, first_of, padata_in};
use picky_asn1_der::{Asn1DerError, FromDer, from_exact_bytes};
pub use refusal::Refusal;
use std::alloc::Global;
pub use ticket_granting::{krbtgt, krbtgt_of};

/// Reads the message whose one spelling `input` is, with nothing behind it; or, of a type that says so, one of several.
pub fn from_bytes<T: FromDer>(alloc: Global, input: &[u8]) -> Result<T, Asn1DerError>
    ensures { ReadsWhole T.seen T.reads input.now result }
{
    from_exact_bytes(alloc, input)
}
