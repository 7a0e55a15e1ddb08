//! A message, or the error in its place.
ghost use Rattle.std.specs.Prelude.{◌≡◌, Bool, true, false, IsTrue, MatchResult};
ghost use Rattle.asn1_der.specs.Tree.{Tree};
ghost use Rattle.krb_messages.specs.KrbResults.{result_tree, is_no_error};

use crate::messages::KrbError;
use byte_streams::Source;
use picky_asn1_der::{Alternatives, Asn1DerError, Choice, Deserialize, Deserializer, Last};

/// What a KDC or a service answers: a message, or a KRB-ERROR (RFC 4120, section 5.9.1).
pub type KrbResult<T> = Result<T, KrbError>;

/// A message, or the error in its place, that is read.
pub trait ResultExt<T: Deserialize>: Sized {
    ghost use Rattle.std.specs.Prelude.{Bool, IsTrue};
    ghost use Rattle.asn1_der.specs.Tree.{Tree};
    ghost use Rattle.asn1_codec.specs.Reading.{Reading, TookValue, IsSpelling, Refused};

    ghost tree: { Self → Tree };

    ghost is_told: { Bool };

    /// Reads the error where the next octet is 0x7E, and else the message, of which no value begins with that octet.
    fn deserialize<R: Source>(from: &mut Deserializer<R>) -> Result<Self, Asn1DerError>
        requires { IsTrue is_told }
        ensures { MatchResult result
            (λ value. TookValue tree value from.old from.new)
            (λ fault. Refused (IsSpelling tree) from.old from.new fault) };
}

impl<T: Deserialize> ResultExt<T> for Result<T, KrbError> {
    ghost tree = { result_tree T.tree };

    ghost is_told = { is_no_error T.firsts };

    fn deserialize<R: Source>(from: &mut Deserializer<R>) -> Result<Self, Asn1DerError> {
        let choice: Choice<KrbError, Last<T>> = Alternatives::read_one(from)?;
        Ok(match choice {
            Choice::This(error) => Err(error),
            Choice::Other(Last(message)) => Ok(message),
        })
    }
}
