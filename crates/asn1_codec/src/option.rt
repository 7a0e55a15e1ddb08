//! A value that may be missing, where it is only written.
ghost use Rattle.std.specs.Prelude.{◌≡◌};

use crate::ser::{Serialize, Serializer};
use asn1_der::Asn1DerError;
use byte_streams::Sink;

/// A value is written as it stands, and `None` as nothing. It isn't read: a field that may be missing is an
/// [`Optional`](crate::optional::Optional).
impl<T: Serialize> Serialize for Option<T> {
    ghost use Rattle.asn1_codec.specs.Options.{option_tree, option_refusal};
    ghost use Rattle.asn1_codec.specs.OptionLaws.{option_tree-begins, option_tree-injective_as};
    ghost use Rattle.asn1_der.specs.Seen.{seen_option};

    ghost tree = { option_tree T.tree };

    ghost seen = { seen_option T.seen };

    ghost refusal = { option_refusal T.refusal };

    ghost firsts = { T.firsts };

    ghost begins = { option_tree-begins T.tree T.firsts T.begins };

    ghost injective = { option_tree-injective_as T.seen T.tree T.injective };

    fn serialize<W: Sink>(&self, to: &mut Serializer<W>) -> Result<usize, Asn1DerError> {
        match self {
            Some(value) => value.serialize(to),
            None => {
                to.ready()?;
                Ok(0)
            }
        }
    }
}
