//! Values that are under an explicit tag where they are spelled, and plainly in their struct.
ghost use Rattle.std.specs.Prelude.{◌≡◌};
ghost use Rattle.x509_keys.specs.Under.{under};

use picky_asn1::wrapper::{ExplicitContextTag, Optional};
use picky_asn1_der::Lent;

/// The value under the tag, to be written.
pub fn lent_under<'a, const N: u8, T>(
    value: &'a Option<T>,
) -> Optional<Option<ExplicitContextTag<N, Lent<'a, T>>>>
    ensures { result.0 ≡ under value.now }
{
    match value {
        Some(value) => Optional(Some(ExplicitContextTag(Lent::new(value)))),
        None => Optional(None),
    }
}

/// The value that was read under a tag.
pub fn plain<const N: u8, T>(field: Optional<Option<ExplicitContextTag<N, T>>>) -> Option<T>
    ensures { under result ≡ field.0 }
{
    match field.0 {
        Some(ExplicitContextTag(value)) => Some(value),
        None => None,
    }
}
