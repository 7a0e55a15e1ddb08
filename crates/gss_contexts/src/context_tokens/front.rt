//! Values at the front of some bytes.
ghost use Rattle.std.specs.Prelude.{◌≡◌, true, MatchResult};
ghost use Rattle.asn1_der.specs.Tree.{Writes};
ghost use Rattle.asn1_codec.specs.Reading.{IsOwn};
ghost use Rattle.asn1_codec.specs.Reads.{BeginsBy};
ghost use Rattle.gss_contexts.specs.Fronts.{Leads, LeadsOptional, begins, IsMissing};

use picky_asn1_der::{Asn1DerError, Deserialize, Deserializer, FromDer};
use std::alloc::Global;

/// The value that begins the bytes, and the bytes after it.
pub(crate) fn split_value<T: FromDer>(
    alloc: Global,
    bytes: &[u8],
) -> Result<(T, &[u8]), Asn1DerError>
    ensures { MatchResult result
        (λ read. Leads T.reads read.0 bytes.now read.1.now)
        (λ fault. IsOwn fault × IsMissing (λ value. BeginsBy T.reads value bytes.now) fault) }
{
    let mut from = Deserializer::new_from_bytes(alloc, bytes);
    let read = T::read_from(&mut from);
    let rest = from.into_reader();
    match read {
        Ok(value) => Ok((value, rest)),
        Err(fault) => Err(fault),
    }
}

/// Whether the next octet begins a value.
fn is_next<T: Deserialize>(bytes: &[u8]) -> bool
    ensures { result ≡ begins T.firsts bytes.now }
{
    match bytes.first() {
        Some(first) => T::may_start(*first),
        None => false,
    }
}

/// The value that begins the bytes, if they begin with its first octet, and the bytes after it.
pub(crate) fn split_optional<T: Deserialize + Drop>(
    alloc: Global,
    bytes: &[u8],
) -> Result<(Option<T>, &[u8]), Asn1DerError>
    ensures { MatchResult result
        (λ read. LeadsOptional T.firsts (Writes T.tree) read.0 bytes.now read.1.now)
        (λ fault. IsOwn fault × (begins T.firsts bytes.now ≡ true) × IsMissing (λ value. BeginsBy (Writes T.tree) value bytes.now) fault) }
{
    if !is_next::<T>(bytes) {
        return Ok((None, bytes));
    }
    let (value, rest) = split_value::<T>(alloc, bytes)?;
    Ok((Some(value), rest))
}
