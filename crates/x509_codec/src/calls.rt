//! The calls that a user makes.
ghost use Rattle.std.specs.Prelude.{◌≡◌, ◌↔◌, ℕ, None, length, IsOk, IfOk, IfErr, MatchResult};
ghost use Rattle.asn1_der.specs.Tree.{IsWhole, der};
ghost use Rattle.asn1_der.specs.Refusals.{refusal_of};
ghost use Rattle.asn1_codec.specs.Writing.{IsTooLong};
ghost use Rattle.x509_codec.specs.Answers.{ReadsSpelling, CountsSpelling};

use std::alloc::Global;
use x509_spelling::{Spelled, X509Fault};

/// The value of which the whole input is a spelling, with any count of deviations. Writing it gives the input back
/// exactly where the count is 0.
pub fn from_bytes<T: Spelled>(alloc: Global, bytes: &[u8]) -> Result<T, X509Fault>
    ensures value { ReadsSpelling T.spells bytes.now result }
    ensures rewriting { IfOk result (λ value. (n : ℕ) → T.spells value bytes.now n → (der (T.tree value) ≡ bytes.now) ↔ (n ≡ 0)) }
{
    let counted = T::read_counted(alloc, bytes)?;
    Ok(counted.into_value())
}

/// How many deviations are in the input, which is a spelling of a `T`.
pub fn deviations<T: Spelled>(alloc: Global, bytes: &[u8]) -> Result<usize, X509Fault>
    ensures { CountsSpelling T.spells bytes.now result }
{
    let counted = T::read_counted(alloc, bytes)?;
    Ok(counted.count)
}

/// Encodes a value as its strict spelling. If its type refuses no value, this fails only if memory runs out.
pub fn to_vec<T: Spelled>(alloc: Global, value: &T) -> Result<Vec<u8>, X509Fault>
    ensures bytes { IfOk result (λ bytes. bytes.items ≡ der (T.tree value.now)) }
    ensures strict { IfOk result (λ bytes. IsWhole (T.tree value.now) → T.spells value.now bytes.items 0) }
    ensures written { IsOk result → refusal_of T.refusal value.now ≡ None }
    ensures fault { refusal_of T.refusal value.now ≡ None → IfErr result (λ fault. fault ≡ X509Fault.Memory) }
{
    match picky_asn1_der::to_vec(alloc, value) {
        Ok(bytes) => Ok(bytes),
        Err(fault) => Err(X509Fault::from(fault)),
    }
}

/// The length of the strict spelling of a value. A length of 2^64 or more is returned as `Memory`.
pub fn encoded_len<T: Spelled>(value: &T) -> Result<usize, X509Fault>
    ensures value { refusal_of T.refusal value.now ≡ None → MatchResult result
        (λ count. count ≡ length (der (T.tree value.now)))
        (λ fault. (fault ≡ X509Fault.Memory) × IsTooLong (der (T.tree value.now))) }
    ensures written { IsOk result → refusal_of T.refusal value.now ≡ None }
{
    match value.encoded_len() {
        Ok(count) => Ok(count),
        Err(_) => Err(X509Fault::Memory),
    }
}
