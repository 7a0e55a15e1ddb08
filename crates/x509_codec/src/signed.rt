//! Values that bear a signature over their first field.
ghost use Rattle.std.specs.Prelude.{◌≡◌, ℕ, List, IfOk};
ghost use Rattle.x509_codec.specs.Answers.{ReadsSpelling};
ghost use Rattle.x509_codec.specs.SignedParts.{HoldsFirst, IsSignedPart, value_of};

use crate::calls::from_bytes;
use picky_asn1_der::split_element;
use std::alloc::Global;
use x509_spelling::{Spelled, X509Fault};

/// A SEQUENCE of what is signed, the algorithm that signed it, and the signature (RFC 5280, section 4.1; RFC 2986,
/// section 4.2).
pub trait Signed: Spelled {
    /// What is signed.
    type Part: Spelled;

    ghost part_of: { Self → Self.Part };

    /// What is signed.
    fn signed_part(&self) -> &Self::Part
        ensures { result.now ≡ part_of self.now };

    ghost holds_part: { (value : Self) (bytes : List ℕ) (n : ℕ) → Self.spells value bytes n
        → HoldsFirst Self.Part.spells (part_of value) bytes n };
}

/// The value of which the whole input is a spelling, with any count of deviations, and the bytes that its signature is
/// over, where they are in the input: a signer who deviated signed what it wrote. They are the strict spelling of the
/// signed part exactly where nothing deviates in them.
pub fn with_signed_part<T: Signed>(alloc: Global, bytes: &[u8]) -> Result<(T, &[u8]), X509Fault>
    ensures value { ReadsSpelling T.spells bytes.now (value_of result) }
    ensures part { IfOk result (λ read. IsSignedPart T.Part.spells T.Part.tree (T.part_of read.0) bytes.now read.1.now) }
{
    let value = from_bytes::<T>(alloc, bytes)?;
    let (whole, _) = split_element(bytes)?;
    let (part, _) = split_element(whole.content())?;
    Ok((value, part.whole()))
}
