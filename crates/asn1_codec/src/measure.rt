//! Lengths of spellings, without writing them.
ghost use Rattle.std.specs.Prelude.{◌≡◌, ℕ, List, [], length, false, None, Some, MatchResult};
ghost use Rattle.asn1_der.specs.Tree.{der, ders};
ghost use Rattle.asn1_der.specs.Refusals.{refusal_of};
ghost use Rattle.asn1_codec.specs.Sinks.{as_too_long};
ghost use Rattle.asn1_codec.specs.Writing.{Measured, NotMeasured};

use crate::fields::WriteFields;
use crate::ser::{Serialize, Serializer};
use asn1_der::Asn1DerError;
use byte_streams::{Sink, SinkFault};

/// A sink that keeps nothing.
#[derive(Drop)]
pub(crate) struct Measure;

impl Sink for Measure {
    ghost written = { λ _. None };

    ghost failed = { λ _. 0 };

    ghost grows = { false };

    fn write_some(&mut self, bytes: &[u8]) -> Result<usize, SinkFault> {
        Ok(bytes.len())
    }

    fn failures(&self) -> u64 {
        0
    }
}

/// The length of a value's spelling. Where no number says it, memory is wanting.
pub(crate) fn len_of<T: Serialize>(value: &T) -> Result<usize, Asn1DerError>
    ensures { MatchResult result
        (Measured (refusal_of T.refusal value.now) (der (T.tree value.now)))
        (NotMeasured Asn1DerError.Memory (refusal_of T.refusal value.now) (der (T.tree value.now))) }
{
    let mut to = Serializer::new_to_measure();
    let count = value.serialize(&mut to);
    to.close();
    count
}

/// The length of the spellings of fields, one after another. Where no number says it, memory is wanting.
pub(crate) fn fields_len<F: WriteFields>(fields: &F) -> Result<usize, Asn1DerError>
    ensures { MatchResult result
        (Measured (F.refusal fields.now) (ders (F.trees fields.now)))
        (NotMeasured Asn1DerError.Memory (F.refusal fields.now) (ders (F.trees fields.now))) }
{
    let mut to = Serializer::new_to_measure();
    let count = fields.write(&mut to);
    to.close();
    count
}

/// The length of a value's spelling: 0 for what is written as nothing.
pub(crate) fn encoded_len<T: Serialize>(value: &T) -> Result<usize, Asn1DerError>
    ensures { MatchResult result
        (Measured (refusal_of T.refusal value.now) (der (T.tree value.now)))
        (NotMeasured Asn1DerError.UnsupportedValue (refusal_of T.refusal value.now) (der (T.tree value.now))) }
{
    match len_of(value) {
        Ok(count) => Ok(count),
        Err(fault) => Err(too_long(fault)),
    }
}

/// The fault for a value whose length is 2^64 or more: `UnsupportedValue` in place of `Memory`.
fn too_long(fault: Asn1DerError) -> Asn1DerError
    ensures { result ≡ as_too_long fault }
{
    match fault {
        Asn1DerError::Memory => Asn1DerError::UnsupportedValue,
        other => other,
    }
}
