//! Reading a value from its strict spelling.
ghost use Rattle.std.specs.Prelude.{◌≡◌, IsTrue, MatchResult};
ghost use Rattle.asn1_codec.specs.Reading.{TookValue, IsSpelling, Refused};
ghost use Rattle.x509_spelling.specs.StrictReading.{IsNoStrict, der_fault_of};

use crate::fault::X509Fault;
use crate::spelled::Spelled;
use byte_streams::Source;
use picky_asn1_der::{Asn1DerError, Asn1RawDer, Deserialize, Deserializer};
use std::alloc::Global;

/// Takes the value whose strict spelling is next. Where anything deviates in what is next, no value is read.
///
/// A type's `deserialize` calls it: what is spelled in several ways elsewhere has its DER alone inside a message.
pub fn read_strict<T: Spelled, R: Source>(from: &mut Deserializer<R>) -> Result<T, Asn1DerError>
    requires { IsTrue T.has_low_tags }
    ensures { MatchResult result
        (λ value. TookValue T.tree value from.old from.new)
        (λ fault. Refused (IsSpelling T.tree) from.old from.new fault) }
{
    let raw = Asn1RawDer::deserialize(from)?;
    let alloc = from.allocator();
    match strict_value(alloc, raw.as_bytes()) {
        Ok(value) => Ok(value),
        Err(fault) => Err(from.refuse(fault)),
    }
}

// The value whose strict spelling the bytes are.
fn strict_value<T: Spelled>(alloc: Global, bytes: &[u8]) -> Result<T, Asn1DerError>
    ensures { MatchResult result
        (λ value. T.spells value bytes.now 0)
        (IsNoStrict T.spells bytes.now) }
{
    let counted = match T::read_counted(alloc, bytes) {
        Ok(counted) => counted,
        Err(fault) => return Err(der_fault(fault)),
    };
    if counted.count != 0 {
        return Err(Asn1DerError::InvalidData);
    }
    Ok(counted.into_value())
}

fn der_fault(fault: X509Fault) -> Asn1DerError
    ensures { result ≡ der_fault_of fault }
{
    match fault {
        X509Fault::Memory => Asn1DerError::Memory,
        _ => Asn1DerError::InvalidData,
    }
}
