//! The two parts: values in DER.
ghost use Rattle.std.specs.Prelude.{◌≡◌, ◌⊎◌, IfOk, IfErr, MatchResult};
ghost use Rattle.std.specs.declared.io.ErrorKind.{ErrorKind};
ghost use Rattle.asn1_der.specs.Tree.{der};
ghost use Rattle.asn1_codec.specs.Cuts.{TakesNext};
ghost use Rattle.asn1_der.specs.Refusals.{refusal_of};
ghost use Rattle.asn1_codec.specs.Reading.{IsNotNext, IsReadBy};
ghost use Rattle.microsoft_messages.specs.Reading.{der_kind, element_limit, IsExcuse, TellsRead};
ghost use Rattle.microsoft_messages.specs.Writing.{IsUnwritten, write_kind};

use asn1_codec::{FromDer, Serialize, from_reader, to_vec};
use asn1_der::Asn1DerError;
use byte_streams::Source;
use std::alloc::Global;
use std::io::ErrorKind;

// Returns the error of a fault of DER.
fn kind_of(fault: Asn1DerError) -> ErrorKind
    ensures { result ≡ der_kind fault }
{
    match fault {
        Asn1DerError::Memory => ErrorKind::OutOfMemory,
        Asn1DerError::Other(kind) => kind,
        _ => ErrorKind::InvalidData,
    }
}

// Reads a part of at most 10,240 bytes, and takes just these.
pub(crate) fn read_part<T: FromDer, R: Source>(
    alloc: Global,
    reader: &mut R,
) -> Result<T, ErrorKind>
    ensures taken { IfOk result (TakesNext T.reads element_limit (R.left reader.old) (R.left reader.new)) }
    ensures count { MatchResult result (λ _. R.failed reader.new ≡ R.failed reader.old)
        (TellsRead (R.left reader.new) (R.failed reader.old) (R.failed reader.new) (R.last_fault reader.new)) }
    ensures refused { IfErr result (λ e. IsExcuse (R.failed reader.old) (R.failed reader.new) (R.last_fault reader.new) e
        ⊎ ((e ≡ ErrorKind.InvalidData) × IsNotNext (IsReadBy T.reads) (R.left reader.old) element_limit)) }
    ensures same { R.through reader.new ≡ R.through reader.old }
{
    match from_reader::<T, R>(alloc, reader) {
        Ok(value) => Ok(value),
        Err(fault) => Err(kind_of(fault)),
    }
}

// Returns the error of a part that isn't written.
fn unwritten(fault: Asn1DerError) -> ErrorKind
    ensures { result ≡ write_kind fault }
{
    match fault {
        Asn1DerError::Memory => ErrorKind::OutOfMemory,
        _ => ErrorKind::InvalidInput,
    }
}

// Encodes a part; `InvalidInput` where its type refuses to write this value.
pub(crate) fn part_bytes<T: Serialize>(alloc: Global, value: &T) -> Result<Vec<u8>, ErrorKind>
    ensures { MatchResult result (λ bytes. bytes.items ≡ der (T.tree value.now)) (IsUnwritten (refusal_of T.refusal value.now)) }
{
    match to_vec(alloc, value) {
        Ok(bytes) => Ok(bytes),
        Err(fault) => Err(unwritten(fault)),
    }
}
