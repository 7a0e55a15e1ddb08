//! Messages that are read in a way of their own, by the names of their types. What owns a value is generic, since a drop at a
//! message's own type is dear to prove.
use picky_asn1_der::{Asn1DerError, Deserializer, Serialize};
use picky_krb::data_types::{KrbResult, ResultExt};
use picky_krb::messages::{AsRep, KdcProxyMessage, KrbError};
use std::alloc::Global;
use test_support::{Answer, Recorded, Wanted, are_wanted, is_refused, is_written};

/// Whether such a message is read and written as expected; none for any other type.
pub fn agrees(alloc: Global, recorded: &Recorded<'_>) -> Option<Answer> {
    match recorded.type_name {
        "KdcProxyMessage, around" => Some(is_made(alloc, recorded)),
        "KdcProxyMessage, front" => Some(is_front(alloc, recorded)),
        "KrbResult<AsRep>" => Some(is_result(alloc, recorded)),
        _ => None,
    }
}

fn is_front(alloc: Global, recorded: &Recorded<'_>) -> Answer {
    let read = KdcProxyMessage::from_raw(alloc, &recorded.bytes);
    is_read(alloc, read, recorded)
}

/// Whether the message around the bytes is written as expected.
fn is_made(alloc: Global, recorded: &Recorded<'_>) -> Answer {
    let message = KdcProxyMessage::from_raw_kerb_message(alloc, &recorded.bytes)?;
    let written = message.to_vec(alloc)?;
    Ok(are_wanted(&written, recorded))
}

fn is_result(alloc: Global, recorded: &Recorded<'_>) -> Answer {
    let mut from = Deserializer::new_from_bytes(alloc, &recorded.bytes);
    let result: Result<KrbResult<AsRep>, Asn1DerError> = ResultExt::deserialize(&mut from);
    is_either(alloc, result, recorded)
}

/// Whether what was read, or its refusal, is expected, and it is written as expected.
fn is_read<T: Serialize + Drop, E: Drop>(
    alloc: Global,
    read: Result<T, E>,
    recorded: &Recorded<'_>,
) -> Answer {
    let Ok(value) = read else {
        return Ok(is_refused(recorded));
    };
    is_written(alloc, &value, recorded)
}

/// Whether a message that was read, or the error in its place, is written or printed as expected, or a refusal is expected.
fn is_either<T: Serialize + Drop, E: Printed + Drop>(
    alloc: Global,
    read: Result<Result<T, E>, Asn1DerError>,
    recorded: &Recorded<'_>,
) -> Answer {
    match read {
        Ok(Ok(message)) => is_written(alloc, &message, recorded),
        Ok(Err(error)) => is_printed(alloc, &error, recorded),
        Err(_) => Ok(is_refused(recorded)),
    }
}

/// A type of which a line may want the printed text.
trait Printed: Serialize {
    /// The text, or none if memory ran out.
    fn text(&self, alloc: Global) -> Option<String>;
}

impl Printed for KrbError {
    fn text(&self, alloc: Global) -> Option<String> {
        format!(in alloc; "{}", self.0).ok()
    }
}

/// Whether an error is written as it was read, and printed as the octets of the text that it is to hold.
fn is_printed<E: Printed>(alloc: Global, error: &E, recorded: &Recorded<'_>) -> Answer {
    let Wanted::Held(parts) = &recorded.wanted else {
        return is_written(alloc, error, recorded);
    };
    let Some(text) = error.text(alloc) else {
        return Err(Asn1DerError::Memory);
    };
    let [Some(octets)] = parts.as_slice() else {
        return Ok(false);
    };
    Ok(text.as_bytes() == octets.as_slice())
}
