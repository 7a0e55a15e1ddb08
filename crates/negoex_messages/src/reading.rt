//! Headers read from a device.
ghost use Rattle.std.specs.Prelude.{◌≡◌, ℕ, ◌≤◌, List, length, IfOk, IfErr, IfSome, MatchOption, MatchResult};
ghost use Rattle.std.specs.Io.KnownBytes.{Consumes};
ghost use Rattle.negoex_messages.specs.Form.{Answers};
ghost use Rattle.negoex_messages.specs.Sources.{IsCutShort, IsRefusal, IsGiven, TellsRead};

use crate::{Laid, NegoexError};
use byte_streams::{Source, read_front};
use std::alloc::Global;
use std::io::ErrorKind;

// A header that ends too soon is refused by the device's fault, if it failed.
fn cut_short(kind: ErrorKind, fault: Option<ErrorKind>) -> ErrorKind
    ensures { MatchOption fault (result ≡ kind) (λ cause. IsCutShort cause kind result) }
{
    let Some(cause) = fault else {
        return kind;
    };
    match kind {
        ErrorKind::UnexpectedEof => cause,
        _ => kind,
    }
}

// Reads the value with this header, in this message.
fn value_of<T: Laid>(alloc: Global, header: &[u8], message: &[u8]) -> Result<T, NegoexError>
    requires { length header.now ≤ T.layout.width }
    ensures exact { Answers T.view (T.layout.read header.now message.now) result }
    ensures found { IfOk result (λ t. T.layout.IsLaid (T.view t) header.now message.now) }
{
    T::from_header(alloc, header, message)
}

// Reads a header of the buffer's size, and the payload from the message.
pub(crate) fn read_value<T: Laid, R: Source>(
    alloc: Global,
    from: &mut R,
    buffer: &mut [u8],
    message: &[u8],
) -> Result<T, NegoexError>
    requires { length buffer.old ≡ T.layout.width }
    ensures found { IfOk result (λ t. (header : List ℕ) × T.layout.IsLaid (T.view t) header message.now
        × Consumes (R.left from.old) (R.left from.new) header) }
    ensures only { IfSome (R.left from.old) (λ bytes.
        IsGiven T.view T.layout message.now bytes (R.left from.new) (R.failed from.old) (R.failed from.new) (R.last_fault from.new) result) }
    ensures count { MatchResult result (λ _. R.failed from.new ≡ R.failed from.old)
        (TellsRead T.layout message.now (R.left from.new) (R.failed from.old) (R.failed from.new) (R.last_fault from.new)) }
    ensures refused { IfErr result (λ e. IfSome (R.left from.old) (λ bytes.
        IsRefusal T.layout message.now bytes (R.left from.new) (R.failed from.old) (R.failed from.new) (R.last_fault from.new) e)) }
    ensures same { R.through from.new ≡ R.through from.old }
{
    let front = read_front(from, buffer);
    match value_of::<T>(alloc, &buffer[..front.count], message) {
        Ok(value) => Ok(value),
        Err(error) => Err(NegoexError {
            kind: cut_short(error.kind, front.fault),
        }),
    }
}
