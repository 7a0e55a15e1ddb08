//! The first six bytes: two lengths, and the version between them.
ghost use Rattle.std.specs.Prelude.{◌≡◌, ℕ, ◌<◌, ◌≤◌, ◌⊎◌, List, length, IfOk, IfErr, IfSome, MatchResult};
ghost use Rattle.std.specs.Io.KnownBytes.{Consumes};
ghost use Rattle.std.specs.declared.io.ErrorKind.{ErrorKind};
ghost use Rattle.byte_streams.specs.Parts.{part, Stands};
ghost use Rattle.byte_streams.specs.Numbers.{be16};
ghost use Rattle.krb_constants.specs.declared.krb_priv.TheConstants.{PROTOCOL_VERSION};
ghost use Rattle.microsoft_messages.specs.Frames.{IsHeader};
ghost use Rattle.microsoft_messages.specs.Reading.{HasOtherVersion, IsHeaderRefusal, TellsRead};

use byte_streams::{Source, read_front, u16_be};
use krb_constants::krb_priv::PROTOCOL_VERSION;
use std::io::ErrorKind;

pub(crate) const HEADER_LEN: usize = 6;

// Judges that a header begins with these bytes; where they end inside it, `short` says why. The lengths aren't judged.
fn judge_header(bytes: &[u8], short: ErrorKind) -> Result<(), ErrorKind>
    ensures fine { IfOk result (λ _. Stands (part 2 (be16 PROTOCOL_VERSION)) bytes.now × (6 ≤ length bytes.now)) }
    ensures wrong { IfErr result (λ e. ((e ≡ ErrorKind.InvalidData) × HasOtherVersion bytes.now) ⊎ ((e ≡ short) × (length bytes.now < 6) × (HasOtherVersion bytes.now → ⊥))) }
{
    if bytes.len() < 4 {
        return Err(short);
    }
    if u16_be(bytes, 2) != PROTOCOL_VERSION {
        return Err(ErrorKind::InvalidData);
    }
    if bytes.len() < HEADER_LEN {
        return Err(short);
    }
    Ok(())
}

// Reads a header, and leaves what follows it. A wrong version that is there is refused before the fault of a device.
pub(crate) fn read_header<R: Source>(reader: &mut R) -> Result<(), ErrorKind>
    ensures found { IfOk result (λ _. (header : List ℕ) × IsHeader header × Consumes (R.left reader.old) (R.left reader.new) header) }
    ensures count { MatchResult result (λ _. R.failed reader.new ≡ R.failed reader.old)
        (TellsRead (R.left reader.new) (R.failed reader.old) (R.failed reader.new) (R.last_fault reader.new)) }
    ensures refused { IfErr result (λ e. IfSome (R.left reader.old) (λ bytes.
        IsHeaderRefusal bytes (R.left reader.new) (R.failed reader.old) (R.failed reader.new) (R.last_fault reader.new) e)) }
    ensures same { R.through reader.new ≡ R.through reader.old }
{
    let mut header = [0; HEADER_LEN];
    let front = read_front(reader, &mut header);
    let short = front.fault.unwrap_or(ErrorKind::UnexpectedEof);
    match judge_header(&header[..front.count], short) {
        Ok(()) => Ok(()),
        Err(kind) => Err(kind),
    }
}
