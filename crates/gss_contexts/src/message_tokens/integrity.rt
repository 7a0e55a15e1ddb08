//! The record of a process's integrity level (MS-KILE, section 2.2.5).
ghost use Rattle.std.specs.Prelude.{◌≡◌, ℕ, List, take, Some, IfOk, IfSome, MatchResult};
ghost use Rattle.std.specs.Io.KnownBytes.{Consumes, Appends};
ghost use Rattle.byte_streams.specs.Counting.{one_more};
ghost use Rattle.byte_streams.specs.Stops.{IsWriteStop};

use byte_streams::{Sink, Source, array_at, put_at, read_full, u32_le, u32_le_bytes, write_bytes};
use std::io;
use std::io::ErrorKind;
use thiserror::Error;

/// The length of MachineID: 32 bytes (MS-KILE, section 2.2.5).
pub const MACHINE_ID_LENGTH: usize = 32;

const RECORD_LEN: usize = 40;

/// LSAP_TOKEN_INFO_INTEGRITY: the integrity level of the client's process (MS-KILE, section 2.2.5).
#[derive(Clone, Copy, Debug, PartialEq, Eq)]
pub struct LsapTokenInfoIntegrity {
    /// Flags: 0 is a full token, 1 a restricted one.
    pub flags: u32,
    /// TokenIL: the integrity level.
    pub token_il: u32,
    /// MachineID: the random identifier of the client's machine.
    pub machine_id: [u8; MACHINE_ID_LENGTH],
}

/// Why a record was not read or written.
#[derive(Clone, Copy, Debug, PartialEq, Eq, Error)]
#[error("the record of an integrity level cannot be read or written: {kind}")]
pub struct LsapTokenInfoIntegrityError {
    /// The device's fault, or `UnexpectedEof` where fewer than 40 bytes are left. A writer that takes no more is `WriteZero`.
    pub kind: ErrorKind,
}

impl From<LsapTokenInfoIntegrityError> for io::Error {
    ghost use Rattle.std.specs.IoError.{error_kind};

    ghost from_gives = { λ error fault. error_kind fault ≡ error.kind };

    fn from(error: LsapTokenInfoIntegrityError) -> io::Error {
        io::Error::from(error.kind)
    }
}

impl LsapTokenInfoIntegrity {
    ghost use Rattle.gss_contexts.specs.Integrity.{IsIntegrityRecord, FitsRecord, record_at, IsRecordStop};

    // Encodes the record in its 40 bytes.
    fn bytes(&self) -> [u8; RECORD_LEN]
        ensures { IsIntegrityRecord self.now result }
    {
        let mut bytes = [0; RECORD_LEN];
        put_at(&mut bytes, 0, &u32_le_bytes(self.flags));
        put_at(&mut bytes, 4, &u32_le_bytes(self.token_il));
        put_at(&mut bytes, 8, &self.machine_id);
        bytes
    }

    /// Writes the record; a front of it where the writer stops.
    pub fn encode<W: Sink>(&self, writer: &mut W) -> Result<(), LsapTokenInfoIntegrityError>
        ensures written { (whole : List ℕ) × IsIntegrityRecord self.now whole
            × MatchResult result (λ _. Appends (W.written writer.old) (W.written writer.new) whole)
            (λ _. (n : ℕ) × Appends (W.written writer.old) (W.written writer.new) (take n whole)) }
        ensures stop { MatchResult result (λ _. W.failed writer.new ≡ W.failed writer.old)
            (λ e. IsWriteStop (W.failed writer.old) (W.failed writer.new) (W.last_fault writer.new) e.kind) }
        ensures same { W.through writer.new ≡ W.through writer.old }
    {
        match write_bytes(writer, &self.bytes()) {
            Ok(()) => Ok(()),
            Err(kind) => Err(LsapTokenInfoIntegrityError { kind }),
        }
    }

    // Decodes the record from its 40 bytes.
    fn of_bytes(bytes: &[u8; RECORD_LEN]) -> LsapTokenInfoIntegrity
        ensures laid { IsIntegrityRecord result bytes.now }
        ensures read { result ≡ record_at bytes.now }
    {
        LsapTokenInfoIntegrity {
            flags: u32_le(bytes, 0),
            token_il: u32_le(bytes, 4),
            machine_id: array_at::<MACHINE_ID_LENGTH>(bytes, 8),
        }
    }

    /// Reads a record, and leaves what follows it. Any bytes are one.
    pub fn decode<R: Source>(
        reader: &mut R,
    ) -> Result<LsapTokenInfoIntegrity, LsapTokenInfoIntegrityError>
        ensures found { IfOk result (λ r. (whole : List ℕ) × IsIntegrityRecord r whole
            × Consumes (R.left reader.old) (R.left reader.new) whole) }
        ensures only { IfSome (R.left reader.old) (λ bytes. (r : LsapTokenInfoIntegrity) → FitsRecord r → IsIntegrityRecord r (take 40 bytes)
            → MatchResult result (λ read. read ≡ r)
            (λ e. (R.failed reader.new ≡ one_more (R.failed reader.old)) × (R.last_fault reader.new ≡ Some e.kind))) }
        ensures refused { MatchResult result (λ _. R.failed reader.new ≡ R.failed reader.old)
            (λ e. IsRecordStop (R.left reader.old) (R.left reader.new) (R.failed reader.old) (R.failed reader.new) (R.last_fault reader.new) e.kind) }
        ensures same { R.through reader.new ≡ R.through reader.old }
    {
        let mut bytes = [0; RECORD_LEN];
        let count = match read_full(reader, &mut bytes) {
            Ok(count) => count,
            Err(kind) => return Err(LsapTokenInfoIntegrityError { kind }),
        };
        if count < RECORD_LEN {
            return Err(LsapTokenInfoIntegrityError {
                kind: ErrorKind::UnexpectedEof,
            });
        }
        Ok(LsapTokenInfoIntegrity::of_bytes(&bytes))
    }
}
