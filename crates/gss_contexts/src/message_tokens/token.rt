//! Tokens as a header and the bytes after it.
ghost use Rattle.std.specs.Prelude.{◌≡◌, ℕ, List, ◌++◌, length, take, Ok, Err, IfOk, IfErr, IfSome, IsTrue, MatchResult};
ghost use Rattle.std.specs.Io.KnownBytes.{Consumes, IsAtEnd, Appends};
ghost use Rattle.std.specs.declared.io.ErrorKind.{ErrorKind};
ghost use Rattle.gss_contexts.specs.MessageTokenJudging.{judged};
ghost use Rattle.gss_contexts.specs.Faults.{IsWriteFault, IsRestFault};
ghost use Rattle.gss_contexts.specs.MessageTokenRefusals.{IsRefusal, TellsRead};

use crate::message_tokens::error::{GssApiMessageError, write_fault};
use crate::message_tokens::kind::{HEADER_LEN, TokenKind, judge};
use byte_streams::{Sink, Source, read_front, read_to_stop, write_whole};
use std::alloc::Global;
use std::io::ErrorKind;

// Reads a token's header. The first fault in the bytes is returned: a wrong id or filler. A device's fault is returned only
// after bytes in which nothing is wrong.
pub(crate) fn read_header<R: Source>(
    kind: TokenKind,
    reader: &mut R,
) -> Result<[u8; HEADER_LEN], GssApiMessageError>
    ensures size { IfOk result (λ header. length header ≡ 16) }
    ensures judged { IfOk result (λ header. judged kind ErrorKind.UnexpectedEof header ≡ Ok tt) }
    ensures bytes { IfOk result (λ header. Consumes (R.left reader.old) (R.left reader.new) header) }
    ensures count { MatchResult result (λ _. R.failed reader.new ≡ R.failed reader.old)
        (TellsRead kind (R.left reader.new) (R.failed reader.old) (R.failed reader.new) (R.last_fault reader.new)) }
    ensures refused { IfErr result (λ e. IfSome (R.left reader.old) (λ whole.
        IsRefusal kind whole (R.left reader.new) (R.failed reader.old) (R.failed reader.new) (R.last_fault reader.new) e)) }
    ensures same { R.through reader.new ≡ R.through reader.old }
{
    let mut header = [0; HEADER_LEN];
    let front = read_front(reader, &mut header);
    let short = front.fault.unwrap_or(ErrorKind::UnexpectedEof);
    match judge(kind, &header[..front.count], short) {
        Ok(()) => Ok(header),
        Err(fault) => Err(fault),
    }
}

// Reads the bytes after a token's header.
pub(crate) fn read_checksum<R: Source>(
    alloc: Global,
    reader: &mut R,
) -> Result<Vec<u8>, GssApiMessageError>
    ensures bytes { IfOk result (λ checksum. Consumes (R.left reader.old) (R.left reader.new) checksum.items) }
    ensures end { IfOk result (λ _. IsAtEnd (R.left reader.new)) }
    ensures count { MatchResult result (λ _. R.failed reader.new ≡ R.failed reader.old)
        (IsRestFault (R.left reader.old) (R.left reader.new) (R.failed reader.old) (R.failed reader.new) (R.last_fault reader.new)) }
    ensures same { R.through reader.new ≡ R.through reader.old }
{
    let Ok(came) = read_to_stop(alloc, reader) else {
        return Err(GssApiMessageError::Memory);
    };
    match came.fault {
        None => Ok(came.bytes),
        Some(kind) => Err(GssApiMessageError::IoError(kind)),
    }
}

// Joins a token's first 16 bytes and those after them.
#[derive(Drop)]
pub(crate) struct Token {
    pub(crate) header: [u8; HEADER_LEN],
    pub(crate) checksum: Vec<u8>,
}

// Reads to the end of `reader`, or up to what is wrong.
pub(crate) fn read_token<R: Source>(
    alloc: Global,
    kind: TokenKind,
    reader: &mut R,
) -> Result<Token, GssApiMessageError>
    ensures size { IfOk result (λ t. length t.header ≡ 16) }
    ensures judged { IfOk result (λ t. judged kind ErrorKind.UnexpectedEof t.header ≡ Ok tt) }
    ensures bytes { IfOk result (λ t. Consumes (R.left reader.old) (R.left reader.new) (t.header ++ t.checksum.items)) }
    ensures end { IfOk result (λ _. IsAtEnd (R.left reader.new)) }
    ensures count { MatchResult result (λ _. R.failed reader.new ≡ R.failed reader.old)
        (TellsRead kind (R.left reader.new) (R.failed reader.old) (R.failed reader.new) (R.last_fault reader.new)) }
    ensures refused { IfErr result (λ e. IfSome (R.left reader.old) (λ whole.
        IsRefusal kind whole (R.left reader.new) (R.failed reader.old) (R.failed reader.new) (R.last_fault reader.new) e)) }
    ensures same { R.through reader.new ≡ R.through reader.old }
{
    let header = read_header(kind, reader)?;
    let checksum = read_checksum(alloc, reader)?;
    Ok(Token { header, checksum })
}

fn write_part<W: Sink>(writer: &mut W, bytes: &[u8]) -> Result<(), GssApiMessageError>
    ensures written { MatchResult result (λ _. Appends (W.written writer.old) (W.written writer.new) bytes.now)
        (λ _. (n : ℕ) × Appends (W.written writer.old) (W.written writer.new) (take n bytes.now)) }
    ensures count { MatchResult result (λ _. W.failed writer.new ≡ W.failed writer.old)
        (IsWriteFault (W.failed writer.old) (W.failed writer.new) (W.last_fault writer.new)) }
    ensures memory { result ≡ Err GssApiMessageError.Memory → IsTrue W.grows }
    ensures same { W.through writer.new ≡ W.through writer.old }
{
    match write_whole(writer, bytes) {
        Ok(()) => Ok(()),
        Err(fault) => Err(write_fault(fault)),
    }
}

// Writes a header and the bytes after it. If the writer stops, a front of them is written.
pub(crate) fn write_token<W: Sink>(
    writer: &mut W,
    header: &[u8],
    checksum: &[u8],
) -> Result<(), GssApiMessageError>
    ensures written { MatchResult result (λ _. Appends (W.written writer.old) (W.written writer.new) (header.now ++ checksum.now))
        (λ _. (n : ℕ) × Appends (W.written writer.old) (W.written writer.new) (take n (header.now ++ checksum.now))) }
    ensures count { MatchResult result (λ _. W.failed writer.new ≡ W.failed writer.old)
        (IsWriteFault (W.failed writer.old) (W.failed writer.new) (W.last_fault writer.new)) }
    ensures memory { result ≡ Err GssApiMessageError.Memory → IsTrue W.grows }
    ensures same { W.through writer.new ≡ W.through writer.old }
{
    write_part(writer, header)?;
    write_part(writer, checksum)
}
