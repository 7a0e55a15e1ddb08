//! Reads one frame, answers its message and writes the reply's frame.
ghost use Rattle.std.specs.Prelude.{◌≡◌, ℕ, ◌<◌, ◌≤◌, List, length, take, drop, Some, None, IfOk, IfErr, MatchOption, MatchResult};
ghost use Rattle.std.specs.Io.KnownBytes.{Appends};
ghost use Rattle.krb_frames.specs.Frames.{front_of, framed, frame_limit, words_needed};
ghost use Rattle.krb_frames.specs.Frames.Front.{Ended, Whole};
ghost use Rattle.krb_frames.specs.Serving.{IsReply, WhereKnown};
ghost use Rattle.krb_frames.specs.Steps.{IsFilled, IsTaken, IsBroken, IsMessageFault, IsMessageStop, IsWordsFault, IsWordsStop, IsAnswerFault, IsReplyWritten, IsFrontFault, IsReadFault, IsRefusal, IsStepFault, IsWrittenPart, after_read_fault, after_write_fault};

use crate::{AnswerRefusal, Responder, ServeFault};
use byte_streams::{Sink, Source, WholeFault, read_full, write_whole};
use byteorder::{BigEndian, ByteOrder};
use krb_time::Moment;
use std::alloc::{AllocError, Global};

/// The number of random bytes with which a message is answered.
pub const WORDS_NEEDED: usize = 128;

/// The most bytes of a message or a reply.
pub const FRAME_LIMIT: usize = 65_536;

// Fills `buffer`, and returns the number of bytes that were read. It is less than the buffer's length at the end of the stream
// alone.
fn fill<R: Source>(reader: &mut R, buffer: &mut [u8]) -> Result<usize, ServeFault>
    ensures bound { IfOk result (λ n. n ≤ length buffer.new) }
    ensures front { WhereKnown (R.left reader.old) (λ stream. MatchResult result (λ n. IsFilled stream (R.left reader.new) buffer.new n)
        (λ _. IsBroken stream (R.left reader.new) (length buffer.new))) }
    ensures faults { IfErr result (λ fault. fault ≡ ServeFault.Read) }
    ensures count { MatchResult result (λ _. R.failed reader.new ≡ R.failed reader.old)
        (λ fault. R.failed reader.new ≡ after_read_fault (R.failed reader.old) fault) }
{
    match read_full(reader, buffer) {
        Ok(count) => Ok(count),
        Err(_) => Err(ServeFault::Read),
    }
}

// Reads a message of `size` bytes.
fn read_message<R: Source>(
    alloc: Global,
    reader: &mut R,
    size: usize,
) -> Result<Vec<u8>, ServeFault>
    ensures front { WhereKnown (R.left reader.old) (λ stream. MatchResult result
        (λ message. IsTaken stream (R.left reader.new) message.items) (IsMessageStop stream (R.left reader.new) size)) }
    ensures size { IfOk result (λ message. length message.items ≡ size) }
    ensures faults { IfErr result IsMessageFault }
    ensures count { MatchResult result (λ _. R.failed reader.new ≡ R.failed reader.old)
        (λ fault. R.failed reader.new ≡ after_read_fault (R.failed reader.old) fault) }
{
    let mut message = vec![in alloc; 0u8; size].map_err(|_| ServeFault::Memory)?;
    let count = fill(reader, &mut message)?;
    if count < size {
        return Err(ServeFault::Truncated);
    }
    Ok(message)
}

/// Reads the next frame: its message, or none at the end of the stream. The faults are `Truncated`, `FrameTooLong`, `Read` and `Memory`.
pub fn read_frame<R: Source>(alloc: Global, reader: &mut R) -> Result<Option<Vec<u8>>, ServeFault>
    ensures front { WhereKnown (R.left reader.old) (λ stream. MatchResult result
        (λ read. MatchOption read ((front_of stream ≡ Ended) × (R.left reader.new ≡ Some stream))
        (λ message. (rest : List ℕ) × (R.left reader.new ≡ Some rest) × (front_of stream ≡ Whole message.items rest)))
        (IsFrontFault stream (R.left reader.new))) }
    ensures faults { IfErr result IsReadFault }
    ensures count { MatchResult result (λ _. R.failed reader.new ≡ R.failed reader.old)
        (λ fault. R.failed reader.new ≡ after_read_fault (R.failed reader.old) fault) }
{
    let mut prefix = [0u8; 4];
    let prefix_count = fill(reader, &mut prefix)?;
    if prefix_count == 0 {
        return Ok(None);
    }
    if prefix_count < prefix.len() {
        return Err(ServeFault::Truncated);
    }
    let size = BigEndian::read_u32(&prefix) as usize;
    if size > FRAME_LIMIT {
        return Err(ServeFault::FrameTooLong);
    }
    let message = read_message(alloc, reader, size)?;
    Ok(Some(message))
}

// Reads the 128 random bytes of one message.
fn read_words<K: Source>(words_reader: &mut K) -> Result<[u8; WORDS_NEEDED], ServeFault>
    ensures front { WhereKnown (K.left words_reader.old) (λ words. MatchResult result
        (λ taken. (taken ≡ take words_needed words) × (words_needed ≤ length words) × (K.left words_reader.new ≡ Some (drop words_needed words)))
        (IsWordsStop words (K.left words_reader.new))) }
    ensures size { IfOk result (λ taken. length taken ≡ words_needed) }
    ensures faults { IfErr result IsWordsFault }
    ensures count { MatchResult result (λ _. K.failed words_reader.new ≡ K.failed words_reader.old)
        (λ fault. K.failed words_reader.new ≡ after_read_fault (K.failed words_reader.old) fault) }
{
    let mut words = [0u8; WORDS_NEEDED];
    let count = fill(words_reader, &mut words)?;
    if count < words.len() {
        return Err(ServeFault::NoWords);
    }
    Ok(words)
}

// Makes the frame of a reply: its length in four octets, and its bytes.
fn frame_of(alloc: Global, reply: &[u8]) -> Result<Vec<u8>, AllocError>
    requires { length reply.now ≤ frame_limit }
    ensures { IfOk result (λ frame. frame.items ≡ framed reply.now) }
{
    let mut prefix = [0u8; 4];
    BigEndian::write_u32(&mut prefix, reply.len() as u32);
    let mut frame = Vec::with_capacity(alloc, 4 + reply.len())?;
    frame.extend_from_slice(&prefix)?;
    frame.extend_from_slice(reply)?;
    Ok(frame)
}

/// Writes the frame of a message, in one call where the writer takes all. The faults are `Write` and `Memory`.
pub fn write_frame<W: Sink>(alloc: Global, writer: &mut W, reply: &[u8]) -> Result<(), ServeFault>
    requires { length reply.now ≤ frame_limit }
    ensures written { MatchResult result (λ _. Appends (W.written writer.old) (W.written writer.new) (framed reply.now))
        (IsWrittenPart (framed reply.now) (W.written writer.old) (W.written writer.new)) }
    ensures count { MatchResult result (λ _. W.failed writer.new ≡ W.failed writer.old)
        (λ fault. W.failed writer.new ≡ after_write_fault (W.failed writer.old) fault) }
{
    let Ok(frame) = frame_of(alloc, reply) else {
        return Err(ServeFault::Memory);
    };
    match write_whole(writer, &frame) {
        Ok(()) => Ok(()),
        Err(WholeFault::Full | WholeFault::Failed(_)) => Err(ServeFault::Write),
        Err(WholeFault::Memory) => Err(ServeFault::Memory),
    }
}

// Answers one message with the next 128 random bytes, and writes the reply in one frame.
pub(crate) fn answer_frame<A: Responder, K: Source, W: Sink>(
    alloc: Global,
    responder: &A,
    message: &[u8],
    moment: Moment,
    words_reader: &mut K,
    writer: &mut W,
) -> Result<(), ServeFault>
    ensures step { WhereKnown (K.left words_reader.old) (λ words. MatchResult result
        (λ _. IsReplyWritten (A.replies responder.now) message.now moment words (W.written writer.old) (W.written writer.new) (K.left words_reader.new))
        (IsStepFault (A.replies responder.now) (A.may_want_memory responder.now) message.now moment words (W.written writer.old) (W.written writer.new) (K.left words_reader.new))) }
    ensures faults { IfErr result IsAnswerFault }
    ensures refusals { IfErr result (IsRefusal (A.replies responder.now) (A.may_lack_accounts responder.now message.now)) }
    ensures read_count { MatchResult result (λ _. K.failed words_reader.new ≡ K.failed words_reader.old)
        (λ fault. K.failed words_reader.new ≡ after_read_fault (K.failed words_reader.old) fault) }
    ensures write_count { MatchResult result (λ _. W.failed writer.new ≡ W.failed writer.old)
        (λ fault. W.failed writer.new ≡ after_write_fault (W.failed writer.old) fault) }
{
    let words = read_words(words_reader)?;
    let reply = match responder.answer(alloc, message, moment, &words) {
        Ok(reply) => reply,
        Err(AnswerRefusal::Unreadable) => return Err(ServeFault::NoRequest),
        Err(AnswerRefusal::Memory) => return Err(ServeFault::Memory),
        Err(AnswerRefusal::Accounts) => return Err(ServeFault::Accounts),
    };
    if reply.len() > FRAME_LIMIT {
        return Err(ServeFault::ReplyTooLong);
    }
    write_frame(alloc, writer, &reply)
}
