//! The loop over the frames of a stream.
ghost use Rattle.std.specs.Prelude.{◌≡◌, ◌≢◌, ℕ, ◌++◌, List, Err};
ghost use Rattle.std.specs.Iterator.{IsFinite, DrainsIf};
ghost use Rattle.krb_frames.specs.Serving.{CountsReadFault, CountsWriteFault, Draws, IsFinal, IsServed, KeepsReadCounts, KeepsWriteCount, Left, MayLackAccounts, MayRefuse, Serves, at, device_bytes};

use crate::frame::{answer_frame, read_frame};
use crate::{Responder, ServeFault};
use byte_streams::{Sink, Source};
use krb_time::Moment;
use std::alloc::Global;

/// Answers each frame of `reader` in a frame of `writer`, to the end of the stream. It returns the
/// number of frames that were answered, or the greatest `u64` where that is less.
///
/// Each message takes the next moment and the next 128 random bytes of `words_reader`. A frame's faults
/// come in this order: the stream ends within it or it is too long, no moment is left, too few
/// random bytes are left, the message is no request or the accounts can't be read, the reply is too
/// long, the write fails. A fault leaves the replies before it written, and no part of the next but
/// where the write failed.
///
/// `reader` is read up to the end of the last frame, or of four bytes where a frame is too long.
/// `words_reader` isn't read for a frame that has no moment. A message is allocated once its length is
/// read and not too long. A reply is allocated once the moment and the random bytes are taken. A fault
/// that is found before needs no memory. A message that is no request stops serving with `NoRequest`,
/// unless the responder has a reply to it too ([`Tolerant`](crate::Tolerant)).
/// `Memory` may take its place only where the responder may need memory for it (`Responder::answer`).
/// Where the responder can't read its accounts, serving stops with `Accounts`.
///
/// A reply is written to `writer`, in one call where that takes all, before the next frame is read. A
/// writer with a buffer may delay it.
pub fn serve<A: Responder, R: Source, W: Sink, M: Iterator<Item = Moment> + Drop, K: Source>(
    alloc: Global,
    responder: &A,
    reader: &mut R,
    writer: &mut W,
    mut moments: M,
    words_reader: &mut K,
) -> Result<u64, ServeFault>
    requires can { M.can_next moments }
    requires ends { IsFinite (M.remaining moments) }

    ensures output { Serves (A.replies responder.now) (A.may_want_memory responder.now) (DrainsIf M.next_gives (result ≡ Err ServeFault.NoMoment) moments)
        (device_bytes (R.left reader.old) (K.left words_reader.old) (W.written writer.old))
        (device_bytes (R.left reader.new) (K.left words_reader.new) (W.written writer.new)) result }
    ensures read_failed { CountsReadFault result (R.failed reader.old) (R.failed reader.new) (K.failed words_reader.old) (K.failed words_reader.new) }
    ensures write_failed { CountsWriteFault result (W.failed writer.old) (W.failed writer.new) }
    ensures read_kept { KeepsReadCounts result (R.failed reader.old) (R.failed reader.new) (K.failed words_reader.old) (K.failed words_reader.new) }
    ensures write_kept { KeepsWriteCount result (W.failed writer.old) (W.failed writer.new) }
    ensures no_request { result ≡ Err ServeFault.NoRequest → MayRefuse (A.replies responder.now) }
    ensures accounts { result ≡ Err ServeFault.Accounts → MayLackAccounts (A.may_lack_accounts responder.now) }
{
    serve_frames(alloc, responder, reader, writer, &mut moments, words_reader)
}

// The loop over the frames. Each frame takes one of `moments`.
fn serve_frames<A: Responder, R: Source, W: Sink, M: Iterator<Item = Moment>, K: Source>(
    alloc: Global,
    responder: &A,
    reader: &mut R,
    writer: &mut W,
    moments: &mut M,
    words_reader: &mut K,
) -> Result<u64, ServeFault>
    requires can { M.can_next moments.old }
    requires ends { IsFinite (M.remaining moments.old) }
    ensures output { Serves (A.replies responder.now) (A.may_want_memory responder.now) (λ taken. Draws M.next_gives result moments.old taken moments.new)
        (device_bytes (R.left reader.old) (K.left words_reader.old) (W.written writer.old))
        (device_bytes (R.left reader.new) (K.left words_reader.new) (W.written writer.new)) result }
    ensures read_failed { CountsReadFault result (R.failed reader.old) (R.failed reader.new) (K.failed words_reader.old) (K.failed words_reader.new) }
    ensures write_failed { CountsWriteFault result (W.failed writer.old) (W.failed writer.new) }
    ensures read_kept { KeepsReadCounts result (R.failed reader.old) (R.failed reader.new) (K.failed words_reader.old) (K.failed words_reader.new) }
    ensures write_kept { KeepsWriteCount result (W.failed writer.old) (W.failed writer.new) }
    ensures no_request { result ≡ Err ServeFault.NoRequest → MayRefuse (A.replies responder.now) }
    ensures accounts { result ≡ Err ServeFault.Accounts → MayLackAccounts (A.may_lack_accounts responder.now) }
{
    let mut answered = 0u64;
    'frames: while let Some(message) = read_frame(alloc, reader)? {
        let Some(moment) = moments.next() else {
            return Err(ServeFault::NoMoment);
        };
        answer_frame(alloc, responder, &message, moment, words_reader, writer)?;
        answered = answered.saturating_add(1);
    }
    Ok(answered)
}

/// Answers each frame of a stream in memory, as [`serve`] does, with these moments and random bytes.
/// The replies' frames are appended to `replies`.
pub fn serve_bytes<A: Responder>(
    alloc: Global,
    responder: &A,
    stream: &[u8],
    moments: &[Moment],
    words: &[u8],
    replies: &mut Vec<u8>,
) -> Result<u64, ServeFault>
    ensures output { (written : List ℕ) × (left : Left) × (replies.new.items ≡ replies.old.items ++ written)
        × IsServed (A.replies responder.now) (A.may_want_memory responder.now) (at moments.now stream.now words.now) written result left }

    // Bytes in memory never fail.
    ensures devices { result ≢ Err ServeFault.Memory → result ≢ Err ServeFault.Accounts → IsFinal result }
    ensures accounts { result ≡ Err ServeFault.Accounts → MayLackAccounts (A.may_lack_accounts responder.now) }
{
    let mut reader = stream;
    let mut words_reader = words;
    serve(
        alloc,
        responder,
        &mut reader,
        replies,
        moments.iter().copied(),
        &mut words_reader,
    )
}
