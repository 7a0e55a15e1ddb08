//! Serving the frames of a stream at the moments of a clock, or at one moment.
ghost use Rattle.std.specs.Prelude.{◌≡◌, ◌≢◌, Err};
ghost use Rattle.krb_frames.specs.Serving.{MayLackAccounts, MayRefuse};
ghost use Rattle.krb_frames.specs.Tolerance.{Tolerates};
ghost use Rattle.krb_frames.specs.Devices.{AnswersFailures, IsOutputAt, IsOutputByClock, device, devices};

use crate::clock_moments::ClockMoments;
use crate::fault::ServeFault;
use crate::laws::goes_on;
use crate::responder::Responder;
use crate::stream::serve;
use crate::tolerant::Tolerant;
use byte_streams::{Sink, Source};
use krb_time::Moment;
use std::alloc::Global;
use std::iter;
use std::time::Clock;

/// Answers each frame of `reader` in a frame of `writer`, as [`serve`] does, each at the moment that the clock has then. A message that is no
/// request gets an empty reply, and serving goes on.
pub fn serve_by_clock<A: Responder, C: Clock, K: Source, R: Source, W: Sink>(
    alloc: Global,
    clock: &C,
    responder: &A,
    words_reader: &mut K,
    reader: &mut R,
    writer: &mut W,
) -> Result<u64, ServeFault>
    ensures output { IsOutputByClock (Tolerates (A.replies responder.now)) (A.may_want_memory responder.now)
        (devices (device (K.left words_reader.old) (K.failed words_reader.old)) (device (R.left reader.old) (R.failed reader.old)) (device (W.written writer.old) (W.failed writer.old)))
        (devices (device (K.left words_reader.new) (K.failed words_reader.new)) (device (R.left reader.new) (R.failed reader.new)) (device (W.written writer.new) (W.failed writer.new)))
        result }
    ensures failures { AnswersFailures
        (devices (device (K.left words_reader.old) (K.failed words_reader.old)) (device (R.left reader.old) (R.failed reader.old)) (device (W.written writer.old) (W.failed writer.old)))
        (devices (device (K.left words_reader.new) (K.failed words_reader.new)) (device (R.left reader.new) (R.failed reader.new)) (device (W.written writer.new) (W.failed writer.new)))
        result }
    ensures goes_on { result ≢ Err ServeFault.NoRequest }
    ensures accounts { result ≡ Err ServeFault.Accounts → MayLackAccounts (A.may_lack_accounts responder.now) }
{
    goes_on::<A>();
    let tolerant = Tolerant { responder };
    let moments = ClockMoments::new(clock);
    serve(alloc, &tolerant, reader, writer, moments, words_reader)
}

/// Answers each frame of `reader` in a frame of `writer`, as [`serve`] does, all at one moment: at most 2^64 - 1 of them.
pub fn serve_at<A: Responder, K: Source, R: Source, W: Sink>(
    alloc: Global,
    responder: &A,
    moment: Moment,
    words_reader: &mut K,
    reader: &mut R,
    writer: &mut W,
) -> Result<u64, ServeFault>
    ensures output { IsOutputAt (A.replies responder.now) (A.may_want_memory responder.now) moment
        (devices (device (K.left words_reader.old) (K.failed words_reader.old)) (device (R.left reader.old) (R.failed reader.old)) (device (W.written writer.old) (W.failed writer.old)))
        (devices (device (K.left words_reader.new) (K.failed words_reader.new)) (device (R.left reader.new) (R.failed reader.new)) (device (W.written writer.new) (W.failed writer.new)))
        result }
    ensures failures { AnswersFailures
        (devices (device (K.left words_reader.old) (K.failed words_reader.old)) (device (R.left reader.old) (R.failed reader.old)) (device (W.written writer.old) (W.failed writer.old)))
        (devices (device (K.left words_reader.new) (K.failed words_reader.new)) (device (R.left reader.new) (R.failed reader.new)) (device (W.written writer.new) (W.failed writer.new)))
        result }
    ensures no_request { result ≡ Err ServeFault.NoRequest → MayRefuse (A.replies responder.now) }
    ensures accounts { result ≡ Err ServeFault.Accounts → MayLackAccounts (A.may_lack_accounts responder.now) }
{
    let moments = iter::repeat_n(moment, usize::MAX);
    serve(alloc, responder, reader, writer, moments, words_reader)
}
