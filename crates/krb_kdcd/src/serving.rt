//! Serving the realm of a file.
ghost use Rattle.std.specs.Prelude.{◌≡◌, ◌≢◌, Err};
ghost use Rattle.krb_frames.specs.Devices.{AnswersFailures, IsOutputAt, IsOutputByClock, device, devices};
ghost use Rattle.krb_frames.specs.Serving.{MayLackAccounts};
ghost use Rattle.krb_frames.specs.Tolerance.{Tolerates};
ghost use Rattle.krb_kdc.specs.Begins.{BeginsRequest};
ghost use Rattle.krb_realm_files.specs.Replies.{MayLack, RepliesFrom};

use byte_streams::{Sink, Source};
use krb_frames::{ServeFault, Tolerant, goes_on, serve_at, serve_by_clock};
use krb_log::Logged;
use krb_realm_files::{FaultReporter, FileRealm, Opens};
use krb_time::Moment;
use std::alloc::Global;
use std::time::Clock;

/// Answers each frame of `reader` in a frame of `writer` for the realm of a file, which is opened anew for each message, as the clock is read
/// for each. A message that is no request gets an empty reply, and serving goes on. Each message may have a line on standard error.
pub(crate) fn serve_realm<
    O: Opens,
    T: FaultReporter,
    C: Clock + Eprint,
    K: Source,
    R: Source,
    W: Sink,
>(
    alloc: Global,
    rt: &C,
    realm: &FileRealm<'_, O, T>,
    is_logged: bool,
    words_reader: &mut K,
    reader: &mut R,
    writer: &mut W,
) -> Result<u64, ServeFault>
    ensures output { IsOutputByClock (Tolerates (RepliesFrom (O.opens realm.now.accounts.now) O.File.content)) BeginsRequest
        (devices (device (K.left words_reader.old) (K.failed words_reader.old)) (device (R.left reader.old) (R.failed reader.old)) (device (W.written writer.old) (W.failed writer.old)))
        (devices (device (K.left words_reader.new) (K.failed words_reader.new)) (device (R.left reader.new) (R.failed reader.new)) (device (W.written writer.new) (W.failed writer.new)))
        result }
    ensures failures { AnswersFailures
        (devices (device (K.left words_reader.old) (K.failed words_reader.old)) (device (R.left reader.old) (R.failed reader.old)) (device (W.written writer.old) (W.failed writer.old)))
        (devices (device (K.left words_reader.new) (K.failed words_reader.new)) (device (R.left reader.new) (R.failed reader.new)) (device (W.written writer.new) (W.failed writer.new)))
        result }
    ensures goes_on { result ≢ Err ServeFault.NoRequest }
    ensures accounts { result ≡ Err ServeFault.Accounts
        → MayLackAccounts (MayLack (O.opens realm.now.accounts.now) (O.fails realm.now.accounts.now) O.File.content O.File.fails) }
{
    if is_logged {
        let logged = Logged {
            accounts: realm.accounts,
            faults: realm.faults,
            rt,
        };
        return serve_by_clock(alloc, rt, &logged, words_reader, reader, writer);
    }
    serve_by_clock(alloc, rt, realm, words_reader, reader, writer)
}

/// Does the same with each message at one moment, for tests. The clock says only how long an answer took.
pub(crate) fn serve_realm_at<
    O: Opens,
    T: FaultReporter,
    C: Clock + Eprint,
    K: Source,
    R: Source,
    W: Sink,
>(
    alloc: Global,
    rt: &C,
    realm: &FileRealm<'_, O, T>,
    is_logged: bool,
    moment: Moment,
    words_reader: &mut K,
    reader: &mut R,
    writer: &mut W,
) -> Result<u64, ServeFault>
    ensures output { IsOutputAt (Tolerates (RepliesFrom (O.opens realm.now.accounts.now) O.File.content)) BeginsRequest moment
        (devices (device (K.left words_reader.old) (K.failed words_reader.old)) (device (R.left reader.old) (R.failed reader.old)) (device (W.written writer.old) (W.failed writer.old)))
        (devices (device (K.left words_reader.new) (K.failed words_reader.new)) (device (R.left reader.new) (R.failed reader.new)) (device (W.written writer.new) (W.failed writer.new)))
        result }
    ensures failures { AnswersFailures
        (devices (device (K.left words_reader.old) (K.failed words_reader.old)) (device (R.left reader.old) (R.failed reader.old)) (device (W.written writer.old) (W.failed writer.old)))
        (devices (device (K.left words_reader.new) (K.failed words_reader.new)) (device (R.left reader.new) (R.failed reader.new)) (device (W.written writer.new) (W.failed writer.new)))
        result }
    ensures goes_on { result ≢ Err ServeFault.NoRequest }
    ensures accounts { result ≡ Err ServeFault.Accounts
        → MayLackAccounts (MayLack (O.opens realm.now.accounts.now) (O.fails realm.now.accounts.now) O.File.content O.File.fails) }
{
    if is_logged {
        goes_on::<Logged<'_, O, T, C>>();
        let logged = Logged {
            accounts: realm.accounts,
            faults: realm.faults,
            rt,
        };
        let tolerant = Tolerant { responder: &logged };
        return serve_at(alloc, &tolerant, moment, words_reader, reader, writer);
    }
    goes_on::<FileRealm<'_, O, T>>();
    let tolerant = Tolerant { responder: realm };
    serve_at(alloc, &tolerant, moment, words_reader, reader, writer)
}
