//! A realm as the responder of a frame loop.
ghost use Rattle.std.specs.Prelude.{◌≡◌, ◌≢◌, ℕ, ◌++◌, List, Err};
ghost use Rattle.std.specs.Iterator.{IsFinite, DrainsIf};
ghost use Rattle.krb_frames.specs.Serving.{CountsReadFault, CountsWriteFault, IsFinal, IsServed, KeepsReadCounts, KeepsWriteCount, Left, Serves, at, device_bytes};
ghost use Rattle.krb_kdc.specs.Begins.{BeginsRequest};
ghost use Rattle.krb_memory_realms.specs.Answers.{RealmReplies};

use crate::realm::Realm;
use byte_streams::{Sink, Source};
use krb_frames::{AnswerRefusal, Responder, ServeFault, SoleResponder};
use krb_time::Moment;
use std::alloc::Global;
use x509_keys::KeyFunctions;

/// A realm with the key functions that it answers by: the responder of a frame loop.
#[derive(Clone, Copy)]
pub struct Answering<'a, K: KeyFunctions> {
    /// The realm.
    pub realm: &'a Realm,
    /// Its key functions.
    pub keys: &'a K,
}

impl<'a, K: KeyFunctions> Responder for Answering<'a, K> {
    ghost use Rattle.krb_kdc.specs.Begins.{BeginsRequest};
    ghost use Rattle.krb_memory_realms.specs.Answers.{RealmReplies};

    ghost replies = { λ own message moment words reply. RealmReplies own.realm.now (K.functions own.keys.now) message moment words reply };

    ghost may_want_memory = { λ _ message. BeginsRequest message };

    ghost may_lack_accounts = { λ _ _. ⊥ };

    fn answer(
        &self,
        alloc: Global,
        message: &[u8],
        moment: Moment,
        words: &[u8],
    ) -> Result<Vec<u8>, AnswerRefusal> {
        self.realm.answer(alloc, message, moment, words, self.keys)
    }
}

impl<'a, K: KeyFunctions> SoleResponder for Answering<'a, K> {
    ghost use Rattle.krb_memory_realms.specs.Realm.{call_to};
    ghost use Rattle.krb_kdc_exchanges.specs.Replies.{one_reply};
    ghost use Rattle.pkinit_validation.specs.PkinitRows.{pkinit_rows};

    ghost one_reply = { λ own message moment words.
        one_reply (call_to own.realm.now moment words) (pkinit_rows own.realm.now.trust (K.functions own.keys.now)) message };
}

/// Answers each frame of `reader` in a frame of `writer`, to the end of the stream, and gives how many were answered, held at the
/// greatest `u64`.
///
/// Each message takes the next moment and the next 128 random bytes of `words_reader`. A frame's faults come in this order: the stream
/// ends within it or it is too long, no moment is left, too few random bytes are left, the message is no request, the reply is
/// too long, the write fails. A fault leaves the replies before it written, and no part of the next but where the write failed.
///
/// What is taken of `reader` and `words_reader`, and when memory is asked for, is told at `krb_frames`' `serve`.
pub fn serve<R: Source, W: Sink, M: Iterator<Item = Moment> + Drop, S: Source, K: KeyFunctions>(
    alloc: Global,
    realm: &Realm,
    reader: &mut R,
    writer: &mut W,
    moments: M,
    words_reader: &mut S,
    keys: &K,
) -> Result<u64, ServeFault>
    requires can { M.can_next moments }
    requires ends { IsFinite (M.remaining moments) }

    ensures output { Serves (RealmReplies realm.now (K.functions keys.now)) BeginsRequest (DrainsIf M.next_gives (result ≡ Err ServeFault.NoMoment) moments)
        (device_bytes (R.left reader.old) (S.left words_reader.old) (W.written writer.old))
        (device_bytes (R.left reader.new) (S.left words_reader.new) (W.written writer.new)) result }
    ensures read_failed { CountsReadFault result (R.failed reader.old) (R.failed reader.new) (S.failed words_reader.old) (S.failed words_reader.new) }
    ensures write_failed { CountsWriteFault result (W.failed writer.old) (W.failed writer.new) }
    ensures read_kept { KeepsReadCounts result (R.failed reader.old) (R.failed reader.new) (S.failed words_reader.old) (S.failed words_reader.new) }
    ensures write_kept { KeepsWriteCount result (W.failed writer.old) (W.failed writer.new) }

    // The accounts are in memory.
    ensures accounts { result ≢ Err ServeFault.Accounts }
{
    let answering = Answering { realm, keys };
    krb_frames::serve(alloc, &answering, reader, writer, moments, words_reader)
}

/// Answers each frame of a stream in memory, as [`serve`] does, with these moments. The replies' frames are appended to `replies`.
/// `words`: random bytes, 128 for each message.
pub fn serve_bytes<K: KeyFunctions>(
    alloc: Global,
    realm: &Realm,
    stream: &[u8],
    moments: &[Moment],
    words: &[u8],
    replies: &mut Vec<u8>,
    keys: &K,
) -> Result<u64, ServeFault>
    ensures output { (written : List ℕ) × (left : Left) × (replies.new.items ≡ replies.old.items ++ written)
        × IsServed (RealmReplies realm.now (K.functions keys.now)) BeginsRequest (at moments.now stream.now words.now) written result left }

    // Bytes in memory never fail.
    ensures devices { result ≢ Err ServeFault.Memory → IsFinal result }

    // The accounts are in memory.
    ensures accounts { result ≢ Err ServeFault.Accounts }
{
    let answering = Answering { realm, keys };
    krb_frames::serve_bytes(alloc, &answering, stream, moments, words, replies)
}
