//! Streams served over whole, slow and failing devices.
ghost use Rattle.std.specs.Prelude.{◌≡◌, ◌<◌, ◌++◌, length, take, nat_lt, if◌then◌else◌, Some, None, ⊤};
ghost use Rattle.std.proofs.Common.{sym, ◌∙◌};

use byte_streams::{Sink, Source, Watched};
use krb_frames::{
    AnswerRefusal, FRAME_LIMIT, Responder, ServeFault, SoleResponder, Tolerant, WORDS_NEEDED,
    serve, serve_bytes,
};
use krb_time::Moment;
use std::alloc::{AllocError, Global};
use std::{io, iter};
use test_support::{Drip, Trickle};

// Replies with the first random byte and the message. A message with no byte is no request.
pub(crate) struct Toy;

impl Responder for Toy {
    ghost replies = { λ _ message _ words answer.
        answer ≡ (if nat_lt 0 (length message) then Some (take 1 words ++ message) else None) };

    ghost may_want_memory = { λ _ message. 0 < length message };

    ghost may_lack_accounts = { λ _ _. ⊥ };

    fn answer(
        &self,
        alloc: Global,
        message: &[u8],
        _moment: Moment,
        words: &[u8],
    ) -> Result<Vec<u8>, AnswerRefusal> {
        if message.is_empty() {
            return Err(AnswerRefusal::Unreadable);
        }
        let mut reply = Vec::new(alloc);
        let first = reply.extend_from_slice(&words[..1]);
        let second = reply.extend_from_slice(message);
        match (first, second) {
            (Ok(()), Ok(())) => Ok(reply),
            _ => Err(AnswerRefusal::Memory),
        }
    }
}

impl SoleResponder for Toy {
    ghost one_reply = { λ _ message moment words a b first second. first ∙ sym second };
}

const STREAM: &[u8] = b"\0\0\0\x01a\0\0\0\x02bc";

const REPLIES: &[u8] = b"\0\0\0\x02Aa\0\0\0\x03Bbc";

// The random bytes that two messages need: `A` for the first and `B` for the second.
fn words_of_two(alloc: Global) -> Result<Vec<u8>, AllocError> {
    let mut words = vec![in alloc; b'A'; WORDS_NEEDED]?;
    words.extend_from_slice(&[b'B'; WORDS_NEEDED])?;
    Ok(words)
}

// What is written for a stream, with so many moments and random bytes, and how it ends.
#[derive(Drop)]
struct Case<'a> {
    stream: &'a [u8],
    moments: usize,
    words: usize,
    end: Result<u64, ServeFault>,
    written: &'a [u8],
}

fn is_served(alloc: Global, case: &Case<'_>) -> bool {
    let (Ok(words), Some(moment)) = (words_of_two(alloc), Moment::new(0)) else {
        return false;
    };
    let moments = [moment; 2];
    let moments = moments.get(..case.moments).unwrap_or_default();
    let words = words.get(..case.words).unwrap_or_default();
    let mut replies = Vec::new(alloc);
    let end = serve_bytes(alloc, &Toy, case.stream, moments, words, &mut replies);
    end == case.end && replies.as_slice() == case.written
}

#[test]
fn stops_at_the_first_fault(rt: HostRuntime) {
    for (stream, moments, words, end, written) in [
        (b"".as_slice(), 0, 0, Ok(0), b"".as_slice()),
        (b"\0\0\0", 0, 0, Err(ServeFault::Truncated), b""),
        (b"\0\x01\0\x01", 0, 0, Err(ServeFault::FrameTooLong), b""),
        (b"\0\0\0\x02a", 0, 0, Err(ServeFault::Truncated), b""),
        (b"\0\0\0\x01a", 0, 0, Err(ServeFault::NoMoment), b""),
        (b"\0\0\0\0", 1, 127, Err(ServeFault::NoWords), b""),
        (b"\0\0\0\0", 1, 128, Err(ServeFault::NoRequest), b""),
        (STREAM, 1, 256, Err(ServeFault::NoMoment), &REPLIES[..6]),
        (STREAM, 2, 255, Err(ServeFault::NoWords), &REPLIES[..6]),
        (STREAM, 2, 256, Ok(2), REPLIES),
    ] {
        let case = Case {
            stream,
            moments,
            words,
            end,
            written,
        };
        assert!(rt; is_served(rt.alloc(), &case), "at {stream:?}");
    }
}

// Its accounts can't be read.
struct Unread;

impl Responder for Unread {
    ghost replies = { λ _ _ _ _ _. ⊥ };

    ghost may_want_memory = { λ _ _. ⊥ };

    ghost may_lack_accounts = { λ _ _. ⊤ };

    fn answer(
        &self,
        _alloc: Global,
        _message: &[u8],
        _moment: Moment,
        _words: &[u8],
    ) -> Result<Vec<u8>, AnswerRefusal> {
        Err(AnswerRefusal::Accounts)
    }
}

fn end_without_accounts(alloc: Global) -> Option<(Result<u64, ServeFault>, usize)> {
    let moments = [Moment::new(0)?; 2];
    let words = words_of_two(alloc).ok()?;
    let mut replies = Vec::new(alloc);
    let end = serve_bytes(alloc, &Unread, STREAM, &moments, &words, &mut replies);
    Some((end, replies.len()))
}

// The first message gets no reply.
#[test]
fn stops_without_accounts(rt: HostRuntime) {
    let end = end_without_accounts(rt.alloc());
    assert!(rt; end == Some((Err(ServeFault::Accounts), 0)));
}

fn is_tolerated(alloc: Global) -> Option<bool> {
    let moments = [Moment::new(0)?; 2];
    let words = words_of_two(alloc).ok()?;
    let mut replies = Vec::new(alloc);
    let tolerant = Tolerant { responder: &Toy };
    let stream = b"\0\0\0\0\0\0\0\x01a";
    let end = serve_bytes(alloc, &tolerant, stream, &moments, &words, &mut replies);
    Some(end == Ok(2) && replies.as_slice() == b"\0\0\0\0\0\0\0\x02Ba".as_slice())
}

// A message that is no request gets an empty reply, and the next is answered.
#[test]
fn goes_on_by_empty_reply(rt: HostRuntime) {
    assert!(rt; is_tolerated(rt.alloc()) == Some(true));
}

// A frame of as many bytes `x`.
fn frame_of(alloc: Global, size: u32) -> Result<Vec<u8>, AllocError> {
    let mut frame = Vec::from_slice(alloc, &size.to_be_bytes())?;
    frame.resize(4 + size as usize, b'x')?;
    Ok(frame)
}

// How a stream of one frame of as many bytes ends, and how many bytes are written.
fn end_of_frame(alloc: Global, size: u32) -> Option<(Result<u64, ServeFault>, usize)> {
    let moments = [Moment::new(0)?];
    let stream = frame_of(alloc, size).ok()?;
    let mut replies = Vec::new(alloc);
    let words = &[0; WORDS_NEEDED];
    let end = serve_bytes(alloc, &Toy, &stream, &moments, words, &mut replies);
    Some((end, replies.len()))
}

// The longest message makes a reply of a byte too many.
#[test]
fn long_replies(rt: HostRuntime) {
    let whole = end_of_frame(rt.alloc(), 65_535);
    assert!(rt; whole == Some((Ok(1), 4 + FRAME_LIMIT)));
    let too_long = end_of_frame(rt.alloc(), 65_536);
    assert!(rt; too_long == Some((Err(ServeFault::ReplyTooLong), 0)));
}

// Serves a stream at the first moment and to these devices.
fn served<R: Source, W: Sink, K: Source>(
    alloc: Global,
    reader: &mut R,
    writer: &mut W,
    words: &mut K,
) -> Option<Result<u64, ServeFault>> {
    let moments = iter::repeat_n(Moment::new(0)?, 9);
    Some(serve(alloc, &Toy, reader, writer, moments, words))
}

// How the stream ends where its reader fails at a call, and whether so many bytes of the replies are written.
fn is_end_of_reader(alloc: Global, at: usize, end: Result<u64, ServeFault>, size: usize) -> bool {
    let Ok(words) = words_of_two(alloc) else {
        return false;
    };
    let mut reader = Drip::new(STREAM, at);
    let mut replies = Vec::new(alloc);
    served(alloc, &mut reader, &mut replies, &mut words.as_slice()) == Some(end)
        && Some(replies.as_slice()) == REPLIES.get(..size)
}

// The reader fails at its call `at`. The call after the last byte finds the end.
#[test]
fn failing_reader(rt: HostRuntime) {
    for at in 0..13 {
        let (end, size) = match at {
            0..5 => (Err(ServeFault::Read), 0),
            5..11 => (Err(ServeFault::Read), 6),
            11 => (Err(ServeFault::Read), 13),
            _ => (Ok(2), 13),
        };
        assert!(rt; is_end_of_reader(rt.alloc(), at, end, size), "at {at}");
    }
}

fn end_of_words(alloc: Global, at: usize) -> Option<Result<u64, ServeFault>> {
    let words = words_of_two(alloc).ok()?;
    let mut drip = Drip::new(&words, at);
    let mut replies = Vec::new(alloc);
    served(alloc, &mut &*STREAM, &mut replies, &mut drip)
}

// The random bytes fail at the call `at`.
#[test]
fn failing_random_bytes(rt: HostRuntime) {
    for at in [0, 127, 128, 255] {
        let end = end_of_words(rt.alloc(), at);
        assert!(rt; end == Some(Err(ServeFault::Read)), "at {at}");
    }
    assert!(rt; end_of_words(rt.alloc(), 256) == Some(Ok(2)));
}

// How the stream ends where its writer fails at a byte, which is written up to it.
fn is_end_of_writer(alloc: Global, at: usize, end: Result<u64, ServeFault>) -> bool {
    let Ok(words) = words_of_two(alloc) else {
        return false;
    };
    let mut writer = Trickle::new(alloc, at, true);
    served(alloc, &mut &*STREAM, &mut writer, &mut words.as_slice()) == Some(end)
        && Some(writer.taken.as_slice()) == REPLIES.get(..at)
}

// The writer fails at the byte `at`.
#[test]
fn failing_writer(rt: HostRuntime) {
    for at in 0..13 {
        assert!(rt;
            is_end_of_writer(rt.alloc(), at, Err(ServeFault::Write)),
            "at {at}"
        );
    }
    assert!(rt; is_end_of_writer(rt.alloc(), 13, Ok(2)));
}

fn is_served_by_std(alloc: Global) -> bool {
    let mut reader = Watched::new(STREAM);
    let mut writer = Watched::new(Vec::new(alloc));
    let mut words = Watched::new(io::repeat(b'A'));
    served(alloc, &mut reader, &mut writer, &mut words) == Some(Ok(2))
        && writer.get_ref().as_slice() == b"\0\0\0\x02Aa\0\0\0\x03Abc".as_slice()
}

#[test]
fn devices_of_std(rt: HostRuntime) {
    assert!(rt; is_served_by_std(rt.alloc()));
}
