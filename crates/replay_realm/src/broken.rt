//! A stream that is served over devices of which each byte fails in turn.

use crate::stage::Stage;
use krb_realm::{Moment, NoKeys, Realm, ServeFault, Sink, Source, serve, words_needed};
use std::alloc::Global;
use std::iter;
use test_support::{Drip, Told, Trickle};

/// A stream to a realm, at a moment and with random bytes.
#[derive(Drop)]
struct Served<'a> {
    realm: &'a Realm,
    moment: Moment,
    words: &'a [u8],
    stream: &'a [u8],
}

/// Serves the last request as a stream of one frame, and then over a writer that fails at each byte, over a reader that fails at each
/// call, and over random bytes that fail at each call. Prints what is written, and how many of each end by that fault with the front
/// of it that they have to write.
pub(crate) fn serve_broken(stage: &Stage, alloc: Global, told: &mut Told) -> anyhow::Result<()> {
    let random = stage.conditions.random.bytes();
    let served = Served {
        realm: stage.realm()?,
        moment: stage.conditions.moment,
        words: &random,
        stream: &stage.request,
    };
    let mut output = Vec::new(alloc);
    let (mut reader, mut words) = (served.stream, served.words);
    let end = end_of(alloc, &served, &mut reader, &mut output, &mut words);
    told.debug(&end);
    told.put(" ");
    told.octets(&output);
    told.put(" writers ");
    told.show(&broken_writers(alloc, &served, &output));
    told.put(" readers ");
    told.show(&broken_readers(alloc, &served, &output));
    told.put(" words ");
    told.show(&broken_words(alloc, &served));
    Ok(())
}

fn end_of<R: Source, W: Sink, K: Source>(
    alloc: Global,
    served: &Served<'_>,
    reader: &mut R,
    writer: &mut W,
    words: &mut K,
) -> Result<u64, ServeFault> {
    let moments = iter::repeat_n(served.moment, 9);
    serve(alloc, served.realm, reader, writer, moments, words, &NoKeys)
}

/// Whether a writer that fails after so many bytes takes these, and the run ends by that fault.
fn is_written(alloc: Global, served: &Served<'_>, front: &[u8]) -> bool {
    let mut writer = Trickle::new(alloc, front.len(), true);
    let (mut reader, mut words) = (served.stream, served.words);
    let end = end_of(alloc, served, &mut reader, &mut writer, &mut words);
    end == Err(ServeFault::Write) && writer.taken.as_slice() == front
}

fn broken_writers(alloc: Global, served: &Served<'_>, output: &[u8]) -> u64 {
    let mut broken = 0u64;
    for count in 0..output.len() {
        let (front, _) = output.split_at(count);
        if is_written(alloc, served, front) {
            broken = broken.saturating_add(1);
        }
    }
    broken
}

/// Whether a reader and random bytes that fail after so many calls end the run by that fault, with this front written.
fn is_read(alloc: Global, served: &Served<'_>, calls: usize, draws: usize, front: &[u8]) -> bool {
    let mut reader = Drip::new(served.stream, calls);
    let mut words = Drip::new(served.words, draws);
    let mut written = Vec::new(alloc);
    let end = end_of(alloc, served, &mut reader, &mut written, &mut words);
    end == Err(ServeFault::Read) && written.as_slice() == front
}

/// The call after the last byte, which finds the stream's end, comes once the reply is written.
fn broken_readers(alloc: Global, served: &Served<'_>, output: &[u8]) -> u64 {
    let size = served.stream.len();
    let mut broken = u64::from(is_read(alloc, served, size, usize::MAX, output));
    for calls in 0..size {
        if is_read(alloc, served, calls, usize::MAX, &[]) {
            broken = broken.saturating_add(1);
        }
    }
    broken
}

fn broken_words(alloc: Global, served: &Served<'_>) -> u64 {
    let mut broken = 0u64;
    for draws in 0..words_needed() {
        if is_read(alloc, served, usize::MAX, draws, &[]) {
            broken = broken.saturating_add(1);
        }
    }
    broken
}
