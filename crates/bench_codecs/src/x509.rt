//! Reading and writing of a certificate's parts.

use anyhow::bail;
use picky_asn1_x509::{Extensions, Name, Spelled, from_bytes, to_vec};
use std::alloc::Global;

/// How many bytes of a part were read or written at the last turn.
pub(crate) fn run(alloc: Global, words: &[String]) -> anyhow::Result<String> {
    let [task, kind, text, times] = words else {
        bail!("usage: x509 read|write name|extensions HEXADECIMAL TIMES");
    };
    let bytes = hex::decode(alloc, text.as_str())?;
    let count = count_of(alloc, task.as_str(), kind.as_str(), &bytes, times.as_str())?;
    Ok(format!(in alloc; "{count}")?)
}

fn count_of(
    alloc: Global,
    task: &str,
    kind: &str,
    bytes: &[u8],
    times: &str,
) -> anyhow::Result<usize> {
    let times = times.parse::<u32>()?;
    match kind {
        "name" => turn::<Name>(alloc, task, bytes, times),
        "extensions" => turn::<Extensions>(alloc, task, bytes, times),
        _ => bail!("no such part: {kind}"),
    }
}

/// How many bytes each turn took.
fn turn<T: Spelled>(alloc: Global, task: &str, bytes: &[u8], times: u32) -> anyhow::Result<usize> {
    match task {
        "read" => read::<T>(alloc, bytes, times),
        "write" => write::<T>(alloc, bytes, times),
        _ => bail!("neither read nor write: {task}"),
    }
}

fn read<T: Spelled>(alloc: Global, bytes: &[u8], times: u32) -> anyhow::Result<usize> {
    for _ in 0..times {
        let _: T = from_bytes(alloc, bytes)?;
    }
    Ok(bytes.len())
}

/// The part is read once first.
fn write<T: Spelled>(alloc: Global, bytes: &[u8], times: u32) -> anyhow::Result<usize> {
    let part: T = from_bytes(alloc, bytes)?;
    let mut count = 0;
    for _ in 0..times {
        count = to_vec(alloc, &part)?.len();
    }
    Ok(count)
}
