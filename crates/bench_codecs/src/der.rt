//! Reading and writing of messages.

use anyhow::bail;
use krb_messages::messages::{ApReq, AsRep, AsReq, KrbError, TgsReq};
use picky_asn1_der::{Deserialize, from_exact_bytes, to_vec};
use std::alloc::Global;

/// How many bytes of a message were read or written at the last turn.
pub(crate) fn run(alloc: Global, words: &[String]) -> anyhow::Result<String> {
    let [task, kind, text, times] = words else {
        bail!("usage: der read|write KIND HEXADECIMAL TIMES");
    };
    let bytes = hex::decode(alloc, text.as_str())?;
    let count = count_of(alloc, task.as_str(), kind.as_str(), &bytes, times.as_str())?;
    Ok(format!(in alloc; "{count}")?)
}

fn count_of(
    alloc: Global,
    task: &str,
    kind: &str,
    bytes: &[u8],
    times: &str,
) -> anyhow::Result<usize> {
    let times = times.parse::<u32>()?;
    match kind {
        "as_req" => turn::<AsReq>(alloc, task, bytes, times),
        "tgs_req" => turn::<TgsReq>(alloc, task, bytes, times),
        "as_rep" => turn::<AsRep>(alloc, task, bytes, times),
        "ap_req" => turn::<ApReq>(alloc, task, bytes, times),
        "krb_error" => turn::<KrbError>(alloc, task, bytes, times),
        _ => bail!("no such kind of message: {kind}"),
    }
}

/// How many bytes each turn took.
fn turn<T: Deserialize + Drop>(
    alloc: Global,
    task: &str,
    bytes: &[u8],
    times: u32,
) -> anyhow::Result<usize> {
    match task {
        "read" => read::<T>(alloc, bytes, times),
        "write" => write::<T>(alloc, bytes, times),
        _ => bail!("neither read nor write: {task}"),
    }
}

fn read<T: Deserialize + Drop>(alloc: Global, bytes: &[u8], times: u32) -> anyhow::Result<usize> {
    for _ in 0..times {
        let _: T = from_exact_bytes(alloc, bytes)?;
    }
    Ok(bytes.len())
}

/// The message is read once first.
fn write<T: Deserialize + Drop>(alloc: Global, bytes: &[u8], times: u32) -> anyhow::Result<usize> {
    let message: T = from_exact_bytes(alloc, bytes)?;
    let mut count = 0;
    for _ in 0..times {
        count = to_vec(alloc, &message)?.len();
    }
    Ok(count)
}
