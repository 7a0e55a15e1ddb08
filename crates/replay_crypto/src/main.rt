//! Replays vectors of standards and values of other implementations, and compares each with what is made here. `keys`: powers, keys,
//! signatures and Diffie-Hellman agreements of Python and openssl, and forged signatures. `sealing`: encryption, checksums and keys of the
//! suites. `signed`: signed data, its signers, and keys in files and certificates. `packs`: AuthPacks with further fields. `general`:
//! signed data as stock clients send it. `policies`: requests by certificate at realms with a policy. `agile_replies`: replies to them.
//! And it compares AES by tables of words with AES by the steps of FIPS 197.
//!
//! Then it replays calls of what holds keys: contexts, initiators, acceptors and services, and password changes. It compares each answer with
//! that of an independent writer, of an independent implementation or of MIT's library.
//!
//! `replay_crypto signed FILE ..` replays lines on signed data in these files, and `replay_crypto sequences FILE ..` lists of calls of one
//! service. With no argument it replays all that is recorded.
#![tactic(auto)]

mod aes;
mod agile_replies;
mod agreement;
mod agreements;
mod blocks;
mod contexts;
mod derivation;
mod des;
mod digests;
mod general;
mod keys;
mod numbers;
mod packs;
mod password_changes;
mod password_frames;
mod password_replies;
mod plain;
mod policies;
mod primes;
mod row;
mod sealing;
mod sequences;
mod signatures;
mod signed;
mod suites;

use anyhow::bail;
use contexts::replay_contexts;
use password_changes::replay_password_changes;
use password_frames::replay_password_frames;
use password_replies::replay_password_replies;
use sequences::replay_sequences;
use std::env;

/// Lists of calls of one service.
const SEQUENCES: [&str; 3] = ["admit_sequences.txt", "replay_cache.txt", "keytab_rows.txt"];

fn main(rt: HostRuntime) -> anyhow::Result<()> {
    let mut words = env::args(&rt)?;
    let _program = words.next();
    let Some(kind) = words.next() else {
        return replay_recorded(&rt);
    };
    for file in words {
        replay_named(&rt, &kind, &file)?;
    }
    Ok(())
}

/// Replays a file of this kind.
fn replay_named(rt: &HostRuntime, kind: &str, file: &str) -> anyhow::Result<()> {
    match kind {
        "signed" => signed::replay_file(rt, file),
        "sequences" => replay_sequences(rt, file),
        _ => bail!("usage: replay_crypto [signed|sequences FILE ..]"),
    }
}

fn replay_recorded(rt: &HostRuntime) -> anyhow::Result<()> {
    keys::replay_keys(rt)?;
    sealing::replay_sealing(rt)?;
    blocks::compare_aes(rt)?;
    signed::replay_signed(rt)?;
    packs::replay_packs(rt)?;
    general::replay_general(rt)?;
    policies::replay_policies(rt)?;
    agile_replies::replay_agile_replies(rt)?;
    replay_services(rt)
}

fn replay_services(rt: &HostRuntime) -> anyhow::Result<()> {
    replay_contexts(rt)?;
    for file in SEQUENCES {
        replay_sequences(rt, file)?;
    }
    replay_password_frames(rt)?;
    replay_password_changes(rt)?;
    replay_password_replies(rt)
}
