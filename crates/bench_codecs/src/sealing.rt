//! Keys of passwords, and sealing and opening of a megabyte.

use anyhow::bail;
use block_ciphers::{AesSize, decrypt_aes_cts, decrypt_des, encrypt_aes_cts, encrypt_des};
use encryption_profiles::{pbkdf2_hmac, pbkdf2_hmac_sha1};
use sha2::{Sha256, Sha384};
use std::alloc::Global;

const KEY: [u8; 16] = *b"a key of AES-128";

const DES3_KEY: [u8; 24] = *b"the 24 bytes of this key";

/// The last 32 bytes that the last turn gave, in hexadecimal. They are the same each time.
pub(crate) fn run(alloc: Global, words: &[String]) -> anyhow::Result<String> {
    let [task, times] = words else {
        bail!("usage: sealing key|key19|key20|cts|open|des3|des3-open TIMES");
    };
    let last = last_of(alloc, task.as_str(), times.parse::<u32>()?)?;
    let end = &last[last.len().saturating_sub(32)..];
    Ok(hex::encode(alloc, end)?)
}

/// What the last turn gave.
fn last_of(alloc: Global, task: &str, times: u32) -> anyhow::Result<Vec<u8>> {
    match task {
        "key" => derived(alloc, times),
        "key19" => derived_by_sha256(alloc, times),
        "key20" => derived_by_sha384(alloc, times),
        "cts" => sealed(alloc, times),
        "open" => opened(alloc, times),
        "des3" => sealed_by_des(alloc, times),
        "des3-open" => opened_by_des(alloc, times),
        _ => bail!("no task: {task}"),
    }
}

/// A key of 32 bytes after 4,096 rounds, then one with that key as its password, and so on.
fn derived(alloc: Global, times: u32) -> anyhow::Result<Vec<u8>> {
    let mut key = Vec::from_slice(alloc, b"password")?;
    for _ in 0..times {
        key = pbkdf2_hmac_sha1(alloc, &key, b"EXAMPLE.COMtest1", 4096, 32)?;
    }
    Ok(key)
}

/// A key of 16 bytes by HMAC-SHA-256 and 32,768 rounds, as for a key of type 19, then one with that key as its password, and so on.
fn derived_by_sha256(alloc: Global, times: u32) -> anyhow::Result<Vec<u8>> {
    let mut key = Vec::from_slice(alloc, b"password")?;
    for _ in 0..times {
        key = pbkdf2_hmac::<Sha256, 32, 64>(alloc, &key, b"EXAMPLE.COMtest1", 32_768, 16)?;
    }
    Ok(key)
}

/// A key of 32 bytes by HMAC-SHA-384 and 32,768 rounds, as for a key of type 20, then one with that key as its password, and so on.
fn derived_by_sha384(alloc: Global, times: u32) -> anyhow::Result<Vec<u8>> {
    let mut key = Vec::from_slice(alloc, b"password")?;
    for _ in 0..times {
        key = pbkdf2_hmac::<Sha384, 48, 128>(alloc, &key, b"EXAMPLE.COMtest1", 32_768, 32)?;
    }
    Ok(key)
}

/// A megabyte of zeros sealed by AES-128 with ciphertext stealing, the outcome sealed again, and so on.
fn sealed(alloc: Global, times: u32) -> anyhow::Result<Vec<u8>> {
    let mut text = vec![in alloc; 0u8; 1_000_000]?;
    for _ in 0..times {
        text = encrypt_aes_cts(alloc, &KEY, &text, &AesSize::Aes128)?;
    }
    Ok(text)
}

/// A megabyte of zeros opened by AES-128 with ciphertext stealing, the outcome opened again, and so on.
fn opened(alloc: Global, times: u32) -> anyhow::Result<Vec<u8>> {
    let mut text = vec![in alloc; 0u8; 1_000_000]?;
    for _ in 0..times {
        text = decrypt_aes_cts(alloc, &KEY, &text, &AesSize::Aes128)?;
    }
    Ok(text)
}

/// A megabyte of zeros sealed by triple DES in a chain, the outcome sealed again, and so on.
fn sealed_by_des(alloc: Global, times: u32) -> anyhow::Result<Vec<u8>> {
    let mut text = vec![in alloc; 0u8; 1_000_000]?;
    for _ in 0..times {
        text = encrypt_des(alloc, &DES3_KEY, &text)?;
    }
    Ok(text)
}

/// A megabyte of zeros opened by triple DES in a chain, the outcome opened again, and so on.
fn opened_by_des(alloc: Global, times: u32) -> anyhow::Result<Vec<u8>> {
    let mut text = vec![in alloc; 0u8; 1_000_000]?;
    for _ in 0..times {
        text = decrypt_des(alloc, &DES3_KEY, &text)?;
    }
    Ok(text)
}
