//! Single calls, and the bytes that they make. faults/refused_growths.sh refuses each growth of such a row in turn.

use anyhow::{Context, bail};
use gss_contexts::{MicToken, WrapToken};
use krb_crypto::{Cipher, CipherSuite};
use microsoft_messages::Pac;
use negoex_messages::{Extension, MessageType, Nego, NegoexMessage};
use picky_asn1_x509::{AlgorithmIdentifier, deviations, from_bytes, to_vec};
use std::alloc::Global;
use uuid::Uuid;

/// The usage of each message that is encrypted.
const USAGE: i32 = 5;

/// What a call makes, in hexadecimal. Bytes are handed in in hexadecimal, `-` for none.
pub(crate) fn run(alloc: Global, words: &[String]) -> anyhow::Result<String> {
    let [call, number, bytes @ ..] = words else {
        bail!("usage: row CALL NUMBER HEXADECIMAL ..");
    };
    let bytes = bytes_of(alloc, bytes)?;
    let made = made_by(alloc, call.as_str(), number.parse::<usize>()?, &bytes)?;
    Ok(hex::encode(alloc, &made)?)
}

/// What a call makes of a suite's number or a count, and of bytes.
fn made_by(alloc: Global, call: &str, number: usize, bytes: &[Vec<u8>]) -> anyhow::Result<Vec<u8>> {
    match call {
        "password" => password_key(alloc, number, bytes),
        "encrypt" => encrypted(alloc, number, bytes),
        "decrypt" => decrypted(alloc, number, bytes),
        "spelling" => strict_spelling(alloc, number, bytes),
        "pac" => pac(alloc, bytes),
        "nego" => offer(alloc, bytes),
        "mic" => mic_token(alloc, bytes),
        "wrap" => wrap_token(alloc, bytes),
        _ => bail!("no such call: {call}"),
    }
}

fn bytes_of(alloc: Global, words: &[String]) -> anyhow::Result<Vec<Vec<u8>>> {
    let mut bytes = Vec::new(alloc);
    for word in words {
        let digits = if word.as_str() == "-" {
            ""
        } else {
            word.as_str()
        };
        bytes.push(hex::decode(alloc, digits)?)?;
    }
    Ok(bytes)
}

/// The key of password and salt.
fn password_key(alloc: Global, suite: usize, bytes: &[Vec<u8>]) -> anyhow::Result<Vec<u8>> {
    let [password, salt] = bytes else {
        bail!("row password SUITE PASSWORD SALT");
    };
    Ok(suite_of(suite)?.generate_key_from_password(alloc, password, salt)?)
}

fn suite_of(number: usize) -> anyhow::Result<CipherSuite> {
    CipherSuite::try_from(number).ok().context("no such suite")
}

fn encrypted(alloc: Global, suite: usize, bytes: &[Vec<u8>]) -> anyhow::Result<Vec<u8>> {
    let [key, confounder, text] = bytes else {
        bail!("row encrypt SUITE KEY CONFOUNDER TEXT");
    };
    let suite = suite_of(suite)?;
    if confounder.len() != suite.confounder_size() {
        bail!("a confounder of another size");
    }
    Ok(suite.encrypt(alloc, key, USAGE, text, confounder)?)
}

fn decrypted(alloc: Global, suite: usize, bytes: &[Vec<u8>]) -> anyhow::Result<Vec<u8>> {
    let [key, message] = bytes else {
        bail!("row decrypt SUITE KEY MESSAGE");
    };
    Ok(suite_of(suite)?.decrypt(alloc, key, USAGE, message)?)
}

/// The strict spelling of an algorithm identifier that is spelled with so many deviations.
fn strict_spelling(alloc: Global, count: usize, bytes: &[Vec<u8>]) -> anyhow::Result<Vec<u8>> {
    let [bytes] = bytes else {
        bail!("row spelling COUNT BYTES");
    };
    if deviations::<AlgorithmIdentifier>(alloc, bytes)? != count {
        bail!("another count of deviations");
    }
    let read = from_bytes::<AlgorithmIdentifier>(alloc, bytes)?;
    Ok(to_vec(alloc, &read)?)
}

/// A PAC, read and written.
fn pac(alloc: Global, bytes: &[Vec<u8>]) -> anyhow::Result<Vec<u8>> {
    let [bytes] = bytes else {
        bail!("row pac 0 BYTES");
    };
    let mut written = Vec::new(alloc);
    let pac = Pac::deserialize(alloc, &mut bytes.as_slice())?;
    pac.serialize(alloc, &mut written)?;
    Ok(written)
}

/// An offer of one scheme with one extension of type 3, written. It is to be read back as it was.
fn offer(alloc: Global, bytes: &[Vec<u8>]) -> anyhow::Result<Vec<u8>> {
    let [value] = bytes else {
        bail!("row nego 0 VALUE");
    };
    let message = message_of(alloc, Vec::from_slice(alloc, value)?)?;
    let written = message.to_bytes(alloc)?;
    let read = Nego::decode(alloc, &written)?;
    if read != message {
        bail!("another message is read");
    }
    Ok(written)
}

fn message_of(alloc: Global, extension_value: Vec<u8>) -> anyhow::Result<Nego> {
    let extension = Extension {
        extension_type: 3,
        extension_value,
    };
    let extensions = vec![in alloc; extension]?;
    let mut schemes = Vec::new(alloc);
    schemes.push(Uuid::from_u128(1))?;
    let conversation = Uuid::from_u128(2);
    let kind = MessageType::InitiatorNego;
    Ok(Nego::new(kind, conversation, 0, [7; 32], schemes, extensions)?)
}

/// A token, read and written.
fn mic_token(alloc: Global, bytes: &[Vec<u8>]) -> anyhow::Result<Vec<u8>> {
    let [bytes] = bytes else {
        bail!("row mic 0 BYTES");
    };
    let mut written = Vec::new(alloc);
    MicToken::decode(alloc, &mut bytes.as_slice())?.encode(&mut written)?;
    Ok(written)
}

fn wrap_token(alloc: Global, bytes: &[Vec<u8>]) -> anyhow::Result<Vec<u8>> {
    let [bytes] = bytes else {
        bail!("row wrap 0 BYTES");
    };
    let mut written = Vec::new(alloc);
    WrapToken::decode(alloc, &mut bytes.as_slice())?.encode(&mut written)?;
    Ok(written)
}
