//! What is done to messages by hand, and errors, by the crates below clients and realms.

use crate::stage::Stage;
use anyhow::{Context, bail};
use krb_crypto::{Cipher, CipherSuite};
use krb_messages::messages::KrbError;
use picky_asn1_der::{Serialize, to_bytes};
use std::alloc::Global;
use test_support::{Row, Told};

const AES256: CipherSuite = CipherSuite::Aes256CtsHmacSha196;

/// Seals the part of the AS reply to `a` anew, with another first byte in the place of its tag 25. What is sealed are the last
/// so many bytes of the reply. The usage is 3 (RFC 4120, section 7.5.1).
pub(crate) fn exchange_tag(
    stage: &mut Stage,
    alloc: Global,
    words: &mut Row<'_>,
) -> anyhow::Result<()> {
    let first = words.number::<u8>();
    let len = words.number::<usize>();
    let (front, sealed) = parts_of(&stage.reply, len)?;
    let sealed = sealed_anew(alloc, sealed, first)?;
    stage.reply = joined(alloc, front, &sealed)?;
    Ok(())
}

/// The bytes before the last so many, and these.
fn parts_of(bytes: &[u8], len: usize) -> anyhow::Result<(&[u8], &[u8])> {
    match bytes.len().checked_sub(len) {
        Some(place) => Ok(bytes.split_at(place)),
        None => bail!("a reply of fewer bytes"),
    }
}

fn sealed_anew(alloc: Global, sealed: &[u8], first: u8) -> anyhow::Result<Vec<u8>> {
    let key = AES256.generate_key_from_password(alloc, b"pw", b"Ra")?;
    let mut part = AES256.decrypt(alloc, &key, 3, sealed)?;
    exchange_first(&mut part, first)?;
    Ok(AES256.encrypt(alloc, &key, 3, &part, &[0; 16])?)
}

fn exchange_first(part: &mut [u8], first: u8) -> anyhow::Result<()> {
    let byte = part.first_mut().context("an empty part")?;
    if *byte != 0x79 {
        bail!("the part has another tag");
    }
    *byte = first;
    Ok(())
}

fn joined(alloc: Global, front: &[u8], back: &[u8]) -> anyhow::Result<Vec<u8>> {
    let mut whole = Vec::from_slice(alloc, front)?;
    whole.extend_from_slice(back)?;
    Ok(whole)
}

/// Reads an error, and writes how it prints.
pub(crate) fn print_error(stage: &Stage, alloc: Global, told: &mut Told) -> anyhow::Result<()> {
    let error = krb_messages::from_bytes::<KrbError>(alloc, &stage.request)?;
    told.show(&error.0);
    drop(error);
    Ok(())
}

/// Reads an error. Writes its length, and whether it is written into 72 and into 71 bytes. It is to be the same bytes.
pub(crate) fn write_error(stage: &Stage, alloc: Global, told: &mut Told) -> anyhow::Result<()> {
    let error = krb_messages::from_bytes::<KrbError>(alloc, &stage.request)?;
    tell_written(error, &stage.request, told);
    Ok(())
}

fn tell_written<T: Serialize + Drop>(value: T, wanted: &[u8], told: &mut Told) {
    let mut room = [0; 72];
    let mut short = [0; 71];
    told.debug(&value.encoded_len());
    told.put(" ");
    told.debug(&to_bytes(&value, &mut room));
    told.put(if room.as_slice() == wanted {
        " true "
    } else {
        " false "
    });
    told.debug(&to_bytes(&value, &mut short));
}
