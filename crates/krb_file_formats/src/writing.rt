//! Writing the parts of a keytab.
ghost use Rattle.std.specs.Prelude.{◌≡◌, ◌<◌, ◌%◌, ◌^◌, ◌++◌, length, IfOk, MatchResult};
ghost use Rattle.krb_file_formats.specs.Entries.{Fits, TextsFit, counted, texts_bytes, principal_bytes, fixed_bytes};
ghost use Rattle.krb_file_formats.specs.Writing.{FitsName, IsWritable, AreWritable, IsWriteRefusal, Puts, written, record_bytes, records_bytes, keytab_bytes};

use crate::fault::KeytabWriteFault;
use crate::key_record::KeytabRecord;
use crate::numbers::u32_be_bytes;
use byte_streams::u16_be_bytes;
use picky_asn1::wrapper::GeneralStringAsn1;
use std::alloc::{AllocError, Global};

// The version: the octets 5 and 2.
pub(crate) const VERSION: u16 = 0x0502;

// The greatest number of 16 bits.
const MOST: usize = 65_535;

// The greatest size of a record.
const MOST_SIZE: usize = 2_147_483_647;

// Appends octets after their length.
fn put_counted(to: &mut Vec<u8>, octets: &[u8]) -> Result<(), KeytabWriteFault>
    ensures { MatchResult result
        (λ _. Puts (counted octets.now) to.old.items to.new.items × (length octets.now < 2 ^ 16))
        (IsWriteRefusal (length octets.now < 2 ^ 16)) }
{
    if MOST < octets.len() {
        return Err(KeytabWriteFault::TooLong);
    }
    to.extend_from_slice(&u16_be_bytes(octets.len() as u16))?;
    to.extend_from_slice(octets)?;
    Ok(())
}

// Appends each text behind its length.
fn put_texts(to: &mut Vec<u8>, texts: &[GeneralStringAsn1]) -> Result<(), KeytabWriteFault>
    ensures { MatchResult result
        (λ _. Puts (texts_bytes texts.now) to.old.items to.new.items × TextsFit texts.now)
        (IsWriteRefusal (TextsFit texts.now)) }
{
    for text in texts {
        put_counted(to, text.as_bytes())?;
    }
    Ok(())
}

// Returns a count that fits its 16 bits.
fn count_of(count: usize) -> Result<u16, KeytabWriteFault>
    ensures { MatchResult result (λ n. (n ≡ count) × (count < 2 ^ 16)) (IsWriteRefusal (count < 2 ^ 16)) }
{
    if MOST < count {
        return Err(KeytabWriteFault::TooLong);
    }
    Ok(count as u16)
}

// Returns the size of a record, which is positive in 32 bits.
fn size_of(size: usize) -> Result<u32, KeytabWriteFault>
    ensures { MatchResult result (λ n. (n ≡ size) × (size < 2 ^ 31)) (IsWriteRefusal (size < 2 ^ 31)) }
{
    if MOST_SIZE < size {
        return Err(KeytabWriteFault::TooLong);
    }
    Ok(size as u32)
}

// Appends the count of components, the realm and the components.
fn put_name(
    to: &mut Vec<u8>,
    realm: &[u8],
    components: &[GeneralStringAsn1],
) -> Result<(), KeytabWriteFault>
    ensures { MatchResult result
        (λ _. Puts (principal_bytes realm.now components.now) to.old.items to.new.items × FitsName realm.now components.now)
        (IsWriteRefusal (FitsName realm.now components.now)) }
{
    let count = count_of(components.len())?;
    to.extend_from_slice(&u16_be_bytes(count))?;
    put_counted(to, realm)?;
    put_texts(to, components)?;
    Ok(())
}

// Appends the name type, the timestamp, the lowest 8 bits of the kvno, and the etype.
fn put_fixed(to: &mut Vec<u8>, one: &KeytabRecord) -> Result<(), AllocError>
    ensures put { IfOk result (λ _. Puts (fixed_bytes one.now (one.now.kvno % 256)) to.old.items to.new.items) }
    ensures fit { IfOk result (λ _. (one.now.name_type < 2 ^ 32) × (one.now.timestamp < 2 ^ 32) × (one.now.etype < 2 ^ 16)
        × (one.now.kvno < 2 ^ 32)) }
{
    to.extend_from_slice(&u32_be_bytes(one.name_type))?;
    to.extend_from_slice(&u32_be_bytes(one.timestamp))?;
    to.push((one.kvno % 256) as u8)?;
    to.extend_from_slice(&u16_be_bytes(one.etype))?;
    Ok(())
}

// Encodes a record without its size.
fn body_of(alloc: Global, one: &KeytabRecord) -> Result<Vec<u8>, KeytabWriteFault>
    ensures { MatchResult result
        (λ body. (body.items ≡ written one.now) × Fits one.now × (one.now.kvno < 2 ^ 32))
        (IsWriteRefusal (Fits one.now)) }
{
    let mut body = Vec::new(alloc);
    put_name(&mut body, one.realm().as_bytes(), one.components())?;
    put_fixed(&mut body, one)?;
    put_counted(&mut body, one.key_octets())?;
    body.extend_from_slice(&u32_be_bytes(one.kvno()))?;
    Ok(body)
}

// Appends a record behind its size.
fn put_record(alloc: Global, to: &mut Vec<u8>, one: &KeytabRecord) -> Result<(), KeytabWriteFault>
    ensures { MatchResult result
        (λ _. Puts (record_bytes one.now) to.old.items to.new.items × IsWritable one.now)
        (IsWriteRefusal (IsWritable one.now)) }
{
    let body = body_of(alloc, one)?;
    let size = size_of(body.len())?;
    to.extend_from_slice(&u32_be_bytes(size))?;
    to.extend_from_slice(&body)?;
    Ok(())
}

// Encodes a keytab.
pub(crate) fn bytes_of(alloc: Global, records: &[KeytabRecord]) -> Result<Vec<u8>, KeytabWriteFault>
    ensures { MatchResult result
        (λ bytes. (bytes.items ≡ keytab_bytes records.now) × AreWritable records.now)
        (IsWriteRefusal (AreWritable records.now)) }
{
    let mut bytes = Vec::new(alloc);
    bytes.extend_from_slice(&u16_be_bytes(VERSION))?;
    for one in records {
        put_record(alloc, &mut bytes, one)?;
    }
    Ok(bytes)
}
