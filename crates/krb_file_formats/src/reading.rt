//! Reading the parts of a keytab.
ghost use Rattle.std.specs.Prelude.{◌≡◌, ◌+◌, ◌*◌, ◌≤◌, ◌++◌, ◌⊎◌, List, [], ◌∷◌, length, nat_lt, Ok, Err, IfOk, IfSome, MatchResult};
ghost use Rattle.krb_file_formats.specs.Entries.{Entry, texts_size};
ghost use Rattle.krb_file_formats.specs.Reading.{Gives, number_at, count_at, octets_at, text_at, text_judged, texts_at, fixed_at, kvno_at, name_at, entry_at, size_of, slot_at, held_at, NameAt};
ghost use Rattle.krb_file_formats.specs.declared.fault.KeytabFault.TheVariants.{Memory};

use crate::fault::KeytabFault;
use crate::key_record::KeytabRecord;
use crate::numbers::u32_be;
use byte_streams::u16_be;
use picky_asn1::LeafFault;
use picky_asn1::wrapper::GeneralStringAsn1;
use std::alloc::{AllocError, Global};

// The length of the size of a record.
const SIZE_LEN: usize = 4;

// The length of the fields between the name and the key: name type, timestamp, kvno and etype.
const FIXED_LEN: usize = 11;

// The fields between the name and the key.
#[derive(Clone, Copy)]
pub(crate) struct Fixed {
    pub(crate) name_type: u32,
    pub(crate) timestamp: u32,
    pub(crate) kvno: u8,
    pub(crate) etype: u16,
}

// Texts, and the place behind them.
#[derive(Drop)]
struct Texts {
    texts: Vec<GeneralStringAsn1>,
    end: usize,
}

// A realm and components, and the place behind them.
#[derive(Drop)]
struct Name {
    realm: GeneralStringAsn1,
    components: Vec<GeneralStringAsn1>,
    end: usize,
}

// A record or a hole, and the place behind it.
#[derive(Clone, Copy)]
pub(crate) struct Slot {
    pub(crate) is_hole: bool,
    pub(crate) end: usize,
}

// Reads the number of two octets at `place`.
fn read_number(front: &[u8], place: usize) -> Result<u16, KeytabFault>
    ensures exact { result ≡ number_at place front.now }
    ensures room { IfOk result (λ _. place + 2 ≤ length front.now) }
{
    if front.len().saturating_sub(place) < 2 {
        return Err(KeytabFault::PastRecord(place));
    }
    Ok(u16_be(front, place))
}

// Reads how many octets follow the length at `place`, all of which are there.
fn read_count(front: &[u8], place: usize) -> Result<usize, KeytabFault>
    ensures exact { result ≡ count_at place front.now }
    ensures room { IfOk result (λ n. place + 2 + n ≤ length front.now) }
{
    let size = usize::from(read_number(front, place)?);
    if front.len() - (place + 2) < size {
        return Err(KeytabFault::PastRecord(place));
    }
    Ok(size)
}

fn copied(alloc: Global, octets: &[u8]) -> Result<Vec<u8>, AllocError>
    ensures { IfOk result (λ v. v.items ≡ octets.now) }
{
    let mut copy = Vec::new(alloc);
    copy.extend_from_slice(octets)?;
    Ok(copy)
}

// Reads the octets after the length at `place`.
fn read_octets(alloc: Global, front: &[u8], place: usize) -> Result<Vec<u8>, KeytabFault>
    ensures exact { Gives (λ v. v.items) result (octets_at place front.now) }
    ensures room { IfOk result (λ v. place + 2 + length v.items ≤ length front.now) }
{
    let size = read_count(front, place)?;
    let copy = copied(alloc, &front[place + 2..place + 2 + size])?;
    Ok(copy)
}

// Makes a text of the octets after the length at `place`.
fn text_of(alloc: Global, octets: &[u8], place: usize) -> Result<GeneralStringAsn1, KeytabFault>
    ensures { Gives (λ s. s) result (text_judged place octets.now) }
{
    match GeneralStringAsn1::new(alloc, octets) {
        Ok(text) => Ok(text),
        Err(LeafFault::Memory) => Err(KeytabFault::Memory),
        Err(_) => Err(KeytabFault::Character(place)),
    }
}

// Reads the text behind the length at `place`.
fn read_text(alloc: Global, front: &[u8], place: usize) -> Result<GeneralStringAsn1, KeytabFault>
    ensures exact { Gives (λ s. s) result (text_at place front.now) }
    ensures room { IfOk result (λ s. place + 2 + length s ≤ length front.now) }
{
    let size = read_count(front, place)?;
    text_of(alloc, &front[place + 2..place + 2 + size], place)
}

fn keep_text(texts: &mut Vec<GeneralStringAsn1>, text: GeneralStringAsn1) -> Result<(), AllocError>
    ensures { IfOk result (λ _. texts.new.items ≡ texts.old.items ++ text ∷ []) }
{
    texts.push(text)?;
    Ok(())
}

// Reads so many texts, the first at `place`.
fn read_texts(alloc: Global, front: &[u8], place: usize, count: u16) -> Result<Texts, KeytabFault>
    ensures exact { Gives (λ t. t.texts.items) result (texts_at count place front.now) }
    ensures end { IfOk result (λ t. t.end ≡ place + texts_size t.texts.items) }
{
    let mut texts = Vec::new(alloc);
    let mut end = place;
    for _ in 0..count {
        let text = read_text(alloc, front, end)?;
        end += 2 + text.as_bytes().len();
        keep_text(&mut texts, text)?;
    }
    Ok(Texts { texts, end })
}

// Reads the realm and the components of the record that begins at `place`.
fn read_name(alloc: Global, front: &[u8], place: usize) -> Result<Name, KeytabFault>
    ensures { Gives (λ n. record { realm = n.realm; components = n.components.items; end = n.end }) result (name_at place front.now) }
{
    let count = read_number(front, place)?;
    let realm = read_text(alloc, front, place + 2)?;
    let begin = place + 4 + realm.as_bytes().len();
    let Texts { texts, end } = read_texts(alloc, front, begin, count)?;
    Ok(Name {
        realm,
        components: texts,
        end,
    })
}

// Reads the fields between the name and the key.
fn read_fixed(front: &[u8], place: usize) -> Result<Fixed, KeytabFault>
    ensures exact { result ≡ fixed_at place front.now }
    ensures room { IfOk result (λ _. place + 11 ≤ length front.now) }
{
    if front.len().saturating_sub(place) < FIXED_LEN {
        return Err(KeytabFault::PastRecord(place));
    }
    Ok(Fixed {
        name_type: u32_be(front, place),
        timestamp: u32_be(front, place + 4),
        kvno: front[place + 8],
        etype: u16_be(front, place + 9),
    })
}

// Reads the kvno: the 32 bits at `place`, or `low` where they aren't there or are 0.
fn read_kvno(front: &[u8], place: usize, low: u8) -> u32
    ensures { result ≡ kvno_at place low front.now }
{
    if front.len().saturating_sub(place) < 4 {
        return u32::from(low);
    }
    match u32_be(front, place) {
        0 => u32::from(low),
        long => long,
    }
}

// Reads the record that begins at `place` and ends with `front`.
fn read_record(alloc: Global, front: &[u8], place: usize) -> Result<KeytabRecord, KeytabFault>
    ensures { Gives (λ r. r) result (entry_at place front.now) }
{
    let name = read_name(alloc, front, place)?;
    let fixed = read_fixed(front, name.end)?;
    let key = read_octets(alloc, front, name.end + FIXED_LEN)?;
    let kvno = read_kvno(front, name.end + FIXED_LEN + 2 + key.len(), fixed.kvno);
    Ok(KeytabRecord {
        realm: name.realm,
        components: name.components,
        name_type: fixed.name_type,
        timestamp: fixed.timestamp,
        kvno,
        etype: fixed.etype,
        key,
    })
}

// Returns whether a size is negative, in two's complement.
fn is_negative(size: u32) -> bool
    ensures { result ≡ nat_lt 2147483647 size }
{
    size > i32::MAX as u32
}

// Returns how many octets a size speaks of, which is negative for a hole.
fn octets_of_size(size: u32) -> usize
    ensures { result ≡ size_of size }
{
    if is_negative(size) {
        return 4_294_967_296 - size as usize;
    }
    size as usize
}

// Finds the record or the hole whose size is at `place`: none where the octets end there, or the size is 0.
pub(crate) fn find_slot(bytes: &[u8], place: usize) -> Result<Option<Slot>, KeytabFault>
    ensures exact { result ≡ slot_at place bytes.now }
    ensures room { IfOk result (λ found. IfSome found (λ s. (place + 4 ≤ s.end) × (s.end ≤ length bytes.now))) }
{
    let left = bytes.len().saturating_sub(place);
    if left == 0 {
        return Ok(None);
    }
    if left < SIZE_LEN {
        return Err(KeytabFault::Truncated(place));
    }
    let size = u32_be(bytes, place);
    if size == 0 {
        return Ok(None);
    }
    if left - SIZE_LEN < octets_of_size(size) {
        return Err(KeytabFault::Truncated(place));
    }
    Ok(Some(Slot {
        is_hole: is_negative(size),
        end: place + SIZE_LEN + octets_of_size(size),
    }))
}

fn keep_record(records: &mut Vec<KeytabRecord>, one: KeytabRecord) -> Result<(), AllocError>
    ensures { IfOk result (λ _. records.new.items ≡ records.old.items ++ one ∷ []) }
{
    records.push(one)?;
    Ok(())
}

// Appends the record whose size is at `place`, or nothing for a hole.
pub(crate) fn keep_slot(
    alloc: Global,
    bytes: &[u8],
    place: usize,
    slot: Slot,
    records: &mut Vec<KeytabRecord>,
) -> Result<(), KeytabFault>
    requires room { place + 4 ≤ slot.end }
    requires inside { slot.end ≤ length bytes.now }
    ensures { MatchResult result
        (λ _. (es : List Entry) × (held_at slot place bytes.now ≡ Ok es) × (records.new.items ≡ records.old.items ++ es))
        (λ e. (e ≡ Memory) ⊎ (held_at slot place bytes.now ≡ Err e)) }
{
    if slot.is_hole {
        return Ok(());
    }
    let one = read_record(alloc, &bytes[..slot.end], place + SIZE_LEN)?;
    keep_record(records, one)?;
    Ok(())
}
