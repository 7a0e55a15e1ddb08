//! Keytabs.
ghost use Rattle.std.specs.Prelude.{◌≡◌, ◌⊎◌, ℕ, List, Ok, IfOk, length, MatchResult};
ghost use Rattle.krb_file_formats.specs.Entries.{Entry};
ghost use Rattle.krb_file_formats.specs.Layouts.{IsKeytab};
ghost use Rattle.krb_file_formats.specs.Reading.{Gives, entries_at, version_at, keytab_at};
ghost use Rattle.krb_file_formats.specs.Writing.{AreWritable, IsWriteRefusal, keytab_bytes};
ghost use Rattle.krb_file_formats.specs.declared.fault.KeytabFault.TheVariants.{Memory};

use crate::fault::{KeytabFault, KeytabWriteFault};
use crate::key_record::KeytabRecord;
use crate::reading::{find_slot, keep_slot};
use crate::writing::{VERSION, bytes_of};
use byte_streams::u16_be;
use std::alloc::Global;
use std::marker::Model;

// The length of the version.
const VERSION_LEN: usize = 2;

/// A keytab: its key records in their order. A contract sees their list.
#[derive(Drop)]
pub struct Keytab {
    records: Vec<KeytabRecord>,
}

impl Model for Keytab {
    ghost use Rattle.std.specs.Prelude.{List};
    ghost use Rattle.krb_file_formats.specs.Entries.{Entry};

    ghost Value = { List Entry };

    ghost view = { λ k. k.records.items };
}

// Reads the records behind the version.
fn read_records(alloc: Global, bytes: &[u8]) -> Result<Vec<KeytabRecord>, KeytabFault>
    ensures { Gives (λ v. v.items) result (entries_at (length bytes.now) 2 bytes.now) }
{
    let mut records = Vec::new(alloc);
    let mut place = VERSION_LEN;
    for _ in 0..bytes.len() {
        let Some(slot) = find_slot(bytes, place)? else {
            return Ok(records);
        };
        keep_slot(alloc, bytes, place, slot, &mut records)?;
        place = slot.end;
    }
    Ok(records)
}

// Judges the version.
fn check_version(bytes: &[u8]) -> Result<(), KeytabFault>
    ensures { result ≡ version_at bytes.now }
{
    if bytes.len() < VERSION_LEN {
        return Err(KeytabFault::Truncated(0));
    }
    let version = u16_be(bytes, 0);
    if version != VERSION {
        return Err(KeytabFault::WrongVersion(version));
    }
    Ok(())
}

impl Keytab {
    /// Makes a keytab of these records.
    pub fn new(records: Vec<KeytabRecord>) -> Keytab
        ensures { result ≡ records.items }
    {
        Keytab { records }
    }

    /// The records, in their order.
    pub fn records(&self) -> &[KeytabRecord]
        ensures { result.now ≡ self.now }
    {
        self.records.as_slice()
    }

    /// The records, in their order. The keytab is consumed.
    pub fn into_records(self) -> Vec<KeytabRecord>
        ensures { result.items ≡ self }
    {
        self.records
    }

    /// Reads the octets of a whole file. Holes are passed over. So is what a record has behind its key, but for the kvno of 32 bits,
    /// and what is behind a size of 0.
    ///
    /// The first fault in the order of the octets is returned: `Truncated` and `WrongVersion` for the version, and for each record in
    /// turn `Truncated` for its size, `PastRecord` for a field that ends past it, and `Character` for a name that isn't ASCII.
    pub fn from_bytes(alloc: Global, bytes: &[u8]) -> Result<Keytab, KeytabFault>
        ensures exact { Gives (λ k. k) result (keytab_at bytes.now) }
        ensures laid { IfOk result (λ k. IsKeytab k bytes.now) }
        ensures only { (es : List Entry) → IsKeytab es bytes.now → MatchResult result (λ k. k ≡ es) (λ e. e ≡ Memory) }
    {
        let records = read_keytab(alloc, bytes)?;
        Ok(Keytab { records })
    }

    /// Writes the keytab: each record with its kvno in 8 and in 32 bits, and no hole. A record that is too long is refused.
    pub fn to_bytes(&self, alloc: Global) -> Result<Vec<u8>, KeytabWriteFault>
        ensures exact { MatchResult result
            (λ bytes. (bytes.items ≡ keytab_bytes self.now) × AreWritable self.now)
            (IsWriteRefusal (AreWritable self.now)) }
        ensures laid { IfOk result (λ bytes. IsKeytab self.now bytes.items) }
    {
        let bytes = bytes_of(alloc, self.records())?;
        Ok(bytes)
    }
}

// Reads the version and the records.
fn read_keytab(alloc: Global, bytes: &[u8]) -> Result<Vec<KeytabRecord>, KeytabFault>
    ensures { Gives (λ v. v.items) result (keytab_at bytes.now) }
{
    check_version(bytes)?;
    read_records(alloc, bytes)
}

/// The law that what is written is read as the same records, of any records whose numbers and lengths fit. It does nothing.
pub fn written_is_read()
    ensures { (es : List Entry) → AreWritable es → keytab_at (keytab_bytes es) ≡ Ok es }
{}

/// The law that octets are laid out as the keytab of one list of records at most. It does nothing.
pub fn one_reading()
    ensures { (es fs : List Entry) (whole : List ℕ) → IsKeytab es whole → IsKeytab fs whole → es ≡ fs }
{}
