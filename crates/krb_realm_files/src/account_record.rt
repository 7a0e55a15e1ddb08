//! The record of an account.
ghost use Rattle.std.specs.Prelude.{◌≡◌, ◌≤◌, IfOk, length};
ghost use Rattle.std.specs.Option.{option_map};
ghost use Rattle.krb_realm_files.specs.declared.format.TheConstants.{ACCOUNT_HEAD};
ghost use Rattle.krb_realm_files.specs.AccountRecords.{account_behind, account_bytes, account_in, with_further};
ghost use Rattle.krb_realm_files.specs.FurtherFields.{further_in};
ghost use Rattle.krb_realm_files.specs.Reading.{IsReadAs};

use crate::fault::RecordFault;
use crate::format::{ACCOUNT_HEAD, ATTRIBUTES, OLDER_KEYS, RECORD_VERSION};
use crate::further_fields::{
    attributes_front, former_front, marks_of, put_further, salt_in, suite_numbered,
};
use byte_streams::u32_le;
use krb_crypto::{CipherSuite, Key};
use krb_realm_accounts::Account;
use std::alloc::{AllocError, Global};

/// Returns the account whose record the octets are. It refuses as `Damaged` if they are no account's record, and as `Memory` if memory
/// runs out.
#[tactic(auto, unfolding(crate::specs::AccountRecords::account_in))]
pub fn read_account(alloc: Global, bytes: &[u8]) -> Result<Account, RecordFault>
    ensures { IsReadAs (account_in bytes.now) result }
{
    if bytes.len() < ACCOUNT_HEAD || bytes[0] != RECORD_VERSION {
        return Err(RecordFault::Damaged);
    }
    let Some(suite) = suite_numbered(bytes[1]) else {
        return Err(RecordFault::Damaged);
    };
    read_behind(alloc, suite, bytes)
}

// Returns the same of an account of this suite.
#[tactic(auto, unfolding(crate::specs::AccountRecords::account_behind))]
fn read_behind(alloc: Global, suite: CipherSuite, bytes: &[u8]) -> Result<Account, RecordFault>
    requires { ACCOUNT_HEAD ≤ length bytes.now }
    ensures { IsReadAs (account_behind suite bytes.now) result }
{
    let kvno = u32_le(bytes, 2);
    let size = suite.key_size();
    if kvno == 0 || bytes.len() - ACCOUNT_HEAD < size {
        return Err(RecordFault::Damaged);
    }
    let Ok(key) = Key::new(suite, &bytes[ACCOUNT_HEAD..ACCOUNT_HEAD + size]) else {
        return Err(RecordFault::Damaged);
    };
    read_further(alloc, key, kvno, bytes[6], &bytes[ACCOUNT_HEAD + size..])
}

// Returns the account of this key, with what stands behind it, by the marks.
#[tactic(auto, unfolding(crate::specs::FurtherFields::further_in))]
fn read_further(
    alloc: Global,
    key: Key,
    kvno: u32,
    marks: u8,
    octets: &[u8],
) -> Result<Account, RecordFault>
    requires { 1 ≤ kvno }
    ensures { IsReadAs (option_map (with_further key.suite kvno key.bytes) (further_in kvno marks octets.now)) result }
{
    if 8 <= marks {
        return Err(RecordFault::Damaged);
    }
    let Some(front) = attributes_front(marks / ATTRIBUTES % 2 == 1, octets) else {
        return Err(RecordFault::Damaged);
    };
    let former = former_front(alloc, marks / OLDER_KEYS % 2 == 1, kvno, front.rest)?;
    let salt = salt_in(alloc, marks % 2 == 1, former.rest)?;
    Ok(Account::of_keys(key, kvno, salt, former.keys, front.attributes))
}

/// Returns the record of an account. It fails only if memory runs out.
#[tactic(auto, unfolding(crate::specs::AccountRecords::account_bytes, byte_streams::specs::Numbers::le32))]
pub fn account_bytes(alloc: Global, account: &Account) -> Result<Vec<u8>, AllocError>
    ensures { IfOk result (λ bytes. bytes.items ≡ account_bytes account.now) }
{
    let number = u8::from(account.suite());
    let mut bytes = vec![in alloc; RECORD_VERSION, number]?;
    bytes.extend_from_slice(&account.kvno().to_le_bytes())?;
    bytes.push(marks_of(account))?;
    bytes.extend_from_slice(account.key().as_bytes())?;
    put_further(&mut bytes, account)?;
    Ok(bytes)
}
