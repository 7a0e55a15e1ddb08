//! The encrypted timestamp of a client, under its own key (RFC 4120, section 5.2.7.2).
ghost use Rattle.std.specs.Prelude.{◌≡◌, IfOk};
ghost use Rattle.picky_asn1_der.specs.Found.{IsFound};
ghost use Rattle.krb_kdc_exchanges.specs.EncryptedTimestamps.{IsEncryptedTimestamp, moment_of};

use krb_constants::key_usages;
use krb_messages::data_types::{EncryptedData, PaEncTsEnc};
use krb_realm_accounts::Account;
use krb_tickets::open_sealed;
use krb_time::{Moment, moment_at};
use picky_asn1_der::read_whole;
use std::alloc::{AllocError, Global};

/// Decrypts the encrypted timestamp that a padata's value encodes, with the account's key. `None` where the bytes aren't one
/// EncryptedData, or don't decrypt to one PA-ENC-TS-ENC.
pub fn open_encrypted_timestamp(
    alloc: Global,
    account: &Account,
    bytes: &[u8],
) -> Result<Option<PaEncTsEnc>, AllocError>
    ensures { IfOk result (IsFound (IsEncryptedTimestamp account.now bytes.now)) }
{
    let read: Option<EncryptedData> = read_whole(alloc, bytes)?;
    let Some(sealed) = read else {
        return Ok(None);
    };
    let timestamp = open_sealed(alloc, account.key(), key_usages::AS_REQ_TIMESTAMP, &sealed);
    drop(sealed);
    timestamp
}

/// The moment of a timestamp, or none if its `pausec` is no part of a second. A missing `pausec` is zero.
#[tactic(auto, unfolding(crate::specs::EncryptedTimestamps::moment_of))]
pub fn moment_of(timestamp: &PaEncTsEnc) -> Option<Moment>
    ensures { result ≡ moment_of timestamp.now }
{
    let time = timestamp.patimestamp.0.0;
    match &timestamp.pausec.0 {
        Some(tagged) => moment_at(time, &tagged.0),
        None => Some(Moment::at(time, 0)),
    }
}
