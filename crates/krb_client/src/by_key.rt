//! Authenticating by a key.
ghost use Rattle.std.specs.Prelude.{◌≡◌, length, IfOk};
ghost use Rattle.krb_messages.specs.RandomBytes.{AreEnoughForRequest};
ghost use Rattle.krb_client.specs.Messages.{encrypted_bytes, timestamp_bytes};
ghost use Rattle.krb_tickets.specs.MethodData.{pa_data_of};
ghost use Rattle.krb_client.specs.EncryptedTimestamps.{IsSealedTime, IsPaEncTimestamp, timestamp_of};
ghost use Rattle.krb_crypto.specs.Suites.{cipher_confounder_size};

use crate::asked::AsAsked;
use crate::client::Client;
use crate::means::Means;
use crate::refusal::{AskRefusal, TakeRefusal};
use krb_constants::key_usages;
use krb_constants::padata_types::PA_ENC_TIMESTAMP;
use krb_crypto::Key;
use krb_messages::data_types::{EncryptedData, PaData, PaEncTsEnc};
use krb_messages::messages::{KdcRep, KdcReqBody};
use krb_messages::random_bytes::TIMESTAMP_CONFOUNDER;
use krb_tickets::{confounder_at, pa_data, sealed_data};
use krb_time::Moment;
use picky_asn1::date::GeneralizedTime;
use picky_asn1::wrapper::{GeneralizedTimeAsn1, IntegerAsn1};
use picky_asn1_der::{ExplicitContextTag, Optional, encoding_of};
use std::alloc::{AllocError, Global};

/// The means of a client that shares a key with its realm, as that of a password: the padata is the time sealed under the key, and
/// the reply is encrypted under it (RFC 4120, sections 3.1.3 and 5.2.7.2).
#[derive(Drop)]
pub struct ByKey {
    /// The key.
    pub key: Key,
}

impl Means for ByKey {
    ghost use Rattle.krb_client.specs.EncryptedTimestamps.{by_key};

    ghost means = { λ own. by_key own.key.suite own.key.bytes };

    fn padata(
        &self,
        alloc: Global,
        _body: &KdcReqBody,
        moment: Moment,
        words: &[u8],
    ) -> Result<PaData, AskRefusal> {
        let padata = padata_of_moment(alloc, &self.key, moment, words)?;
        Ok(padata)
    }

    fn reply_key(
        &self,
        _alloc: Global,
        _client: &Client,
        _asked: &AsAsked,
        _reply: &KdcRep,
    ) -> Result<Key, TakeRefusal> {
        Ok(self.key.copied())
    }
}

// The padata of the moment.
fn padata_of_moment(
    alloc: Global,
    key: &Key,
    moment: Moment,
    words: &[u8],
) -> Result<PaData, AllocError>
    requires { AreEnoughForRequest words.now }
    ensures { IfOk result (IsPaEncTimestamp key.now.suite key.now.bytes moment words.now) }
{
    let confounder = confounder_at(key.suite(), words, TIMESTAMP_CONFOUNDER);
    let encrypted_timestamp = sealed_time(alloc, key, moment, confounder)?;
    timestamp_padata(alloc, encrypted_timestamp)
}

// The moment, sealed under the key.
fn sealed_time(
    alloc: Global,
    key: &Key,
    moment: Moment,
    confounder: &[u8],
) -> Result<EncryptedData, AllocError>
    requires { length confounder.now ≡ cipher_confounder_size key.now.suite }
    ensures { IfOk result (IsSealedTime key.now.suite key.now.bytes moment confounder.now) }
{
    let second = moment.second();
    let plain = timestamp_bytes(alloc, second, moment.microsecond())?;
    let usage = key_usages::AS_REQ_TIMESTAMP;
    let sealed = sealed_data(alloc, key, None, usage, confounder, &plain)?;
    Ok(sealed)
}

// The encoding of the client's time.
#[tactic(auto, unfolding(crate::specs::Messages::timestamp_bytes))]
fn timestamp_bytes(
    alloc: Global,
    second: GeneralizedTime,
    microsecond: u32,
) -> Result<Vec<u8>, AllocError>
    ensures { IfOk result (λ bytes. bytes.items ≡ timestamp_bytes (timestamp_of second microsecond)) }
{
    let microsecond = IntegerAsn1::from_u64(alloc, u64::from(microsecond))?;
    let timestamp = PaEncTsEnc {
        patimestamp: ExplicitContextTag(GeneralizedTimeAsn1(second)),
        pausec: Optional(Some(ExplicitContextTag(microsecond))),
    };
    let bytes = encoding_of(alloc, timestamp)?;
    Ok(bytes)
}

// The padata with the sealed time.
#[tactic(auto, unfolding(crate::specs::Messages::encrypted_bytes))]
fn timestamp_padata(alloc: Global, encrypted_timestamp: EncryptedData) -> Result<PaData, AllocError>
    ensures { IfOk result (λ padata. padata ≡ pa_data_of PA_ENC_TIMESTAMP (encrypted_bytes encrypted_timestamp)) }
{
    let value = encoding_of(alloc, encrypted_timestamp)?;
    pa_data(alloc, PA_ENC_TIMESTAMP, value)
}
