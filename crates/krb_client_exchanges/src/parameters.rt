//! The parameters of a suite's keys of passwords.
ghost use Rattle.std.specs.Prelude.{◌≡◌};
ghost use Rattle.krb_client_exchanges.specs.Parameters.{are_parameters, has_own_parameters, iterations};

use encryption_profiles::aes::AES_ITERATIONS;
use encryption_profiles::aes_sha2::AES_SHA2_ITERATIONS;
use krb_crypto::CipherSuite;
use krb_messages::data_types::EtypeInfo2Entry;

/// Whether the entry has no `s2kparams`, or the suite's own.
pub(crate) fn has_own_parameters(suite: CipherSuite, entry: &EtypeInfo2Entry) -> bool
    ensures { result ≡ has_own_parameters suite entry.now }
{
    match &entry.s2kparams.0 {
        Some(parameters) => are_parameters(suite, parameters.0.as_bytes()),
        None => true,
    }
}

// Whether the octets are the suite's own parameters.
fn are_parameters(suite: CipherSuite, octets: &[u8]) -> bool
    ensures { result ≡ are_parameters suite octets.now }
{
    match iterations(suite) {
        Some(count) => octets == count.to_be_bytes().as_slice(),
        None => octets.is_empty(),
    }
}

// The iteration count by which the suite makes a key of a password, or none of triple DES.
fn iterations(suite: CipherSuite) -> Option<u32>
    ensures { result ≡ iterations suite }
{
    match suite {
        CipherSuite::Aes128CtsHmacSha196 | CipherSuite::Aes256CtsHmacSha196 => Some(AES_ITERATIONS),
        CipherSuite::Des3CbcSha1Kd => None,
        CipherSuite::Aes128CtsHmacSha256128 | CipherSuite::Aes256CtsHmacSha384192 => {
            Some(AES_SHA2_ITERATIONS)
        }
    }
}
