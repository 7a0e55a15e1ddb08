//! The fields of an AuthPack that a KDC judges.
ghost use Rattle.std.specs.Prelude.{◌≡◌};
ghost use Rattle.std.specs.Option.{option_copied};
ghost use Rattle.pkinit_messages.specs.AuthPacks.{are_in_order, checksum_in, kdfs_in, time_in, value_in};
ghost use Rattle.pkinit_messages.specs.ChosenKdfs.{first_known};

use crate::agility::auth_pack::ExtensibleAuthPack;
use crate::agility::chosen_kdf::first_known;
use crate::agility::further::ascend;
use crate::agility::kdf::Kdf;
use krb_time::{Moment, moment_at};
use picky_asn1::wrapper::{IntegerAsn1, OctetStringAsn1};
use picky_asn1_der::Asn1RawDer;

impl ExtensibleAuthPack {
    /// Whether further fields ascend, each number once.
    pub fn are_in_order(&self) -> bool
        ensures { result ≡ are_in_order self.now }
    {
        ascend(4, self.further.as_slice()) && ascend(4, self.pk_authenticator.0.further.as_slice())
    }

    /// The element of clientPublicValue.
    pub fn value(&self) -> Option<&Asn1RawDer>
        ensures { option_copied result ≡ value_in self.now }
    {
        match &self.client_public_value.0 {
            Some(tagged) => Some(&tagged.0),
            None => None,
        }
    }

    /// The time of ctime and cusec, or none where cusec is no part of a second.
    #[tactic(auto, unfolding(crate::specs::AuthPacks::time_in))]
    pub fn time(&self) -> Option<Moment>
        ensures { result ≡ time_in self.now }
    {
        let authenticator = &self.pk_authenticator.0;
        moment_at(authenticator.ctime.0.0, &authenticator.cusec.0)
    }

    /// The nonce of pkAuthenticator.
    pub fn nonce(&self) -> &IntegerAsn1
        ensures { result.now ≡ self.now.pk_authenticator.0.nonce.0 }
    {
        &self.pk_authenticator.0.nonce.0
    }

    /// paChecksum.
    pub fn checksum(&self) -> Option<&OctetStringAsn1>
        ensures { option_copied result ≡ checksum_in self.now }
    {
        match &self.pk_authenticator.0.pa_checksum.0 {
            Some(tagged) => Some(&tagged.0),
            None => None,
        }
    }

    /// The first key derivation function of supportedKDFs that is known here.
    pub fn kdf(&self) -> Option<Kdf>
        ensures { result ≡ first_known (kdfs_in self.now) }
    {
        match &self.supported_kdfs.0 {
            Some(tagged) => first_known(tagged.0.as_slice()),
            None => None,
        }
    }
}
