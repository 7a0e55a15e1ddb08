//! A realm's settings.
ghost use Rattle.std.specs.Prelude.{◌≡◌, ◌⊎◌, Err, IfOk, IsSome, MatchResult};
ghost use Rattle.std.specs.Option.{option_copied, option_map};
ghost use Rattle.krb_realm_accounts.specs.Settings.{AreSettings};
ghost use Rattle.pkinit_validation.specs.Trust.{trust_of};
ghost use Rattle.krb_realm_accounts.specs.declared.policy.TheConstants.{NO_POLICY};
ghost use Rattle.krb_memory_realms.specs.Settings.{IsCertificateIf, IsOwnCertificate, settings_by, with_policy};

use krb_realm_accounts::{Policy, RealmRefusal, Settings as Limits};
use pkinit_validation::{Anchor, RealmPkinit};
use std::alloc::{AllocError, Global};
use std::marker::Model;
use x509_keys::KeyFunctions;
use x509_spelling::X509Fault;

/// A realm's settings: how far clocks may differ, how long tickets last, and its policy; and for clients that authenticate by certificate
/// (RFC 4556), the authority that the realm trusts to issue their certificates, and the realm's own certificate. A contract
/// sees them.
#[derive(Drop)]
pub struct Settings {
    limits: Limits,
    anchor: Option<Anchor>,
    certificate: Option<Vec<u8>>,
}

impl Model for Settings {
    ghost use Rattle.std.specs.Option.{option_map};
    ghost use Rattle.krb_memory_realms.specs.Settings.{SettingsState};

    ghost Value = { SettingsState };

    ghost view = { λ s. record {
      limits = s.limits;
      trust = record { anchor = s.anchor; certificate = option_map (λ bytes. bytes.items) s.certificate };
    } };
}

impl Settings {
    /// Settings of a skew of 0 to 86,400 seconds and a lifetime of 1 to 31,536,000 seconds, with no policy. Others are `BadSetting`.
    ///
    /// Clients authenticate by certificate where an anchor and an own certificate are given. The own certificate may have any of
    /// the accepted spellings, and bytes that are no certificate are `BadSetting`. It isn't compared with the anchor or the
    /// realm's name. Without it no memory is taken.
    pub fn new(
        alloc: Global,
        skew: u64,
        lifetime: u64,
        anchor: Option<Anchor>,
        certificate: Option<&[u8]>,
    ) -> Result<Settings, RealmRefusal>
        ensures made { MatchResult result
            (λ settings. AreSettings skew lifetime × IsOwnCertificate (option_copied certificate.entry)
            × (settings ≡ settings_by skew lifetime anchor (option_copied certificate.entry)))
            (λ refusal. (refusal ≡ RealmRefusal.Memory)
            ⊎ ((refusal ≡ RealmRefusal.BadSetting) × ¬ (AreSettings skew lifetime × IsOwnCertificate (option_copied certificate.entry)))) }

        // Running out of memory hides no number that is out of its range.
        ensures first { ¬ AreSettings skew lifetime → result ≡ Err RealmRefusal.BadSetting }
        ensures memory { result ≡ Err RealmRefusal.Memory → IsSome (option_copied certificate.entry) }
    {
        match limits_and_certificate(alloc, skew, lifetime, certificate) {
            Ok((limits, certificate)) => Ok(Settings {
                limits,
                anchor,
                certificate,
            }),
            Err(refusal) => {
                drop(anchor);
                Err(refusal)
            }
        }
    }

    /// These settings with this policy in place of theirs.
    pub fn with_policy(self, policy: Policy) -> Settings
        ensures { result ≡ with_policy policy self }
    {
        Settings {
            limits: self.limits.with_policy(policy),
            anchor: self.anchor,
            certificate: self.certificate,
        }
    }

    /// Gives the limits: how far clocks may differ, how long tickets last, and the policy.
    pub(crate) fn limits(&self) -> Limits
        ensures { result ≡ self.now.limits }
    {
        self.limits
    }

    /// Borrows what requests by certificate are judged by: the anchor, the own certificate, and these key functions.
    pub fn pkinit<'a, K: KeyFunctions>(&'a self, keys: &'a K) -> RealmPkinit<'a, K>
        ensures trust { trust_of result.anchor result.certificate ≡ self.now.trust }
        ensures keys { result.keys.now ≡ keys.now }
    {
        RealmPkinit {
            anchor: self.anchor.as_ref(),
            certificate: self.certificate(),
            keys,
        }
    }

    // Borrows the realm's own certificate.
    fn certificate(&self) -> Option<&[u8]>
        ensures { option_copied result ≡ self.now.trust.certificate }
    {
        match &self.certificate {
            Some(bytes) => Some(bytes.as_slice()),
            None => None,
        }
    }
}

// Makes the limits, and copies the own certificate.
fn limits_and_certificate(
    alloc: Global,
    skew: u64,
    lifetime: u64,
    certificate: Option<&[u8]>,
) -> Result<(Limits, Option<Vec<u8>>), RealmRefusal>
    ensures made { MatchResult result
        (λ parts. AreSettings skew lifetime × IsOwnCertificate (option_copied certificate.entry)
        × (parts.0 ≡ record { skew = skew; lifetime = lifetime; policy = NO_POLICY }) × (option_map (λ bytes. bytes.items) parts.1 ≡ option_copied certificate.entry))
        (λ refusal. (refusal ≡ RealmRefusal.Memory)
        ⊎ ((refusal ≡ RealmRefusal.BadSetting) × ¬ (AreSettings skew lifetime × IsOwnCertificate (option_copied certificate.entry)))) }
    ensures first { ¬ AreSettings skew lifetime → result ≡ Err RealmRefusal.BadSetting }
    ensures memory { result ≡ Err RealmRefusal.Memory → IsSome (option_copied certificate.entry) }
{
    let limits = Limits::new(skew, lifetime)?;
    let Some(bytes) = certificate else {
        return Ok((limits, None));
    };
    if !is_certificate(alloc, bytes)? {
        return Err(RealmRefusal::BadSetting);
    }
    let own = Vec::from_slice(alloc, bytes)?;
    Ok((limits, Some(own)))
}

/// Whether the bytes are a spelling of a certificate. What is read is kept as its holder alone, since a certificate is dear to drop.
pub fn is_certificate(alloc: Global, bytes: &[u8]) -> Result<bool, AllocError>
    ensures { IfOk result (IsCertificateIf bytes.now) }
{
    match Anchor::from_certificate(alloc, bytes) {
        Ok(holder) => {
            drop(holder);
            Ok(true)
        }
        Err(fault) => {
            if fault == X509Fault::Memory {
                return Err(AllocError);
            }
            Ok(false)
        }
    }
}
