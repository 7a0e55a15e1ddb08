//! A realm's settings.
ghost use Rattle.std.specs.Prelude.{◌≡◌, ◌≤◌, IfErr};
ghost use Rattle.std.specs.Result.{OkIff};
ghost use Rattle.krb_realm_accounts.specs.Settings.{IsSkew, IsLifetime};
ghost use Rattle.krb_realm_accounts.specs.declared.policy.TheConstants.{NO_POLICY};

use crate::policy::{NO_POLICY, Policy};
use crate::refusal::RealmRefusal;
use std::marker::Model;

/// The most seconds by which clocks may be allowed to differ: a day.
pub const SKEW_LIMIT: u64 = 86_400;

/// The most seconds for which tickets may be allowed to last: a year of 365 days.
pub const LIFETIME_LIMIT: u64 = 31_536_000;

/// How many seconds clocks may differ where nothing else is asked for: five minutes.
pub const USUAL_SKEW: u64 = 300;

/// How many seconds tickets last where nothing else is asked for: ten hours.
pub const USUAL_LIFETIME: u64 = 36_000;

/// A realm's settings: how far clocks may differ, how long tickets last, and its policy. A contract sees all three.
#[derive(Clone, Copy, Debug, PartialEq, Eq)]
pub struct Settings {
    skew: u64,
    lifetime: u64,
    policy: Policy,
}

impl Model for Settings {
    ghost use Rattle.krb_realm_accounts.specs.Settings.{SettingsRecord, AreSettings};

    ghost Value = { SettingsRecord };

    ghost view = { λ s. record { skew = s.skew; lifetime = s.lifetime; policy = s.policy } };

    ghost invariant = { λ s. AreSettings s.skew s.lifetime };

    ghost inverse = { λ r. record { skew = r.skew; lifetime = r.lifetime; policy = r.policy } };
}

impl Settings {
    ghost use Rattle.krb_realm_accounts.specs.Settings.{AreSettings};

    /// Settings of a skew of 0 to 86,400 seconds and a lifetime of 1 to 31,536,000 seconds, with no policy. Others are
    /// refused.
    pub fn new(skew: u64, lifetime: u64) -> Result<Settings, RealmRefusal>
        ensures value { OkIff result (AreSettings skew lifetime) (record { skew = skew; lifetime = lifetime; policy = NO_POLICY }) }
        ensures refusal { IfErr result (λ e. e ≡ RealmRefusal.BadSetting) }
    {
        Settings::of_policy(skew, lifetime, NO_POLICY)
    }

    /// Settings of such a skew and lifetime, with this policy. Others are refused.
    pub fn of_policy(skew: u64, lifetime: u64, policy: Policy) -> Result<Settings, RealmRefusal>
        ensures value { OkIff result (AreSettings skew lifetime) (record { skew = skew; lifetime = lifetime; policy = policy }) }
        ensures refusal { IfErr result (λ e. e ≡ RealmRefusal.BadSetting) }
    {
        if skew <= SKEW_LIMIT && 1 <= lifetime && lifetime <= LIFETIME_LIMIT {
            Ok(Settings {
                skew,
                lifetime,
                policy,
            })
        } else {
            Err(RealmRefusal::BadSetting)
        }
    }

    /// These settings with this policy in place of theirs.
    pub fn with_policy(self, policy: Policy) -> Settings
        ensures { result ≡ record { skew = self.skew; lifetime = self.lifetime; policy = policy } }
    {
        Settings { policy, ..self }
    }

    /// The policy.
    pub fn policy(self) -> Policy
        ensures { result ≡ self.policy }
    {
        self.policy
    }

    /// How many seconds clocks may differ.
    pub fn skew(self) -> u64
        ensures value { result ≡ self.skew }
        ensures in_range { IsSkew result }
    {
        self.skew
    }

    /// How many seconds a ticket lasts at most.
    pub fn lifetime(self) -> u64
        ensures value { result ≡ self.lifetime }
        ensures in_range { IsLifetime result }
    {
        self.lifetime
    }
}
