//! What holds of every settings file. Each is a function that does nothing when it runs: its contract is the law.
ghost use Rattle.std.specs.Prelude.{◌≡◌, ◌≢◌, ℕ, List};
ghost use Rattle.krb_settings.specs.Files.{HasFault, IsRealmText};
ghost use Rattle.krb_settings.specs.Written.{WrittenRealm};
ghost use Rattle.krb_settings.specs.declared.fault.SettingsFault.{SettingsFault};
ghost use Rattle.krb_settings.specs.declared.fault.SettingsFault.TheVariants as settings_fault;

/// A file writes one realm at most.
pub fn one_realm()
    ensures { (text : List ℕ) (realm other : WrittenRealm) → IsRealmText text realm → IsRealmText text other → realm ≡ other }
{}

/// A file with a fault other than `Memory` writes no realm.
pub fn no_realm_with_fault()
    ensures { (text : List ℕ) (fault : SettingsFault) (realm : WrittenRealm) → HasFault text fault → fault ≢ settings_fault.Memory
        → ¬ IsRealmText text realm }
{}
