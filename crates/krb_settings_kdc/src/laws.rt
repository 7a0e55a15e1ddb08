//! What holds of every settings file. Each is a function that does nothing when it runs: its contract is the law.
ghost use Rattle.std.specs.Prelude.{◌≡◌, ◌≢◌, ℕ, List};
ghost use Rattle.krb_memory_realms.specs.Realm.{RealmState};
ghost use Rattle.krb_settings_kdc.specs.Files.{HasFault, IsRealmFile};
ghost use Rattle.krb_settings_kdc.specs.declared.fault.RealmFault.{RealmFault};
ghost use Rattle.krb_settings_kdc.specs.declared.fault.RealmFault.TheVariants as realm_fault;

/// A file writes one realm at most.
pub fn one_realm()
    ensures { (text : List ℕ) (realm other : RealmState) → IsRealmFile text realm → IsRealmFile text other → realm ≡ other }
{}

/// A file with a fault other than `Memory` writes no realm.
pub fn no_realm_with_fault()
    ensures { (text : List ℕ) (fault : RealmFault) (realm : RealmState) → HasFault text fault → fault ≢ realm_fault.Memory
        → ¬ IsRealmFile text realm }
{}
