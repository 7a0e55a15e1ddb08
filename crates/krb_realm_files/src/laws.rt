//! What holds of every record and of every file. Each is a function that does nothing when it runs: its contract is the law.
ghost use Rattle.std.specs.Prelude.{◌≡◌, ◌≤◌, ◌<◌, ◌^◌, ℕ, List, None, Some, IsTrue, false, length};
ghost use Rattle.block_ciphers.specs.Bytes.{IsBytes};
ghost use Rattle.krb_realm_accounts.specs.Account.{AccountRecord, IsWhole};
ghost use Rattle.krb_realm_accounts.specs.Settings.{AreSettings};
ghost use Rattle.krb_realm_accounts.specs.declared.policy.Policy.{Policy};
ghost use Rattle.krb_crypto.specs.Suites.{cipher_key_size};
ghost use Rattle.krb_kdc_exchanges.specs.Calls.{AreKeyed};
ghost use Rattle.krb_realm_files.specs.AccountRecords.{account_bytes, account_in};
ghost use Rattle.krb_realm_files.specs.Files.{IsLookOf, look_of};
ghost use Rattle.krb_realm_files.specs.Means.{general_policy};
ghost use Rattle.krb_realm_files.specs.RealmRecords.{is_recorded, realm_bytes, realm_in};
ghost use Rattle.krb_realm_files.specs.declared.realm_parameters.RealmParameters.{RealmParameters};

/// The record of an account is read as that account, with its older keys and its attributes (`IsWhole`).
pub fn account_as_written()
    ensures { (account : AccountRecord) → IsWhole account → account_in (account_bytes account) ≡ Some account }
{}

/// The record of a realm is read as that realm, if its name is one of a realm, its settings are in their ranges, and logins by
/// certificate are answered by as many octets as have room.
pub fn realm_as_written()
    ensures { (realm : RealmParameters) → IsTrue (is_recorded realm) → AreSettings realm.settings.skew realm.settings.lifetime
        → realm_in (realm_bytes realm) ≡ Some realm }
{}

/// There are accounts that a file may have, whatever its octets are: those that they say, with none where they are damaged. So what
/// is said of a reply for all such accounts is said for some.
pub fn has_look()
    ensures { (bytes : List ℕ) → IsLookOf bytes (look_of bytes) }
{}

/// Each account of a file has a key of its suite's length, whatever the file's octets are. So the file's realm has a reply to each message
/// (law `has_reply` of `krb_kdc`).
pub fn are_keyed()
    ensures { (bytes : List ℕ) → IsBytes bytes → AreKeyed (look_of bytes) }
{}

/// A realm without algorithm agility judges requests by certificate by the rows of RFC 4556 alone: it has no policy beyond them (law
/// `as_before` of `pkinit_validation::policies`).
pub fn certificates_as_before()
    ensures { (policy : Policy) → policy.pkinit_agility ≡ false → general_policy policy ≡ None }
{}
