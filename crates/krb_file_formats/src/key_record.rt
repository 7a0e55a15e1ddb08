//! Key records of a keytab.
ghost use Rattle.std.specs.Prelude.{◌≡◌, ◌≢◌, length, MatchOption};
ghost use Rattle.krb_crypto.specs.Suites.{cipher_key_size, cipher_number};
ghost use Rattle.krb_crypto.specs.declared.suite.CipherSuite.{CipherSuite as Suite};

use krb_crypto::{CipherSuite, Key};
use picky_asn1::wrapper::GeneralStringAsn1;
use std::alloc::AllocError;
use std::marker::Model;

/// A key record: a principal, and one of its keys with the etype, the kvno and the time. A contract sees these.
#[derive(Drop)]
pub struct KeytabRecord {
    pub(crate) realm: GeneralStringAsn1,
    pub(crate) components: Vec<GeneralStringAsn1>,
    pub(crate) name_type: u32,
    pub(crate) timestamp: u32,
    pub(crate) kvno: u32,
    pub(crate) etype: u16,
    pub(crate) key: Vec<u8>,
}

impl Model for KeytabRecord {
    ghost use Rattle.krb_file_formats.specs.Entries.{Entry};

    ghost Value = { Entry };

    ghost view = { λ r. record {
      realm = r.realm;
      components = r.components.items;
      name_type = r.name_type;
      timestamp = r.timestamp;
      kvno = r.kvno;
      etype = r.etype;
      key = r.key.items;
    } };
}

impl KeytabRecord {
    /// Makes the record of this principal and this key. The name type is RFC 4120's in 32 bits (section 6.2), the timestamp seconds
    /// since the start of 1970, and the etype that of the key (RFC 3961, section 8).
    pub fn new(
        realm: GeneralStringAsn1,
        components: Vec<GeneralStringAsn1>,
        name_type: u32,
        timestamp: u32,
        kvno: u32,
        etype: u16,
        key: Vec<u8>,
    ) -> KeytabRecord
        ensures { result ≡ record {
          realm = realm;
          components = components.items;
          name_type = name_type;
          timestamp = timestamp;
          kvno = kvno;
          etype = etype;
          key = key.items;
        } }
    {
        KeytabRecord {
            realm,
            components,
            name_type,
            timestamp,
            kvno,
            etype,
            key,
        }
    }

    /// The principal's realm.
    pub fn realm(&self) -> &GeneralStringAsn1
        ensures { result.now ≡ self.now.realm }
    {
        &self.realm
    }

    /// The components of the principal's name.
    pub fn components(&self) -> &[GeneralStringAsn1]
        ensures { result.now ≡ self.now.components }
    {
        self.components.as_slice()
    }

    /// The name type (RFC 4120, section 6.2), in two's complement.
    pub fn name_type(&self) -> u32
        ensures { result ≡ self.now.name_type }
    {
        self.name_type
    }

    /// When the record was written, in seconds since the start of 1970.
    pub fn timestamp(&self) -> u32
        ensures { result ≡ self.now.timestamp }
    {
        self.timestamp
    }

    /// The key's kvno.
    pub fn kvno(&self) -> u32
        ensures { result ≡ self.now.kvno }
    {
        self.kvno
    }

    /// The key's etype.
    pub fn etype(&self) -> u16
        ensures { result ≡ self.now.etype }
    {
        self.etype
    }

    /// The key's octets.
    pub fn key_octets(&self) -> &[u8]
        ensures { result.now ≡ self.now.key }
    {
        self.key.as_slice()
    }

    /// The key with its suite: none where no suite has the etype, or the suite's keys have another length.
    pub fn cipher_key(&self) -> Option<Key>
        ensures { MatchOption result
            ((suite : Suite) → cipher_number suite ≡ self.now.etype → length self.now.key ≢ cipher_key_size suite)
            (λ key. (cipher_number key.suite ≡ self.now.etype) × (key.bytes ≡ self.now.key)) }
    {
        let Ok(suite) = CipherSuite::try_from(usize::from(self.etype)) else {
            return None;
        };
        key_of(suite, self.key_octets())
    }
}

impl Clone for KeytabRecord {
    ghost is_clone = { λ entry copy. copy ≡ entry };

    fn clone(&self) -> Result<KeytabRecord, AllocError> {
        let realm = self.realm.clone()?;
        let components = self.components.clone()?;
        let key = self.key.clone()?;
        Ok(KeytabRecord {
            realm,
            components,
            name_type: self.name_type,
            timestamp: self.timestamp,
            kvno: self.kvno,
            etype: self.etype,
            key,
        })
    }
}

/// Records are the same where each field is.
impl PartialEq for KeytabRecord {
    ghost use Rattle.std.specs.Bool.{nat_eq};
    ghost use Rattle.std.specs.Cmp.Lexicographic.{pointwise};
    ghost use Rattle.std.specs.Cmp.Rules.{comparing};
    ghost use Rattle.std.specs.Ordering.{on, eq_of_both};
    ghost use Rattle.std.proofs.Common.{rules};

    ghost eq = { eq_of_both (on (λ r. r.realm) (pointwise nat_eq))
        (eq_of_both (on (λ r. r.components) (pointwise (pointwise nat_eq)))
        (eq_of_both (on (λ r. r.name_type) nat_eq) (eq_of_both (on (λ r. r.timestamp) nat_eq)
        (eq_of_both (on (λ r. r.kvno) nat_eq) (eq_of_both (on (λ r. r.etype) nat_eq)
        (on (λ r. r.key) (pointwise nat_eq))))))) };

    ghost laws = { Prim.search (comparing, rules) depth 16 };

    fn eq(&self, other: &KeytabRecord) -> bool {
        self.realm == other.realm
            && self.components() == other.components()
            && self.name_type == other.name_type
            && self.timestamp == other.timestamp
            && self.kvno == other.kvno
            && self.etype == other.etype
            && self.key_octets() == other.key_octets()
    }
}

impl Eq for KeytabRecord {
    ghost use Rattle.std.specs.Cmp.Rules.{comparing};
    ghost use Rattle.std.proofs.Common.{rules};

    ghost laws = { Prim.search (comparing, rules) depth 16 };
}

// Returns the key of a suite, if it has the length of the suite's keys.
fn key_of(suite: CipherSuite, octets: &[u8]) -> Option<Key>
    ensures { MatchOption result (length octets.now ≢ cipher_key_size suite)
        (λ key. (key.suite ≡ suite) × (key.bytes ≡ octets.now)) }
{
    let Ok(key) = Key::new(suite, octets) else {
        return None;
    };
    Some(key)
}
