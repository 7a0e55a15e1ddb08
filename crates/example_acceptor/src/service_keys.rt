//! The keys of a service in a keytab, by which PACs are verified.

use krb_crypto::Key;
use krb_file_formats::{Keytab, KeytabRecord};
use picky_asn1::wrapper::GeneralStringAsn1;
use std::alloc::{AllocError, Global};

/// A service's name in its realm, and its keys in a keytab.
#[derive(Drop)]
pub(crate) struct ServiceKeys {
    realm: Vec<u8>,
    components: Vec<Vec<u8>>,
    keys: Vec<Key>,
}

impl ServiceKeys {
    /// The service of this realm and this name. It has no keys yet.
    pub(crate) fn new(alloc: Global, realm: Vec<u8>, components: Vec<Vec<u8>>) -> ServiceKeys {
        ServiceKeys {
            realm,
            components,
            keys: Vec::new(alloc),
        }
    }

    /// The keys.
    pub(crate) fn as_slice(&self) -> &[Key] {
        self.keys.as_slice()
    }

    /// Takes the keys in a keytab in place of those that it has.
    pub(crate) fn replace(&mut self, alloc: Global, keytab: &Keytab) -> Result<(), AllocError> {
        let keys = self.keys_in(alloc, keytab)?;
        self.keys = keys;
        Ok(())
    }

    // The service's keys in a keytab.
    fn keys_in(&self, alloc: Global, keytab: &Keytab) -> Result<Vec<Key>, AllocError> {
        let mut keys = Vec::new(alloc);
        for key_record in keytab.records() {
            if let Some(key) = self.key_of(key_record) {
                keys.push(key)?;
            }
        }
        Ok(keys)
    }

    // The key of a record, if it is one of the service.
    fn key_of(&self, key_record: &KeytabRecord) -> Option<Key> {
        if key_record.realm().as_bytes() != self.realm.as_slice() {
            return None;
        }
        if !have_octets(key_record.components(), self.components.as_slice()) {
            return None;
        }
        key_record.cipher_key()
    }
}

// Whether these components have these octets.
fn have_octets(components: &[GeneralStringAsn1], name: &[Vec<u8>]) -> bool {
    if components.len() != name.len() {
        return false;
    }
    let mut same = true;
    for place in 0..name.len() {
        same &= components[place].as_bytes() == name[place].as_slice();
    }
    same
}
