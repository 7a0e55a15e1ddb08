//! What comes out, as text.

use crate::told::{key_text, key_type_text, name_text};
use krb_realm::{Admission, EncryptionKey};
use test_support::Told;

/// Writes the client, the session key, the subkey and the reply of an admission.
pub(crate) fn tell_admission(told: &mut Told, admission: &Admission) {
    told.put("Ok client ");
    name_text(told, &admission.client);
    told.put(" in ");
    told.utf8(admission.realm.as_bytes());
    told.put(" key ");
    told.octets(admission.session.key_value.0.as_bytes());
    told.put(" subkey ");
    match &admission.subkey {
        Some(key) => key_text(told, key),
        None => told.put("none"),
    }
    told.put(" reply ");
    match &admission.reply {
        Some(reply) => told.octets(reply),
        None => told.put("none"),
    }
}

/// Writes the client's key and its type, and the client's name and realm as the service has them.
pub(crate) fn tell_login(told: &mut Told, key: &EncryptionKey, admission: &Admission) {
    told.put("Ok ");
    told.octets(key.key_value.0.as_bytes());
    told.put(" ");
    key_type_text(told, key);
    told.put(" ");
    name_text(told, &admission.client);
    told.put(" ");
    told.utf8(admission.realm.as_bytes());
}
