//! Texts of what calls give.

use krb_realm::{Admission, CipherSuite, EncryptionKey, GeneralizedTime, PrincipalName};
use std::fmt::Debug;
use test_support::Told;

pub(crate) fn refused<E: Debug>(told: &mut Told, refusal: &E) {
    told.put("refused: ");
    told.debug(refusal);
}

/// What a call without a value gives.
pub(crate) fn done<E: Debug + Drop>(told: &mut Told, made: Result<(), E>) {
    match made {
        Ok(()) => told.put("ok"),
        Err(refusal) => refused(told, &refusal),
    }
}

/// A name's components, which slashes divide.
pub(crate) fn name_text(told: &mut Told, name: &PrincipalName) {
    let mut separator = "";
    for component in name.name_string.0.as_slice() {
        told.put(separator);
        told.utf8(component.as_bytes());
        separator = "/";
    }
}

pub(crate) fn admission_text(told: &mut Told, admission: &Admission) {
    told.put("client ");
    name_text(told, &admission.client);
    told.put(" in ");
    told.utf8(admission.realm.as_bytes());
    told.put(" key ");
    key_text(told, &admission.session);
    told.put(" subkey ");
    match &admission.subkey {
        Some(key) => key_text(told, key),
        None => told.put("none"),
    }
    told.put(" reply ");
    told.put(if admission.reply.is_some() {
        "one"
    } else {
        "none"
    });
}

/// The client's key, and what the service admitted.
pub(crate) fn login_text(told: &mut Told, key: &EncryptionKey, admission: &Admission) {
    told.put("key ");
    key_text(told, key);
    told.put(" admitted ");
    admission_text(told, admission);
}

/// The times and flags of the admitted ticket.
pub(crate) fn admitted_times(told: &mut Told, admission: &Admission) {
    let a = admission;
    times_text(told, a.authtime, a.starttime, a.endtime, a.flags.as_bytes());
}

/// A ticket's times, and its flags as octets.
pub(crate) fn times_text(
    told: &mut Told,
    authtime: GeneralizedTime,
    starttime: GeneralizedTime,
    endtime: GeneralizedTime,
    flags: &[u8],
) {
    told.put("from ");
    told.show(&authtime);
    told.put(" start ");
    told.show(&starttime);
    told.put(" end ");
    told.show(&endtime);
    told.put(" flags ");
    told.octets(flags);
}

/// A key's type.
pub(crate) fn key_type_text(told: &mut Told, key: &EncryptionKey) {
    match key.key_type.0.to_i64() {
        Some(key_type) => told.show(&key_type),
        None => told.put("a key type of more than 64 bits"),
    }
}

/// Writes a key's type and its octets.
pub(crate) fn key_text(told: &mut Told, key: &EncryptionKey) {
    key_type_text(told, key);
    told.put(" ");
    told.octets(key.key_value.0.as_bytes());
}

/// Writes the number of a key's suite and the key's octets.
pub(crate) fn suite_key_text(told: &mut Told, suite: CipherSuite, key: &[u8]) {
    told.show(&usize::from(suite));
    told.put(" ");
    told.octets(key);
}
