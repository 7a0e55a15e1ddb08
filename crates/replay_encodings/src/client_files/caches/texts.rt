//! The text of a cache: names and octets in hexadecimal, and numbers. Of a ticket it has the length.

use krb_file_formats::{
    CachePrincipal, CachedCredential, CredentialCache, CredentialTimes, TypedOctets,
};
use test_support::Told;

/// Writes a cache.
pub(crate) fn put_cache(text: &mut Told, cache: &CredentialCache) {
    for tag in &cache.tags {
        put_octets(text, tag.kind, &tag.octets);
        text.put(" ");
    }
    put_principal(text, &cache.default_principal);
    put_credentials(text, &cache.credentials);
}

fn put_credentials(text: &mut Told, credentials: &[CachedCredential]) {
    for one in credentials {
        put_parties(text, one);
        put_times(text, one.times);
        put_contents(text, one);
    }
}

/// Writes a number, and octets in hexadecimal.
fn put_octets(text: &mut Told, kind: u16, octets: &[u8]) {
    text.show(&kind);
    text.put(":");
    text.octets(octets);
}

/// Writes a name.
fn put_principal(text: &mut Told, name: &CachePrincipal) {
    text.show(&name.name_type);
    for component in &name.components {
        text.put("/");
        text.octets(component.as_bytes());
    }
    text.put("@");
    text.octets(name.realm.as_bytes());
    if name.is_configuration() {
        text.put(" configuration");
    }
}

/// Writes the names and the key of a credential.
fn put_parties(text: &mut Told, one: &CachedCredential) {
    text.put("; ");
    put_principal(text, &one.client);
    text.put(" ");
    put_principal(text, &one.server);
    text.put(" ");
    put_octets(text, one.key.kind, &one.key.octets);
}

/// Writes times.
fn put_times(text: &mut Told, times: CredentialTimes) {
    for time in [
        times.authtime,
        times.starttime,
        times.endtime,
        times.renew_till,
    ] {
        text.put(" ");
        text.show(&time);
    }
}

/// Writes whether the key is a session key, the flags, the addresses, the authorization data, and the lengths of the tickets.
fn put_contents(text: &mut Told, one: &CachedCredential) {
    text.put(" ");
    text.show(&one.is_skey);
    text.put(" ");
    text.show(&one.flags);
    put_list(text, &one.addresses);
    put_list(text, &one.authorization_data);
    text.put(" ");
    text.show(&one.ticket.len());
    text.put(" ");
    text.show(&one.second_ticket.len());
}

/// Writes addresses or authorization data.
fn put_list(text: &mut Told, items: &[TypedOctets]) {
    text.put(" (");
    for item in items {
        text.put(" ");
        put_octets(text, item.kind, &item.octets);
    }
    text.put(")");
}
