//! Keys of shared secrets by the key derivation functions of RFC 8636, and replies that name one.

use crate::row::Vector;
use crate::sealing::is;
use krb_crypto::CipherSuite;
use krb_messages::data_types::PrincipalName;
use picky_asn1::oid::ObjectIdentifier;
use picky_asn1_der::read_whole;
use pkinit_messages::agility::{Kdf, KdfContext, PartyName, agile_reply_bytes, derived_key};
use std::alloc::Global;

/// Secret, client, service, AS-REQ, PA-PK-AS-REP and key, which is empty where the function isn't known.
pub(crate) fn is_derived(alloc: Global, row: &Vector<'_>) -> bool {
    let [secret, client, service, as_req, rep, key] = row.columns.as_slice() else {
        return false;
    };
    let (Some(client), Some(service)) = (party(alloc, client), party(alloc, service)) else {
        return false;
    };
    let context = context_of(&client, &service, as_req, rep);
    match function(alloc, row.usage()) {
        Some(kdf) => is_key(alloc, row.size(), kdf, secret, &context, key),
        None => key.is_empty(),
    }
}

fn context_of<'a>(
    client: &'a PartyName,
    service: &'a PartyName,
    as_req: &'a [u8],
    pk_as_rep: &'a [u8],
) -> KdfContext<'a> {
    KdfContext {
        realm: &client.realm.0,
        client: name_of(client),
        service: name_of(service),
        as_req,
        pk_as_rep,
    }
}

fn name_of(party: &PartyName) -> Option<&PrincipalName> {
    Some(&party.principal_name.0)
}

fn is_key(
    alloc: Global,
    suite: usize,
    kdf: Kdf,
    secret: &[u8],
    context: &KdfContext<'_>,
    expected: &[u8],
) -> bool {
    let Ok(suite) = CipherSuite::try_from(suite) else {
        return false;
    };
    let Ok(secret) = Vec::from_slice(alloc, secret) else {
        return false;
    };
    match derived_key(alloc, suite, kdf, secret, context) {
        Ok(key) => key.as_bytes() == expected,
        Err(_) => false,
    }
}

/// Signed data and the PA-PK-AS-REP with it and the function.
pub(crate) fn is_reply(alloc: Global, row: &Vector<'_>) -> bool {
    let [signed, rep] = row.columns.as_slice() else {
        return false;
    };
    let Ok(signed) = Vec::from_slice(alloc, signed) else {
        return false;
    };
    match function(alloc, row.usage()) {
        Some(kdf) => is(agile_reply_bytes(alloc, signed, kdf), rep),
        None => false,
    }
}

fn party(alloc: Global, octets: &[u8]) -> Option<PartyName> {
    match read_whole(alloc, octets) {
        Ok(found) => found,
        Err(_) => None,
    }
}

// The function of which this is the last arc.
fn function(alloc: Global, arc: i32) -> Option<Kdf> {
    let Ok(arc) = u8::try_from(arc) else {
        return None;
    };
    let content = [0x2B, 0x06, 0x01, 0x05, 0x02, 0x03, 0x06, arc];
    match ObjectIdentifier::from_content(alloc, &content) {
        Ok(Some(oid)) => Kdf::named(&oid),
        _ => None,
    }
}
