//! What `make` and `warnings` warn of: likely slips in each account, and keys that two accounts share.

use crate::warnings::{RealmKey, Stream, is_service, say, warn_of_account, warn_of_realm};
use cdb::Record;
use krb_account_texts::{AccountLine, RealmLine, principal_name};
use krb_commands::Stop;
use krb_crypto::CipherSuite;
use krb_messages::data_types::PrincipalName;
use krb_realm_accounts::components_of;
use krb_realm_files::ACCOUNT_HEAD;
use krb_settings::{Secret, Warning};
use std::alloc::{AllocError, Global};
use std::cmp::Ordering;

/// What warns of a text's lines as they are read, and of shared keys once all are.
#[derive(Drop)]
pub(crate) struct Warner {
    stream: Stream,
    // The realm, without its key.
    realm: Option<RealmKey>,
    // The index of the record of the realm's own account, its ticket-granting service.
    service: Option<u32>,
    keys: Vec<KeyPlace>,
}

// The first octets of a key, the index of its account's record, and the number of its line.
#[derive(Clone, Copy)]
struct KeyPlace {
    head: u64,
    index: u32,
    line: u32,
}

// An account whose key another one has too: its line, and the indices of both records.
#[derive(Clone, Copy, PartialEq, Eq, PartialOrd, Ord)]
struct Shared {
    line: u32,
    index: u32,
    other: u32,
}

impl Warner {
    /// One that has seen no line.
    pub(crate) fn new(alloc: Global, stream: Stream) -> Warner {
        Warner {
            stream,
            realm: None,
            service: None,
            keys: Vec::new(alloc),
        }
    }

    /// Warns of the realm's name.
    pub(crate) fn see_realm(&mut self, rt: &HostRuntime, realm: &RealmLine) -> Result<(), Stop> {
        let own = RealmKey::among(rt.alloc(), realm, &[])?;
        warn_of_realm(rt, self.stream, &own)?;
        self.realm = Some(own);
        Ok(())
    }

    /// Warns of an account on the line of this number, whose record has this index.
    pub(crate) fn see_account(
        &mut self,
        rt: &HostRuntime,
        number: usize,
        index: usize,
        own: &AccountLine,
    ) -> Result<(), Stop> {
        let octets = own.account.key().as_bytes();
        let index = short(index);
        if let Some(realm) = &self.realm {
            let secret = Secret::Key(Vec::from_slice(rt.alloc(), octets)?);
            warn_of_account(
                rt,
                self.stream,
                realm,
                &own.name,
                own.account.suite(),
                secret,
            )?;
            if is_service(&realm.name, &own.name) {
                self.service = Some(index);
            }
        }
        self.keys.push(KeyPlace {
            head: head_of(octets),
            index,
            line: short(number),
        })?;
        Ok(())
    }

    /// Warns of each account whose key an earlier one has, or the realm's own, in the order of their lines. It sorts the keys.
    pub(crate) fn warn_of_shared(
        mut self,
        rt: &HostRuntime,
        path: &str,
        records: &[Record],
    ) -> Result<(), Stop> {
        let service = self.service;
        self.keys
            .sort_unstable_by(|place, other| order_of(records, service, place, other));
        let mut shared = shared_among(rt.alloc(), records, &self.keys)?;
        shared.sort_unstable();
        for one in &shared {
            self.warn(rt, path, records, *one)?;
        }
        Ok(())
    }

    fn warn(
        &self,
        rt: &HostRuntime,
        path: &str,
        records: &[Record],
        one: Shared,
    ) -> Result<(), Stop> {
        let alloc = rt.alloc();
        let line = one.line;
        let name = name_of(alloc, records, one.index)?;
        if self.service == Some(one.other) {
            let words = Warning::KeyOfRealm;
            return say(
                rt,
                self.stream,
                format_args!("{path}:{line}: warning: {name}: {words}"),
            );
        }
        let other = name_of(alloc, records, one.other)?;
        say(
            rt,
            self.stream,
            format_args!(
                "{path}:{line}: warning: {name}: key is that of {other} too: expected a key of its own"
            ),
        )
    }
}

// An index or a number of a line. A text of fewer than 2^32 octets has fewer lines.
fn short(number: usize) -> u32 {
    u32::try_from(number).unwrap_or(u32::MAX)
}

// The first eight octets, as a number.
fn head_of(octets: &[u8]) -> u64 {
    let mut head = 0u64;
    for octet in octets.iter().take(8) {
        head = (head << 8) | u64::from(*octet);
    }
    head
}

// The order of two keys, octet by octet. Of one key, the realm's own account is first, and then the first account.
fn order_of(
    records: &[Record],
    service: Option<u32>,
    place: &KeyPlace,
    other: &KeyPlace,
) -> Ordering {
    if place.head != other.head {
        return place.head.cmp(&other.head);
    }
    let keys = key_at(records, place.index).cmp(key_at(records, other.index));
    let is_later = service != Some(place.index);
    keys.then(is_later.cmp(&(service != Some(other.index))))
        .then(place.index.cmp(&other.index))
}

// The accounts whose key an account before them has, where the keys are sorted.
fn shared_among(
    alloc: Global,
    records: &[Record],
    keys: &[KeyPlace],
) -> Result<Vec<Shared>, AllocError> {
    let mut shared = Vec::new(alloc);
    let mut first: Option<KeyPlace> = None;
    for place in keys {
        match first {
            Some(own) if is_same_key(records, &own, place) => shared.push(Shared {
                line: place.line,
                index: place.index,
                other: own.index,
            })?,
            _ => first = Some(*place),
        }
    }
    Ok(shared)
}

fn is_same_key(records: &[Record], place: &KeyPlace, other: &KeyPlace) -> bool {
    place.head == other.head && key_at(records, place.index) == key_at(records, other.index)
}

// The key in the record of this index.
fn key_at(records: &[Record], index: u32) -> &[u8] {
    match records.get(index as usize) {
        Some(record) => key_in(record.content.as_slice()),
        None => &[],
    }
}

// The key in an account's record.
fn key_in(content: &[u8]) -> &[u8] {
    let [_, number, ..] = content else {
        return &[];
    };
    match CipherSuite::try_from(usize::from(*number)) {
        Ok(suite) => content
            .get(ACCOUNT_HEAD..ACCOUNT_HEAD.saturating_add(suite.key_size()))
            .unwrap_or(&[]),
        Err(_) => &[],
    }
}

// The name of the account whose record has this index.
fn name_of(alloc: Global, records: &[Record], index: u32) -> Result<PrincipalName, Stop> {
    let block = match records.get(index as usize) {
        Some(record) => record.key.as_slice(),
        None => &[],
    };
    let components = components_in(alloc, block)?;
    match components_of(alloc, &components) {
        Ok(name) => Ok(principal_name(alloc, name)?),
        Err(_) => Err(Stop::Memory),
    }
}

// The components of a name's block: each of their characters plus one, and a zero after each component.
fn components_in(alloc: Global, block: &[u8]) -> Result<Vec<Vec<u8>>, AllocError> {
    let mut components = Vec::new(alloc);
    let mut component = Vec::new(alloc);
    for octet in block {
        if *octet == 0 {
            components.push(component)?;
            component = Vec::new(alloc);
        } else {
            component.push(*octet - 1)?;
        }
    }
    Ok(components)
}
