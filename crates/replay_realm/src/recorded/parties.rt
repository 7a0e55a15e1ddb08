//! Parties that have certificates: clients and realms.

use crate::keys::RowKeys;
use crate::words::octets_of;
use krb_realm::Anchor;
use picky_asn1_der::both;
use std::alloc::Global;
use test_support::{DigestKeys, KnownKey};
use x509_codec::to_vec;

/// A party by the certificates of its anchor and of its own.
#[derive(Drop)]
pub(crate) struct Party {
    anchor: Option<Anchor>,
    /// The holder of its own certificate.
    holder: Option<Anchor>,
    /// The encoding of its own public key, by which it signs.
    own: Vec<u8>,
}

impl Party {
    pub(crate) fn holder(&self) -> Option<&Anchor> {
        self.holder.as_ref()
    }

    /// The keys whose signatures verify: those of its anchor and of another party.
    pub(crate) fn known<'a>(
        &'a self,
        alloc: Global,
        keys: &RowKeys,
        other: Option<&'a Anchor>,
    ) -> anyhow::Result<Vec<KnownKey<'a>>> {
        let mut known = Vec::new(alloc);
        if keys.verifies {
            push_known(alloc, &mut known, self.anchor.as_ref())?;
            push_known(alloc, &mut known, other)?;
        }
        Ok(known)
    }

    /// Its key functions.
    pub(crate) fn functions<'a>(
        &'a self,
        keys: &'a RowKeys,
        known: &'a [KnownKey<'a>],
    ) -> DigestKeys<'a> {
        keys.functions(&self.own, known)
    }
}

/// Adds the holder's key to those that are known.
fn push_known<'a>(
    alloc: Global,
    known: &mut Vec<KnownKey<'a>>,
    holder: Option<&'a Anchor>,
) -> anyhow::Result<()> {
    if let Some(holder) = holder {
        let key = holder.key();
        let der = to_vec(alloc, key)?;
        known.push(KnownKey { key, der })?;
    }
    Ok(())
}

/// The party with these certificates. `-` represents none.
pub(crate) fn party_of(alloc: Global, anchor: &str, certificate: &str) -> anyhow::Result<Party> {
    let holders = both(anchor_of(alloc, anchor), anchor_of(alloc, certificate));
    let ((anchor, holder), own) = both(holders, own_key(alloc, certificate))?;
    Ok(Party {
        anchor,
        holder,
        own,
    })
}

/// The holder of a certificate. `-` represents none.
pub(crate) fn anchor_of(alloc: Global, certificate: &str) -> anyhow::Result<Option<Anchor>> {
    let certificate = octets_of(alloc, certificate)?;
    if certificate.is_empty() {
        return Ok(None);
    }
    let anchor = Anchor::from_certificate(alloc, &certificate)?;
    Ok(Some(anchor))
}

/// The encoding of the public key of a certificate.
fn own_key(alloc: Global, certificate: &str) -> anyhow::Result<Vec<u8>> {
    let holder = anchor_of(alloc, certificate)?;
    let key = match &holder {
        Some(holder) => to_vec(alloc, holder.key()),
        None => Ok(Vec::new(alloc)),
    };
    drop(holder);
    Ok(key?)
}
