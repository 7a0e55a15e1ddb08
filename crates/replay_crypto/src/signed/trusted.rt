//! Whose signed data is trusted.

use crate::signed::lines::bytes_of;
use crate::signed::read::is_unreadable;
use anyhow::{Context, bail};
use cms_signed_data::SignedContent;
use krb_time::Moment;
use picky_asn1::wrapper::GeneralStringAsn1;
use pkinit_validation::{Anchor, ExpectedSigner, JudgedContent, TrustFault, check_trusted};
use std::alloc::Global;
use test_support::{KnownKey, verifier};
use x509_codec::to_vec;
use x509_keys::SubjectPublicKeyInfo;

/// Signed content, and who its signer is to be.
#[derive(Clone, Copy)]
pub(crate) struct TrustRow<'a> {
    /// `test`, or `noverify`, to which no signature is valid.
    pub keys: &'a str,
    /// The anchor's certificate.
    pub anchor: &'a str,
    /// The moment, in microseconds since 0000-01-01.
    pub moment: &'a str,
    /// The principal's realm.
    pub realm: &'a str,
    /// The components of the principal's name, divided by `/`.
    pub name: &'a str,
    /// The signed content.
    pub signed: &'a str,
    /// `Trusted`, or the error code.
    pub wanted: &'a str,
}

/// Whether the signer is trusted or refused, as the row says.
pub(crate) fn is_judged(alloc: Global, row: &TrustRow<'_>) -> anyhow::Result<bool> {
    let certificate = bytes_of(alloc, row.anchor)?;
    let anchor = Anchor::from_certificate(alloc, &certificate)?;
    let judged = is_judged_under(alloc, row, &anchor);
    drop(anchor);
    judged
}

fn is_judged_under(alloc: Global, row: &TrustRow<'_>, anchor: &Anchor) -> anyhow::Result<bool> {
    let signed = bytes_of(alloc, row.signed)?;
    match SignedContent::read(alloc, &signed) {
        Ok(content) => {
            let judged = is_content_judged(alloc, row, anchor, &content);
            drop(content);
            judged
        }
        Err(fault) => Ok(!is_unreadable(fault)?),
    }
}

fn is_content_judged(
    alloc: Global,
    row: &TrustRow<'_>,
    anchor: &Anchor,
    content: &SignedContent<'_>,
) -> anyhow::Result<bool> {
    let holder = Anchor::from_certificate(alloc, content.certificate())?;
    let judged = is_judged_by(alloc, row, anchor, &holder, content);
    drop(holder);
    judged
}

/// Whether it is judged as the row says by a party that knows the keys of anchor and holder.
fn is_judged_by<'b>(
    alloc: Global,
    row: &TrustRow<'_>,
    anchor: &'b Anchor,
    holder: &'b Anchor,
    content: &SignedContent<'_>,
) -> anyhow::Result<bool> {
    let known = [
        known_of(alloc, anchor.key())?,
        known_of(alloc, holder.key())?,
    ];
    let known = if row.keys == "noverify" {
        &[]
    } else {
        known.as_slice()
    };
    let code = code_by(alloc, row, anchor, known, content)?;
    if row.wanted == "Trusted" {
        return Ok(code.is_none());
    }
    Ok(code == Some(row.wanted.parse()?))
}

/// The error code, or `None` where the signer is trusted.
fn code_by<'b>(
    alloc: Global,
    row: &TrustRow<'_>,
    anchor: &Anchor,
    known: &'b [KnownKey<'b>],
    content: &SignedContent<'_>,
) -> anyhow::Result<Option<u32>> {
    let moment = Moment::new(row.moment.parse()?).context("a moment past the year 9999")?;
    let realm = GeneralStringAsn1::new(alloc, row.realm.as_bytes())?;
    let name = components_of(alloc, row.name)?;
    let expected = ExpectedSigner {
        realm: &realm,
        name: name.as_slice(),
        anchor,
        moment,
    };
    let judged = JudgedContent::from(content);
    code_of(check_trusted(alloc, &verifier(known), &expected, &judged))
}

/// The error code of what is judged, or `None` where nothing is against it.
pub(crate) fn code_of(judged: Result<(), TrustFault>) -> anyhow::Result<Option<u32>> {
    match judged {
        Ok(()) => Ok(None),
        Err(TrustFault::Refused(refusal)) => Ok(Some(refusal.code())),
        Err(TrustFault::Memory) => bail!("out of memory"),
    }
}

fn known_of(alloc: Global, key: &SubjectPublicKeyInfo) -> anyhow::Result<KnownKey<'_>> {
    let der = to_vec(alloc, key)?;
    Ok(KnownKey { key, der })
}

fn components_of(alloc: Global, name: &str) -> anyhow::Result<Vec<GeneralStringAsn1>> {
    let mut components = Vec::new(alloc);
    for component in name.split('/') {
        components.push(GeneralStringAsn1::new(alloc, component.as_bytes())?)?;
    }
    Ok(components)
}
