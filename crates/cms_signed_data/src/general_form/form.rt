//! What the types of signed data leave open.
ghost use Rattle.std.specs.Prelude.{◌≡◌};
ghost use Rattle.std.specs.List.{list_any};
ghost use Rattle.std.specs.Option.{option_copied, option_map};
ghost use Rattle.cms_signed_data.specs.GeneralForm.{as_held, digest_in, fits_version, has_general_form, has_type, held_in, is_of_type, octets_of, only, sole_of, sole_value};

use crate::general_form::attributes::GeneralAttribute;
use crate::general_form::digest_algorithm::{DigestAlgorithm, has_content};
use crate::general_form::general_info::GeneralInfo;
use crate::general_form::general_signer::GeneralSigner;
use asn1_der::octets::{OBJECT_IDENTIFIER, OCTET_STRING, SEQUENCE};
use picky_asn1_der::RawElement;

/// The content octets of id-signedData, 1.2.840.113549.1.7.2.
pub(crate) const SIGNED_DATA: [u8; 9] = [0x2A, 0x86, 0x48, 0x86, 0xF7, 0x0D, 0x01, 0x07, 0x02];

/// The content octets of id-contentType, 1.2.840.113549.1.9.3.
pub(crate) const CONTENT_TYPE: [u8; 9] = [0x2A, 0x86, 0x48, 0x86, 0xF7, 0x0D, 0x01, 0x09, 0x03];

/// The content octets of id-messageDigest, 1.2.840.113549.1.9.4.
pub(crate) const MESSAGE_DIGEST: [u8; 9] = [0x2A, 0x86, 0x48, 0x86, 0xF7, 0x0D, 0x01, 0x09, 0x04];

/// The digest algorithm, and the octets of the digest, of signed data of the general form.
#[tactic(auto, unfolding(crate::specs::GeneralForm::held_in))]
pub(crate) fn held_in(info: &GeneralInfo) -> Option<(DigestAlgorithm, &[u8])>
    ensures { option_map as_held result ≡ held_in info.now }
{
    if !has_general_form(info) {
        return None;
    }
    let algorithm = DigestAlgorithm::named(&info.content.0.signer_infos.0.digest_algorithm);
    let Some(algorithm) = algorithm else {
        return None;
    };
    match digest_in(info) {
        Some(digest) => Some((algorithm, digest)),
        None => None,
    }
}

#[tactic(auto, unfolding(crate::specs::GeneralForm::has_general_form))]
fn has_general_form(info: &GeneralInfo) -> bool
    ensures { result ≡ has_general_form info.now }
{
    let signed = &info.content.0;
    has_content(&info.content_type, &SIGNED_DATA)
        && signed.version == 3
        && fits_version(&signed.signer_infos.0)
        && has_type(info)
}

// Whether the version fits the kind of identifier.
#[tactic(auto, unfolding(crate::specs::GeneralForm::fits_version))]
fn fits_version(signer: &GeneralSigner) -> bool
    ensures { result ≡ fits_version signer.now }
{
    if signer.sid.first() == SEQUENCE {
        signer.version == 1
    } else {
        signer.version == 1 || signer.version == 3
    }
}

// Whether the one attribute content-type is the eContentType.
#[tactic(auto, unfolding(crate::specs::GeneralForm::has_type))]
fn has_type(info: &GeneralInfo) -> bool
    ensures { result ≡ has_type info.now }
{
    let signed = &info.content.0;
    let attributes = signed.signer_infos.0.signed_attributes.0.as_slice();
    match sole_of(&CONTENT_TYPE, attributes) {
        Some(value) => {
            value.first() == OBJECT_IDENTIFIER
                && value.content() == signed.encap_content_info.content_type.0.as_bytes()
        }
        None => false,
    }
}

// The octets of the one attribute message-digest.
#[tactic(auto, unfolding(crate::specs::GeneralForm::digest_in))]
fn digest_in(info: &GeneralInfo) -> Option<&[u8]>
    ensures { option_copied result ≡ digest_in info.now }
{
    let attributes = info.content.0.signer_infos.0.signed_attributes.0.as_slice();
    match sole_of(&MESSAGE_DIGEST, attributes) {
        Some(value) => octets_of(value),
        None => None,
    }
}

// The content of an element that is an OCTET STRING.
fn octets_of(value: &RawElement) -> Option<&[u8]>
    ensures { option_copied result ≡ octets_of value.now }
{
    if value.first() == OCTET_STRING {
        Some(value.content())
    } else {
        None
    }
}

// The one value of the one attribute of the type.
fn sole_of<'a>(ty: &[u8], attributes: &'a [GeneralAttribute]) -> Option<&'a RawElement>
    ensures { option_copied result ≡ sole_of ty.now attributes.now }
{
    let mut rest = attributes;
    'attributes: while let [attribute, more @ ..] = rest {
        if is_of_type(ty, attribute) {
            return sole_value(ty, attribute, more);
        }
        rest = more;
    }
    None
}

// The one value of an attribute, if none of the others is of the type.
fn sole_value<'a>(
    ty: &[u8],
    attribute: &'a GeneralAttribute,
    others: &[GeneralAttribute],
) -> Option<&'a RawElement>
    ensures { option_copied result ≡ sole_value ty.now attribute.now others.now }
{
    if is_among(ty, others) {
        return None;
    }
    only(attribute.values.as_slice())
}

// Whether some attribute is of the type.
fn is_among(ty: &[u8], attributes: &[GeneralAttribute]) -> bool
    ensures { result ≡ list_any (is_of_type ty.now) attributes.now }
{
    attributes.iter().any(|attribute| is_of_type(ty, attribute))
}

fn only(values: &[RawElement]) -> Option<&RawElement>
    ensures { option_copied result ≡ only values.now }
{
    match values {
        [value] => Some(value),
        _ => None,
    }
}

fn is_of_type(ty: &[u8], attribute: &GeneralAttribute) -> bool
    ensures { result ≡ is_of_type ty.now attribute.now }
{
    has_content(&attribute.ty, ty)
}
