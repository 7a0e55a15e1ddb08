//! The principal that a certificate names.
ghost use Rattle.std.specs.Prelude.{◌≡◌, IfOk};
ghost use Rattle.std.specs.Option.{option_copied};
ghost use Rattle.picky_asn1_der.specs.Found.{IsFound};
ghost use Rattle.x509_certificates.specs.ExtensionsHeld.{first_among};
ghost use Rattle.pkinit_validation.specs.Expected.{expected_of};
ghost use Rattle.pkinit_validation.specs.Principals.{IsPrincipal, element_held, element_of, first_element, named, principal_element};
ghost use Rattle.pkinit_validation.specs.Refusals.{IsOutcome};

use crate::expected::ExpectedSigner;
use crate::principal_name::Krb5PrincipalName;
use crate::refusal::{TrustFault, TrustRefusal};
use krb_messages::{is_same_name, is_same_realm};
use picky_asn1_der::{RawElement, read_whole};
use std::alloc::{AllocError, Global};
use x509_certificates::{Certificate, Extension, ExtensionView};
use x509_fields::GeneralName;

/// The content octets of id-pkinit-san, 1.3.6.1.5.2.2.
pub(crate) const PKINIT_SAN: [u8; 6] = [0x2B, 0x06, 0x01, 0x05, 0x02, 0x02];

/// Judges whether the certificate names the expected principal.
pub(crate) fn check_named(
    alloc: Global,
    expected: &ExpectedSigner<'_>,
    certificate: &Certificate,
) -> Result<(), TrustFault>
    ensures { IsOutcome (named (expected_of expected.now) certificate.now).gives result }
{
    let Some(element) = element_of(certificate) else {
        return Err(TrustFault::Refused(TrustRefusal::NameMismatch));
    };
    let Some(principal) = principal_in(alloc, element)? else {
        return Err(TrustFault::Refused(TrustRefusal::NameMismatch));
    };
    if !is_same_realm(&principal.realm.0, expected.realm) {
        return Err(TrustFault::Refused(TrustRefusal::NameMismatch));
    }
    if !is_same_name(
        principal.principal_name.0.name_string.0.as_slice(),
        expected.name,
    ) {
        return Err(TrustFault::Refused(TrustRefusal::NameMismatch));
    }
    Ok(())
}

// The principal that the element is the encoding of, or `None`.
#[tactic(auto, unfolding(crate::specs::Principals::IsPrincipal))]
fn principal_in(
    alloc: Global,
    element: &RawElement,
) -> Result<Option<Krb5PrincipalName>, AllocError>
    ensures { IfOk result (IsFound (IsPrincipal element.now)) }
{
    let Ok(bytes) = picky_asn1_der::to_vec(alloc, element) else {
        return Err(AllocError);
    };
    read_whole(alloc, &bytes)
}

// The value of the first otherName of the type id-pkinit-san among all subjectAltNames.
fn element_of(certificate: &Certificate) -> Option<&RawElement>
    ensures { option_copied result ≡ element_of certificate.now }
{
    first_element_held(certificate.extensions())
}

fn first_element_held(extensions: &[Extension]) -> Option<&RawElement>
    ensures { option_copied result ≡ first_among element_held extensions.now }
{
    let mut rest = extensions;
    'extensions: while let [extension, more @ ..] = rest {
        let found = element_held(extension);
        if found.is_some() {
            return found;
        }
        rest = more;
    }
    None
}

fn element_held(extension: &Extension) -> Option<&RawElement>
    ensures { option_copied result ≡ element_held extension.now.extn_value }
{
    match extension.extn_value() {
        ExtensionView::SubjectAltName(names) => first_element(names.as_slice()),
        _ => None,
    }
}

fn first_element(names: &[GeneralName]) -> Option<&RawElement>
    ensures { option_copied result ≡ first_element names.now }
{
    let mut rest = names;
    'names: while let [name, more @ ..] = rest {
        let found = principal_element(name);
        if found.is_some() {
            return found;
        }
        rest = more;
    }
    None
}

// The value of an otherName of the type id-pkinit-san.
fn principal_element(name: &GeneralName) -> Option<&RawElement>
    ensures { option_copied result ≡ principal_element name.now }
{
    match name {
        GeneralName::OtherName(name) => {
            if name.type_id.0.as_bytes() == PKINIT_SAN.as_slice() {
                Some(&name.value.0)
            } else {
                None
            }
        }
        _ => None,
    }
}
