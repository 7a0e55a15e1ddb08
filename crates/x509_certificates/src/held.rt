//! The first value of a kind among some extensions.
ghost use Rattle.std.specs.Prelude.{◌≡◌, Option, None, Some, MatchOption};
ghost use Rattle.x509_certificates.specs.declared.extension_value.ExtensionValue.{ExtensionValue};
ghost use Rattle.x509_certificates.specs.ExtensionsHeld.{first_among, key_held, authority_held, constraints_held, subject_names_held, usage_held};

use crate::{AuthorityKeyIdentifier, Extension, ExtensionView, KeyUsage, SubjectAltName};
use picky_asn1::wrapper::OctetStringAsn1;
use x509_fields::BasicConstraints;

/// What extensions of one kind hold.
pub(crate) trait Held: Sized {
    ghost held_by: { ExtensionValue → Option Self };

    /// The value, where the extension is of the kind.
    fn held_in(extension: &Extension) -> Option<&Self>
        ensures { MatchOption result
            (held_by extension.now.extn_value ≡ None)
            (λ held. held_by extension.now.extn_value ≡ Some held.now) };
}

impl Held for OctetStringAsn1 {
    ghost held_by = { key_held };

    fn held_in(extension: &Extension) -> Option<&OctetStringAsn1> {
        match extension.extn_value() {
            ExtensionView::SubjectKeyIdentifier(key) => Some(key),
            _ => None,
        }
    }
}

impl Held for AuthorityKeyIdentifier {
    ghost held_by = { authority_held };

    fn held_in(extension: &Extension) -> Option<&AuthorityKeyIdentifier> {
        match extension.extn_value() {
            ExtensionView::AuthorityKeyIdentifier(key) => Some(key),
            _ => None,
        }
    }
}

impl Held for BasicConstraints {
    ghost held_by = { constraints_held };

    fn held_in(extension: &Extension) -> Option<&BasicConstraints> {
        match extension.extn_value() {
            ExtensionView::BasicConstraints(constraints) => Some(constraints),
            _ => None,
        }
    }
}

impl Held for KeyUsage {
    ghost held_by = { usage_held };

    fn held_in(extension: &Extension) -> Option<&KeyUsage> {
        match extension.extn_value() {
            ExtensionView::KeyUsage(usage) => Some(usage),
            _ => None,
        }
    }
}

impl Held for SubjectAltName {
    ghost held_by = { subject_names_held };

    fn held_in(extension: &Extension) -> Option<&SubjectAltName> {
        match extension.extn_value() {
            ExtensionView::SubjectAltName(names) => Some(names),
            _ => None,
        }
    }
}

/// What the first extension of the kind holds.
pub(crate) fn first_held<T: Held>(extensions: &[Extension]) -> Option<&T>
    ensures { MatchOption result
        (first_among T.held_by extensions.now ≡ None)
        (λ held. first_among T.held_by extensions.now ≡ Some held.now) }
{
    let mut rest = extensions;
    'extensions: while let [extension, more @ ..] = rest {
        let found = T::held_in(extension);
        if found.is_some() {
            return found;
        }
        rest = more;
    }
    None
}
