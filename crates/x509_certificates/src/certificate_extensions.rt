//! The extensions of a certificate as its last field (RFC 5280, section 4.1).
ghost use Rattle.std.specs.Prelude.{◌≡◌, ℕ, List, IsTrue, IfOk, MatchResult};
ghost use Rattle.x509_spelling.specs.Answers.{Tells};
ghost use Rattle.x509_certificates.specs.ExtensionsFields.{is_written, extensions_in};

use crate::{Extension, Extensions};
use picky_asn1_der::{Optional, Row1};
use std::alloc::{AllocError, Global};
use x509_spelling::{Counted, Explicit, SpelledFields, X509Fault};

/// The extensions of a certificate, which are written where there are any.
///
/// ```text
/// extensions      [3]  EXPLICIT Extensions OPTIONAL
/// ```
///
/// An empty list that is there is refused.
#[derive(Debug, Drop, PartialEq, Eq)]
pub struct CertificateExtensions {
    pub(crate) tagged: ExtensionsField,
    pub ghost some_where_written: { IsTrue (is_written tagged.0) },
}

impl Clone for CertificateExtensions {
    ghost is_clone = { λ extensions copy. copy ≡ extensions };

    fn clone(&self) -> Result<CertificateExtensions, AllocError> {
        let tagged = copied(&self.tagged)?;
        Ok(CertificateExtensions { tagged })
    }
}

// A copy of the field.
fn copied(tagged: &ExtensionsField) -> Result<ExtensionsField, AllocError>
    ensures { IfOk result (λ copy. copy ≡ tagged.now) }
{
    match &tagged.0 {
        Some(extensions) => {
            let copy = extensions.0.clone()?;
            Ok(Optional(Some(Explicit(copy))))
        }
        None => Ok(Optional(None)),
    }
}

type ExtensionsField = Optional<Option<Explicit<3, Extensions>>>;

type ExtensionsRow = Row1<ExtensionsField>;

impl CertificateExtensions {
    /// The extensions.
    pub fn as_slice(&self) -> &[Extension]
        ensures { result.now ≡ extensions_in self.now.tagged.0 }
    {
        match &self.tagged.0 {
            Some(extensions) => extensions.0.as_slice(),
            None => &[],
        }
    }
}

impl From<Extensions> for CertificateExtensions {
    ghost from_gives = { λ extensions made. extensions_in made.tagged.0 ≡ extensions };

    fn from(extensions: Extensions) -> Self {
        if extensions.as_slice().is_empty() {
            return CertificateExtensions {
                tagged: Optional(None),
            };
        }
        CertificateExtensions {
            tagged: Optional(Some(Explicit(extensions))),
        }
    }
}

// The fields of which the bytes are a spelling, and no others.
fn read_only<F: SpelledFields>(alloc: Global, content: &[u8]) -> Result<Counted<F>, X509Fault>
    requires { IsTrue F.is_sound }
    ensures told { Tells (λ fields n. F.spells fields content.now n) result }
    ensures one { IfOk result (λ read. (fields : F) (n : ℕ) → F.spells fields content.now n → fields ≡ read.value) }
{
    F::read_content(alloc, content)
}

// Whether the field is as a writer leaves it: it holds some extensions, or is missing.
fn is_some(tagged: &ExtensionsField) -> bool
    ensures { result ≡ is_written tagged.now.0 }
{
    match &tagged.0 {
        Some(extensions) => !extensions.0.as_slice().is_empty(),
        None => true,
    }
}

impl SpelledFields for CertificateExtensions {
    ghost use Rattle.std.proofs.Common.{refl, true};
    ghost use Rattle.x509_certificates.specs.ExtensionsLaws.{held_row, extensions_row, same_extensions};

    ghost spells = { λ v. ⟦<ExtensionsRow as SpelledFields>⟧.spells (extensions_row v) };

    ghost row_trees = { λ v. ⟦<ExtensionsRow as SpelledFields>⟧.row_trees (extensions_row v) };

    ghost row_firsts = { ⟦<ExtensionsRow as SpelledFields>⟧.row_firsts };

    ghost is_sound = { true };

    ghost row_laws = { λ _. held_row ⟦<ExtensionsRow as SpelledFields>⟧.row_firsts ⟦<ExtensionsRow as SpelledFields>⟧.row_trees ⟦<ExtensionsRow as SpelledFields>⟧.spells
        (⟦<ExtensionsRow as SpelledFields>⟧.row_laws (refl {a = true})) extensions_row same_extensions };

    fn read_content(alloc: Global, content: &[u8]) -> Result<Counted<Self>, X509Fault> {
        let read: Counted<ExtensionsRow> = read_only(alloc, content)?;
        let count = read.count;
        let (tagged, ()) = read.into_value();
        if !is_some(&tagged) {
            return Err(X509Fault::Der);
        }
        let value = CertificateExtensions { tagged };
        Ok(Counted { value, count })
    }
}
