//! Signed data as a message carries it (RFC 5652, section 3).
ghost use Rattle.std.specs.Prelude.{◌≡◌, MatchResult};
ghost use Rattle.cms_signed_data.specs.SignedRows.{content_row};
ghost use Rattle.asn1_der.specs.Octets.{sequence_octet};

use crate::signed_data::SignedData;
use asn1_der::octets::SEQUENCE;
use byte_streams::Sink;
use picky_asn1::wrapper::ObjectIdentifierAsn1;
use picky_asn1_der::{Asn1DerError, Serialize, Serializer};
use std::alloc::Global;
use x509_spelling::{Counted, Explicit, Spelled, SpelledFields, X509Fault, read_fields};

/// Signed data under its type.
///
/// ```text
/// ContentInfo ::= SEQUENCE {
///   contentType ContentType,
///   content [0] EXPLICIT ANY DEFINED BY contentType }
/// ```
#[derive(Drop)]
pub struct ContentInfo {
    /// The type, id-signedData in the one form.
    pub content_type: ObjectIdentifierAsn1,
    /// The signed data.
    pub content: Explicit<0, SignedData>,
}

type ContentRow = (ObjectIdentifierAsn1, (Explicit<0, SignedData>, ()));

impl Serialize for ContentInfo {
    ghost use Rattle.std.proofs.Common.{refl, true};
    ghost use Rattle.asn1_der.specs.Tagged.{sequence};
    ghost use Rattle.asn1_der.specs.Firsts.{only};
    ghost use Rattle.asn1_der.proofs.Spelling.{may_begin-only};
    ghost use Rattle.x509_spelling.specs.Spellings.{Holds};
    ghost use Rattle.x509_spelling.specs.RowLaws.{struct_laws};
    ghost use Rattle.x509_spelling.specs.HeldLaws.{laws_injective};
    ghost use Rattle.cms_signed_data.specs.SignedRows.{content_row, one_content};

    ghost tree = { λ v. sequence ⟦<ContentRow as SpelledFields>⟧.row_trees sequence_octet (content_row v) };

    ghost firsts = { only sequence_octet };

    ghost begins = { λ _. may_begin-only sequence_octet };

    ghost injective = { laws_injective true (only sequence_octet) (λ v. sequence ⟦<ContentRow as SpelledFields>⟧.row_trees sequence_octet (content_row v))
        (λ v. Holds sequence_octet ⟦<ContentRow as SpelledFields>⟧.spells (content_row v))
        (struct_laws sequence_octet refl ⟦<ContentRow as SpelledFields>⟧.row_firsts ⟦<ContentRow as SpelledFields>⟧.row_trees ⟦<ContentRow as SpelledFields>⟧.spells
        (⟦<ContentRow as SpelledFields>⟧.row_laws (refl {a = true})) content_row one_content) };

    fn serialize<W: Sink>(&self, to: &mut Serializer<W>) -> Result<usize, Asn1DerError> {
        to.list(SEQUENCE, &(&self.content_type, (&self.content, ())))
    }
}

impl Spelled for ContentInfo {
    ghost use Rattle.std.proofs.Common.{refl, true};
    ghost use Rattle.asn1_der.specs.Tagged.{sequence};
    ghost use Rattle.asn1_der.specs.Firsts.{only};
    ghost use Rattle.x509_spelling.specs.Spellings.{Holds};
    ghost use Rattle.x509_spelling.specs.RowLaws.{struct_laws};
    ghost use Rattle.cms_signed_data.specs.SignedRows.{content_row, one_content};

    ghost spells = { λ v. Holds sequence_octet ⟦<ContentRow as SpelledFields>⟧.spells (content_row v) };

    ghost written = { λ v. sequence ⟦<ContentRow as SpelledFields>⟧.row_trees sequence_octet (content_row v) };

    ghost begun = { only sequence_octet };

    ghost has_low_tags = { true };

    ghost laws = { struct_laws sequence_octet refl ⟦<ContentRow as SpelledFields>⟧.row_firsts ⟦<ContentRow as SpelledFields>⟧.row_trees ⟦<ContentRow as SpelledFields>⟧.spells
        (⟦<ContentRow as SpelledFields>⟧.row_laws (refl {a = true})) content_row one_content };

    fn may_begin_with(first: u8) -> bool {
        first == SEQUENCE
    }

    fn read_counted(alloc: Global, bytes: &[u8]) -> Result<Counted<Self>, X509Fault> {
        let read: Counted<ContentRow> = read_fields(alloc, SEQUENCE, bytes)?;
        let count = read.count;
        let value = of_row(read.into_value());
        Ok(Counted { value, count })
    }

    ghost written_is = { refl };
}

// The value with these fields.
fn of_row(row: ContentRow) -> ContentInfo
    ensures { content_row result ≡ row }
{
    let (content_type, (content, ())) = row;
    ContentInfo {
        content_type,
        content,
    }
}
