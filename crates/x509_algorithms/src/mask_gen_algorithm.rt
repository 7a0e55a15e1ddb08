//! Mask generation functions (RFC 8017, appendix B.2).
ghost use Rattle.std.specs.Prelude.{◌≡◌, ℕ, List, IfOk, IsTrue, MatchOption, MatchResult};
ghost use Rattle.x509_algorithms.specs.MaskRows.{mgf1_content, mask_row};
ghost use Rattle.asn1_der.specs.Octets.{object_identifier_octet, sequence_octet};

use crate::hash_algorithm::HashAlgorithm;
use asn1_der::octets::{OBJECT_IDENTIFIER, SEQUENCE};
use byte_streams::Sink;
use picky_asn1_der::{Asn1DerError, Leaf, Row2, Rule, Serialize, Serializer};
use std::alloc::{AllocError, Global};
use x509_spelling::{Counted, Exact, Spelled, SpelledFields, X509Fault, read_fields};

/// The mask generation function MGF1, with its hash.
///
/// ```text
/// MaskGenAlgorithm ::= AlgorithmIdentifier { {PKCS1MGFAlgorithms} }
/// ```
#[derive(Clone, Copy, Debug, PartialEq, Eq)]
pub struct MaskGenAlgorithm {
    /// The hash.
    pub hash_algorithm: HashAlgorithm,
}

/// The object identifier of MGF1.
#[derive(Clone, Copy, Debug, PartialEq, Eq)]
pub struct Mgf1Oid;

type MaskRow = Row2<Mgf1Oid, HashAlgorithm>;

impl MaskGenAlgorithm {
    /// MGF1 with this hash.
    pub fn new(hash_algorithm: HashAlgorithm) -> MaskGenAlgorithm
        ensures { result ≡ record { hash_algorithm = hash_algorithm } }
    {
        MaskGenAlgorithm { hash_algorithm }
    }
}

impl Leaf for Mgf1Oid {
    ghost use Rattle.std.specs.Prelude.{true, refl};

    const OCTET: u8 = OBJECT_IDENTIFIER;

    const RULE: Rule = Rule::ObjectIdentifier;

    ghost OCTET = { object_identifier_octet };

    ghost is_valid = { λ _. true };

    ghost content_of = { λ _. mgf1_content };

    ghost one_content = { λ v w _ _ e. refl };

    fn decode(_alloc: Global, content: &[u8]) -> Result<Option<Self>, AllocError> {
        if content != [0x2A, 0x86, 0x48, 0x86, 0xF7, 0x0D, 1, 1, 8].as_slice() {
            return Ok(None);
        }
        Ok(Some(Mgf1Oid))
    }

    fn write_content<W: Sink>(
        &self,
        tag: u8,
        to: &mut Serializer<W>,
    ) -> Result<usize, Asn1DerError> {
        to.element(tag, &[0x2A, 0x86, 0x48, 0x86, 0xF7, 0x0D, 1, 1, 8])
    }
}

impl Exact for Mgf1Oid {
    ghost plain = { tt };
}

impl Serialize for MaskGenAlgorithm {
    ghost use Rattle.std.proofs.Common.{refl, true};
    ghost use Rattle.asn1_der.specs.Tagged.{sequence};
    ghost use Rattle.asn1_der.specs.Firsts.{only};
    ghost use Rattle.asn1_der.proofs.Spelling.{may_begin-only};
    ghost use Rattle.x509_spelling.specs.Spellings.{Holds};
    ghost use Rattle.x509_spelling.specs.RowLaws.{struct_laws};
    ghost use Rattle.x509_spelling.specs.HeldLaws.{laws_injective};
    ghost use Rattle.x509_algorithms.specs.MaskRows.{one_mask};

    ghost tree = { λ v. sequence ⟦<MaskRow as SpelledFields>⟧.row_trees sequence_octet (mask_row v) };

    ghost firsts = { only sequence_octet };

    ghost begins = { λ _. may_begin-only sequence_octet };

    ghost injective = { laws_injective true (only sequence_octet) (λ v. sequence ⟦<MaskRow as SpelledFields>⟧.row_trees sequence_octet (mask_row v))
        (λ v. Holds sequence_octet ⟦<MaskRow as SpelledFields>⟧.spells (mask_row v))
        (struct_laws sequence_octet refl ⟦<MaskRow as SpelledFields>⟧.row_firsts ⟦<MaskRow as SpelledFields>⟧.row_trees ⟦<MaskRow as SpelledFields>⟧.spells
        (⟦<MaskRow as SpelledFields>⟧.row_laws (refl {a = true})) mask_row one_mask) };

    fn serialize<W: Sink>(&self, to: &mut Serializer<W>) -> Result<usize, Asn1DerError> {
        to.list(SEQUENCE, &(&Mgf1Oid, (&self.hash_algorithm, ())))
    }
}

impl Spelled for MaskGenAlgorithm {
    ghost use Rattle.std.proofs.Common.{refl, true};
    ghost use Rattle.asn1_der.specs.Tagged.{sequence};
    ghost use Rattle.asn1_der.specs.Firsts.{only};
    ghost use Rattle.x509_spelling.specs.Spellings.{Holds};
    ghost use Rattle.x509_spelling.specs.RowLaws.{struct_laws};
    ghost use Rattle.x509_algorithms.specs.MaskRows.{one_mask};

    ghost spells = { λ v. Holds sequence_octet ⟦<MaskRow as SpelledFields>⟧.spells (mask_row v) };

    ghost written = { λ v. sequence ⟦<MaskRow as SpelledFields>⟧.row_trees sequence_octet (mask_row v) };

    ghost begun = { only sequence_octet };

    ghost has_low_tags = { true };

    ghost laws = { struct_laws sequence_octet refl ⟦<MaskRow as SpelledFields>⟧.row_firsts ⟦<MaskRow as SpelledFields>⟧.row_trees ⟦<MaskRow as SpelledFields>⟧.spells
        (⟦<MaskRow as SpelledFields>⟧.row_laws (refl {a = true})) mask_row one_mask };

    fn may_begin_with(first: u8) -> bool {
        first == SEQUENCE
    }

    fn read_counted(alloc: Global, bytes: &[u8]) -> Result<Counted<Self>, X509Fault> {
        let read: Counted<MaskRow> = read_fields(alloc, SEQUENCE, bytes)?;
        let count = read.count;
        let (Mgf1Oid, (hash_algorithm, ())) = read.into_value();
        let value = MaskGenAlgorithm { hash_algorithm };
        Ok(Counted { value, count })
    }

    ghost written_is = { refl };
}
