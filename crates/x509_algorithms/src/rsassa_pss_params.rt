//! Parameters of RSASSA-PSS signatures (RFC 8017, appendix A.2.3).
ghost use Rattle.std.specs.Prelude.{◌≡◌, ℕ, pos, List, IfOk, IsTrue, MatchResult};
ghost use Rattle.x509_algorithms.specs.HashAlgorithms.{hash_len};
ghost use Rattle.asn1_der.specs.Octets.{sequence_octet};

use crate::hash_algorithm::HashAlgorithm;
use crate::mask_gen_algorithm::MaskGenAlgorithm;
use asn1_der::octets::SEQUENCE;
use byte_streams::Sink;
use picky_asn1::wrapper::IntegerAsn1;
use picky_asn1_der::{Asn1DerError, Row3, Serialize, Serializer, fields_of};
use std::alloc::{AllocError, Global};
use x509_spelling::{Counted, Explicit, Spelled, SpelledFields, X509Fault, read_fields};

/// The hashes and the salt's length of an RSASSA-PSS signature.
///
/// ```text
/// RSASSA-PSS-params ::= SEQUENCE {
///      hashAlgorithm      [0] HashAlgorithm      DEFAULT sha1,
///      maskGenAlgorithm   [1] MaskGenAlgorithm   DEFAULT mgf1SHA1,
///      saltLength         [2] INTEGER            DEFAULT 20,
///      trailerField       [3] TrailerField       DEFAULT trailerFieldBC }
/// ```
///
/// The first three are always written. Parameters without one of them, or with a trailer field, aren't read.
#[derive(Debug, Drop, PartialEq, Eq)]
pub struct RsassaPssParams {
    /// The hash of the message.
    pub hash_algorithm: Explicit<0, HashAlgorithm>,
    /// The function that makes masks.
    pub mask_gen_algorithm: Explicit<1, MaskGenAlgorithm>,
    /// How many octets the salt has.
    pub salt_length: Explicit<2, IntegerAsn1>,
}

impl Clone for RsassaPssParams {
    ghost is_clone = { λ params copy. copy ≡ params };

    fn clone(&self) -> Result<RsassaPssParams, AllocError> {
        let salt_length = self.salt_length.0.clone()?;
        Ok(RsassaPssParams {
            hash_algorithm: self.hash_algorithm,
            mask_gen_algorithm: self.mask_gen_algorithm,
            salt_length: Explicit(salt_length),
        })
    }
}

type PssRow = Row3<
    Explicit<0, HashAlgorithm>,
    Explicit<1, MaskGenAlgorithm>,
    Explicit<2, IntegerAsn1>,
>;

impl RsassaPssParams {
    /// One hash for the message and the masks, and a salt of as many octets as its digest.
    pub fn new(alloc: Global, hash_algorithm: HashAlgorithm) -> Result<RsassaPssParams, AllocError>
        ensures { IfOk result (λ made. (made.hash_algorithm.0 ≡ hash_algorithm)
            × (made.mask_gen_algorithm.0.hash_algorithm ≡ hash_algorithm)
            × (made.salt_length.0 ≡ pos (hash_len hash_algorithm))) }
    {
        let salt_length = IntegerAsn1::from_u64(alloc, hash_algorithm.len() as u64)?;
        Ok(RsassaPssParams {
            hash_algorithm: Explicit(hash_algorithm),
            mask_gen_algorithm: Explicit(MaskGenAlgorithm::new(hash_algorithm)),
            salt_length: Explicit(salt_length),
        })
    }
}

impl Serialize for RsassaPssParams {
    ghost use Rattle.std.proofs.Common.{ap, refl, true};
    ghost use Rattle.asn1_der.specs.Tagged.{sequence};
    ghost use Rattle.asn1_der.specs.Firsts.{only};
    ghost use Rattle.asn1_der.proofs.Spelling.{may_begin-only};
    ghost use Rattle.x509_spelling.specs.Spellings.{Holds};
    ghost use Rattle.x509_spelling.specs.RowLaws.{struct_laws};
    ghost use Rattle.x509_spelling.specs.HeldLaws.{laws_injective};
    ghost use Rattle.x509_algorithms.specs.PssRows.{pss_row, one_pss};

    ghost tree = { λ v. sequence ⟦<PssRow as SpelledFields>⟧.row_trees sequence_octet (pss_row v) };

    ghost firsts = { only sequence_octet };

    ghost begins = { λ _. may_begin-only sequence_octet };

    ghost injective = { laws_injective true (only sequence_octet) (λ v. sequence ⟦<PssRow as SpelledFields>⟧.row_trees sequence_octet (pss_row v))
        (λ v. Holds sequence_octet ⟦<PssRow as SpelledFields>⟧.spells (pss_row v))
        (struct_laws sequence_octet refl ⟦<PssRow as SpelledFields>⟧.row_firsts ⟦<PssRow as SpelledFields>⟧.row_trees ⟦<PssRow as SpelledFields>⟧.spells
        (⟦<PssRow as SpelledFields>⟧.row_laws (refl {a = true})) pss_row one_pss) };

    fn serialize<W: Sink>(&self, to: &mut Serializer<W>) -> Result<usize, Asn1DerError> {
        to.list(
            SEQUENCE,
            &fields_of![self; hash_algorithm, mask_gen_algorithm, salt_length],
        )
    }
}

impl Spelled for RsassaPssParams {
    ghost use Rattle.std.proofs.Common.{ap, refl, true};
    ghost use Rattle.asn1_der.specs.Tagged.{sequence};
    ghost use Rattle.asn1_der.specs.Firsts.{only};
    ghost use Rattle.x509_spelling.specs.Spellings.{Holds};
    ghost use Rattle.x509_spelling.specs.RowLaws.{struct_laws};
    ghost use Rattle.x509_algorithms.specs.PssRows.{pss_row, one_pss};

    ghost spells = { λ v. Holds sequence_octet ⟦<PssRow as SpelledFields>⟧.spells (pss_row v) };

    ghost written = { λ v. sequence ⟦<PssRow as SpelledFields>⟧.row_trees sequence_octet (pss_row v) };

    ghost begun = { only sequence_octet };

    ghost has_low_tags = { true };

    ghost laws = { struct_laws sequence_octet refl ⟦<PssRow as SpelledFields>⟧.row_firsts ⟦<PssRow as SpelledFields>⟧.row_trees ⟦<PssRow as SpelledFields>⟧.spells
        (⟦<PssRow as SpelledFields>⟧.row_laws (refl {a = true})) pss_row one_pss };

    fn may_begin_with(first: u8) -> bool {
        first == SEQUENCE
    }

    fn read_counted(alloc: Global, bytes: &[u8]) -> Result<Counted<Self>, X509Fault> {
        let read: Counted<PssRow> = read_fields(alloc, SEQUENCE, bytes)?;
        let count = read.count;
        let (hash_algorithm, (mask_gen_algorithm, (salt_length, ()))) = read.into_value();
        let value = RsassaPssParams {
            hash_algorithm,
            mask_gen_algorithm,
            salt_length,
        };
        Ok(Counted { value, count })
    }

    ghost written_is = { refl };
}
