//! How the identifier of a hash is spelled (RFC 8017, appendix A.2.4).
ghost use Rattle.std.specs.Prelude.{◌≡◌, ℕ, List, IsTrue, MatchResult};
ghost use Rattle.x509_algorithms.specs.HashRows.{hash_row};
ghost use Rattle.asn1_der.specs.Octets.{sequence_octet};

use crate::hash_algorithm::{HashAlgorithm, HashOid};
use crate::null::{HashNull, Null};
use asn1_der::octets::SEQUENCE;
use byte_streams::Sink;
use picky_asn1_der::{Asn1DerError, Row2, Serialize, Serializer};
use std::alloc::Global;
use x509_spelling::{Counted, Exact, Implied, Spelled, SpelledFields, X509Fault, read_fields};

type HashRow = Row2<HashOid, Implied<Null<HashNull>>>;

impl Exact for HashOid {
    ghost plain = { tt };
}

impl Serialize for HashAlgorithm {
    ghost use Rattle.std.proofs.Common.{refl, true};
    ghost use Rattle.asn1_der.specs.Tagged.{sequence};
    ghost use Rattle.asn1_der.specs.Firsts.{only};
    ghost use Rattle.asn1_der.proofs.Spelling.{may_begin-only};
    ghost use Rattle.x509_spelling.specs.Spellings.{Holds};
    ghost use Rattle.x509_spelling.specs.RowLaws.{struct_laws};
    ghost use Rattle.x509_spelling.specs.HeldLaws.{laws_injective};
    ghost use Rattle.x509_algorithms.specs.HashRows.{one_hash};

    ghost tree = { λ v. sequence ⟦<HashRow as SpelledFields>⟧.row_trees sequence_octet (hash_row v) };

    ghost firsts = { only sequence_octet };

    ghost begins = { λ _. may_begin-only sequence_octet };

    ghost injective = { laws_injective true (only sequence_octet) (λ v. sequence ⟦<HashRow as SpelledFields>⟧.row_trees sequence_octet (hash_row v))
        (λ v. Holds sequence_octet ⟦<HashRow as SpelledFields>⟧.spells (hash_row v))
        (struct_laws sequence_octet refl ⟦<HashRow as SpelledFields>⟧.row_firsts ⟦<HashRow as SpelledFields>⟧.row_trees ⟦<HashRow as SpelledFields>⟧.spells
        (⟦<HashRow as SpelledFields>⟧.row_laws (refl {a = true})) hash_row one_hash) };

    fn serialize<W: Sink>(&self, to: &mut Serializer<W>) -> Result<usize, Asn1DerError> {
        let null: Null<HashNull> = Null::new();
        to.list(SEQUENCE, &(&HashOid(*self), (&null, ())))
    }
}

impl Spelled for HashAlgorithm {
    ghost use Rattle.std.proofs.Common.{refl, true};
    ghost use Rattle.asn1_der.specs.Tagged.{sequence};
    ghost use Rattle.asn1_der.specs.Firsts.{only};
    ghost use Rattle.x509_spelling.specs.Spellings.{Holds};
    ghost use Rattle.x509_spelling.specs.RowLaws.{struct_laws};
    ghost use Rattle.x509_algorithms.specs.HashRows.{one_hash};

    ghost spells = { λ v. Holds sequence_octet ⟦<HashRow as SpelledFields>⟧.spells (hash_row v) };

    ghost written = { λ v. sequence ⟦<HashRow as SpelledFields>⟧.row_trees sequence_octet (hash_row v) };

    ghost begun = { only sequence_octet };

    ghost has_low_tags = { true };

    ghost laws = { struct_laws sequence_octet refl ⟦<HashRow as SpelledFields>⟧.row_firsts ⟦<HashRow as SpelledFields>⟧.row_trees ⟦<HashRow as SpelledFields>⟧.spells
        (⟦<HashRow as SpelledFields>⟧.row_laws (refl {a = true})) hash_row one_hash };

    fn may_begin_with(first: u8) -> bool {
        first == SEQUENCE
    }

    fn read_counted(alloc: Global, bytes: &[u8]) -> Result<Counted<Self>, X509Fault> {
        let read: Counted<HashRow> = read_fields(alloc, SEQUENCE, bytes)?;
        let count = read.count;
        let (HashOid(value), (Implied(_null), ())) = read.into_value();
        Ok(Counted { value, count })
    }

    ghost written_is = { refl };
}
