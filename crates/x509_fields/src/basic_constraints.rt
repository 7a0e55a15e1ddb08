//! Basic constraints (RFC 5280, section 4.2.1.9).
ghost use Rattle.std.specs.Prelude.{◌≡◌, ℕ, List, MatchResult, IsTrue, IfOk};
ghost use Rattle.asn1_der.specs.Octets.{sequence_octet};

use asn1_der::octets::SEQUENCE;
use byte_streams::{Sink, Source};
use picky_asn1_der::{
    Asn1DerError, DefaultField, Deserializer, Fields, HasDefault, Optional, Row2, Serializer,
    Tagged, fields_of, from_fields, read_sequence,
};
use std::alloc::{AllocError, Global};
use x509_spelling::{
    CaFlag, Counted, DefaultFalse, Spelled, SpelledFields, X509Fault, read_fields,
};

/// Whether a certificate is an authority's, and how many others may be below it on a path.
///
/// ```text
/// BasicConstraints ::= SEQUENCE {
///      cA                      BOOLEAN DEFAULT FALSE,
///      pathLenConstraint       INTEGER (0..MAX) OPTIONAL }
/// ```
///
/// Lengths up to 255 are read.
#[derive(Clone, Copy, Debug, PartialEq, Eq)]
pub struct BasicConstraints {
    ca: DefaultField<CaFlag>,
    path_len: Optional<Option<u8>>,
}

type BasicConstraintsRow = Row2<DefaultField<CaFlag>, Optional<Option<u8>>>;

impl BasicConstraints {
    /// The constraints with these fields.
    pub fn new(ca: bool, path_len: Option<u8>) -> BasicConstraints
        ensures { (result.ca.0.0 ≡ ca) × (result.path_len.0 ≡ path_len) }
    {
        BasicConstraints {
            ca: DefaultField(DefaultFalse(ca)),
            path_len: Optional(path_len),
        }
    }

    /// Whether the certificate is an authority's.
    pub fn ca(&self) -> bool
        ensures { result ≡ self.now.ca.0.0 }
    {
        self.ca.0.0
    }

    /// How many authorities may be below it.
    pub fn pathlen(&self) -> Option<u8>
        ensures { result ≡ self.now.path_len.0 }
    {
        self.path_len.0
    }
}

impl Tagged for BasicConstraints {
    ghost use Rattle.std.proofs.Common.{ap, refl, true};
    ghost use Rattle.asn1_der.specs.Tagged.{sequence};
    ghost use Rattle.asn1_der.proofs.Tagged.{sequence_laws};

    type Row = BasicConstraintsRow;

    const FIRST: u8 = SEQUENCE;

    ghost FIRST = { sequence_octet };

    ghost row_tree = { sequence ⟦<BasicConstraintsRow as Fields>⟧.trees };

    ghost row_laws = { sequence_laws ⟦<BasicConstraintsRow as Fields>⟧.trees (⟦<BasicConstraintsRow as Fields>⟧.injective (refl {a = true})) };

    ghost row_of = { λ v. (v.ca, (v.path_len, tt)) };

    ghost one_row = { λ v w e. ap (λ f. record { ca = f.0; path_len = f.1.0 }) e };

    fn read_row<R: Source>(tag: u8, from: &mut Deserializer<R>) -> Result<Self::Row, Asn1DerError> {
        read_sequence(tag, from)
    }

    fn of_row(row: Self::Row) -> Self {
        from_fields![row; ca, path_len]
    }

    fn write_row<W: Sink>(&self, tag: u8, to: &mut Serializer<W>) -> Result<usize, Asn1DerError> {
        to.list(tag, &fields_of![self; ca, path_len])
    }
}

impl Spelled for BasicConstraints {
    ghost use Rattle.std.proofs.Common.{ap, refl, true};
    ghost use Rattle.asn1_der.specs.Tagged.{sequence};
    ghost use Rattle.asn1_der.specs.Firsts.{only};
    ghost use Rattle.x509_spelling.specs.Spellings.{Holds};
    ghost use Rattle.x509_spelling.specs.RowLaws.{struct_laws};

    ghost spells = { λ v. Holds sequence_octet ⟦<BasicConstraintsRow as SpelledFields>⟧.spells (v.ca, (v.path_len, tt)) };

    ghost written = { λ v. sequence ⟦<BasicConstraintsRow as SpelledFields>⟧.row_trees sequence_octet (v.ca, (v.path_len, tt)) };

    ghost begun = { only sequence_octet };

    ghost has_low_tags = { true };

    ghost laws = { struct_laws sequence_octet refl ⟦<BasicConstraintsRow as SpelledFields>⟧.row_firsts ⟦<BasicConstraintsRow as SpelledFields>⟧.row_trees
        ⟦<BasicConstraintsRow as SpelledFields>⟧.spells (⟦<BasicConstraintsRow as SpelledFields>⟧.row_laws (refl {a = true}))
        (λ v. (v.ca, (v.path_len, tt))) (λ v w e. ap (λ f. record { ca = f.0; path_len = f.1.0 }) e) };

    fn may_begin_with(first: u8) -> bool {
        first == SEQUENCE
    }

    fn read_counted(alloc: Global, bytes: &[u8]) -> Result<Counted<Self>, X509Fault> {
        let read: Counted<BasicConstraintsRow> = read_fields(alloc, SEQUENCE, bytes)?;
        let count = read.count;
        let (ca, (path_len, ())) = read.into_value();
        let value = BasicConstraints { ca, path_len };
        Ok(Counted { value, count })
    }

    ghost written_is = { refl };
}
