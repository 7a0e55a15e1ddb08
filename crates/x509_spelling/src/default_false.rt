//! Fields that are a BOOLEAN and FALSE by default (X.690, section 11.5).
ghost use Rattle.std.specs.Prelude.{◌≡◌, MatchResult, IsTrue, IfOk};
ghost use Rattle.asn1_der.specs.Octets.{boolean_octet};

use crate::exact::Exact;
use crate::fields::Deviates;
use asn1_der::octets::BOOLEAN;
use byte_streams::{Sink, Source};
use picky_asn1_der::{Asn1DerError, Deserializer, HasDefault, Serializer, Tagged};
use std::alloc::{AllocError, Global};

/// Whether an extension is critical (RFC 5280, section 4.2): a verifier that doesn't recognise it must reject the certificate.
pub type Critical = DefaultFalse<0>;

/// Whether a certificate is an authority's (RFC 5280, section 4.2.1.9).
pub type CaFlag = DefaultFalse<1>;

/// A BOOLEAN that is FALSE by default. `FIELD` says in which field it stands: a deviation is counted by its field.
#[derive(Clone, Copy, Debug, PartialEq, Eq)]
pub struct DefaultFalse<const FIELD: u8>(pub bool);

impl<const FIELD: u8> Tagged for DefaultFalse<FIELD> {
    type Row = bool;

    const FIRST: u8 = BOOLEAN;

    ghost FIRST = { boolean_octet };

    ghost row_tree = { ⟦<bool as Tagged>⟧.row_tree };

    ghost row_laws = { ⟦<bool as Tagged>⟧.row_laws };

    ghost row_of = { λ v. v.0 };

    ghost one_row = { λ v w e. λ i. record { 0 = e i } };

    fn read_row<R: Source>(tag: u8, from: &mut Deserializer<R>) -> Result<bool, Asn1DerError> {
        bool::read_row(tag, from)
    }

    fn of_row(row: bool) -> Self {
        DefaultFalse(row)
    }

    fn write_row<W: Sink>(&self, tag: u8, to: &mut Serializer<W>) -> Result<usize, Asn1DerError> {
        self.0.write_row(tag, to)
    }
}

impl<const FIELD: u8> Exact for DefaultFalse<FIELD> {
    ghost plain = { tt };
}

impl<const FIELD: u8> HasDefault for DefaultFalse<FIELD> {
    ghost use Rattle.std.proofs.Common.{ap, not};
    ghost use Rattle.x509_spelling.specs.Defaults.{one_false};

    ghost is_default_value = { λ flag. not flag.0 };

    ghost one_default = { λ v w a b. let same = one_false v.0 w.0 a b in λ i. record { 0 = same i } };

    fn is_default(&self) -> bool {
        !self.0
    }

    fn default_value(_alloc: Global) -> Result<Self, AllocError> {
        Ok(DefaultFalse(false))
    }

    ghost kept = { λ v w e. ap (λ flag. not flag.0) e };
}

impl Deviates for Critical {
    ghost use Rattle.x509_spelling.specs.Deviations.{critical_false_spelled};

    ghost deviation = { critical_false_spelled };
}

impl Deviates for CaFlag {
    ghost use Rattle.x509_spelling.specs.Deviations.{ca_false_spelled};

    ghost deviation = { ca_false_spelled };
}
