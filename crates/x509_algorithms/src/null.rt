//! NULL as parameters of an algorithm, where its want or its presence deviates.
ghost use Rattle.std.specs.Prelude.{◌≡◌, IfOk, IsTrue, MatchResult};
ghost use Rattle.asn1_der.specs.Octets.{null_octet};

use asn1_der::octets::NULL;
use byte_streams::{Sink, Source};
use picky_asn1_der::{Asn1DerError, Deserializer, HasDefault, Serializer, Tagged};
use std::alloc::{AllocError, Global};
use std::marker::{Model, PhantomData};
use x509_spelling::{Deviates, Exact, Implies};

/// Algorithms of which the NULL is missing or is there against the rule.
pub trait NullRule {
    ghost use Rattle.x509_spelling.specs.Deviations.{Deviation};

    ghost broken: { Deviation };
}

/// The RSA family, which has NULL (RFC 4055, sections 1.2 and 5).
pub struct RsaNull;

/// Hashes, which have NULL in RSASSA-PSS and in a digest's identifier (RFC 8017, appendix A.2.4; RFC 4055, section 2.1).
pub struct HashNull;

/// Algorithms that have no parameters (RFC 5758, section 3.2; RFC 8410, section 3).
pub struct NoNull;

impl NullRule for RsaNull {
    ghost use Rattle.x509_spelling.specs.Deviations.{null_missing};

    ghost broken = { null_missing };
}

impl NullRule for HashNull {
    ghost use Rattle.x509_spelling.specs.Deviations.{hash_parameters_missing};

    ghost broken = { hash_parameters_missing };
}

impl NullRule for NoNull {
    ghost use Rattle.x509_spelling.specs.Deviations.{null_spelled};

    ghost broken = { null_spelled };
}

/// NULL (X.690, section 8.8), of an algorithm that keeps the rule `R`.
#[derive(Drop)]
pub struct Null<R> {
    null: (),
    rule: PhantomData<R>,
}

impl<R> Model for Null<R> {
    ghost use Rattle.std.specs.Prelude.{⊤};

    ghost Value = { ⊤ };

    ghost view = { λ value. value.null };
}

impl<R> Null<R> {
    /// NULL.
    pub fn new() -> Null<R> {
        Null {
            null: (),
            rule: PhantomData,
        }
    }
}

impl<K> Tagged for Null<K> {
    type Row = ();

    const FIRST: u8 = NULL;

    ghost FIRST = { null_octet };

    ghost row_tree = { ⟦<() as Tagged>⟧.row_tree };

    ghost row_laws = { ⟦<() as Tagged>⟧.row_laws };

    ghost row_of = { λ v. v };

    ghost one_row = { λ v w e. e };

    fn read_row<R: Source>(tag: u8, from: &mut Deserializer<R>) -> Result<(), Asn1DerError> {
        <()>::read_row(tag, from)
    }

    fn of_row(_row: ()) -> Self {
        Null::new()
    }

    fn write_row<W: Sink>(&self, tag: u8, to: &mut Serializer<W>) -> Result<usize, Asn1DerError> {
        self.null.write_row(tag, to)
    }
}

impl<R> Exact for Null<R> {
    ghost plain = { tt };
}

impl<R> HasDefault for Null<R> {
    ghost use Rattle.std.specs.Prelude.{true, refl};

    ghost is_default_value = { λ _. true };

    ghost one_default = { λ v w a b. refl };

    fn is_default(&self) -> bool {
        true
    }

    fn default_value(_alloc: Global) -> Result<Self, AllocError> {
        Ok(Null::new())
    }

    ghost kept = { λ _ _ _. refl };
}

impl<R: NullRule> Deviates for Null<R> {
    ghost deviation = { R.broken };
}

impl<R: NullRule> Implies for Null<R> {
    ghost default_is_whole = { λ _ _. tt };
}
