//! Private keys of RSA (RFC 8017, appendix A.1.2).
ghost use Rattle.std.specs.Prelude.{◌≡◌};
ghost use Rattle.asn1_der.specs.Octets.{sequence_octet};

use asn1_der::octets::SEQUENCE;
use byte_streams::{Sink, Source};
use picky_asn1::wrapper::IntegerAsn1;
use picky_asn1_der::{
    Asn1DerError, Deserializer, Fields, LentFields, Row9, Serializer, Tagged, fields_of,
    from_fields, read_sequence,
};
use std::alloc::AllocError;
use x509_spelling::{Exact, FixedNumber};

/// A private key of RSA, with two primes.
///
/// ```text
/// RSAPrivateKey ::= SEQUENCE {
///     version           Version,
///     modulus           INTEGER,  -- n
///     publicExponent    INTEGER,  -- e
///     privateExponent   INTEGER,  -- d
///     prime1            INTEGER,  -- p
///     prime2            INTEGER,  -- q
///     exponent1         INTEGER,  -- d mod (p-1)
///     exponent2         INTEGER,  -- d mod (q-1)
///     coefficient       INTEGER,  -- (inverse of q) mod p
///     otherPrimeInfos   OtherPrimeInfos OPTIONAL }
/// ```
///
/// Keys of two primes have version 0 and no further ones, and only these are read.
#[derive(Debug, Drop, PartialEq, Eq)]
pub struct RsaPrivateKey {
    /// The version 0.
    pub version: FixedNumber<0>,
    /// The modulus n.
    pub modulus: IntegerAsn1,
    /// The public exponent e.
    pub public_exponent: IntegerAsn1,
    /// The private exponent d.
    pub private_exponent: IntegerAsn1,
    /// The first prime p.
    pub prime_1: IntegerAsn1,
    /// The second prime q.
    pub prime_2: IntegerAsn1,
    /// The exponent d mod (p - 1).
    pub exponent_1: IntegerAsn1,
    /// The exponent d mod (q - 1).
    pub exponent_2: IntegerAsn1,
    /// The inverse of q mod p.
    pub coefficient: IntegerAsn1,
}

type RsaPrivateKeyRow = Row9<
    FixedNumber<0>,
    IntegerAsn1,
    IntegerAsn1,
    IntegerAsn1,
    IntegerAsn1,
    IntegerAsn1,
    IntegerAsn1,
    IntegerAsn1,
    IntegerAsn1,
>;

impl Clone for RsaPrivateKey {
    ghost is_clone = { λ key copy. copy ≡ key };

    fn clone(&self) -> Result<RsaPrivateKey, AllocError> {
        let row =
            fields_of![self; version, modulus, public_exponent, private_exponent, prime_1, prime_2, exponent_1, exponent_2, coefficient].copied()?;
        Ok(RsaPrivateKey::of_row(row))
    }
}

impl RsaPrivateKey {
    /// The modulus n.
    pub fn modulus(&self) -> &IntegerAsn1
        ensures { result.now ≡ self.now.modulus }
    {
        &self.modulus
    }

    /// The public exponent e.
    pub fn public_exponent(&self) -> &IntegerAsn1
        ensures { result.now ≡ self.now.public_exponent }
    {
        &self.public_exponent
    }

    /// The private exponent d.
    pub fn private_exponent(&self) -> &IntegerAsn1
        ensures { result.now ≡ self.now.private_exponent }
    {
        &self.private_exponent
    }

    /// The first prime p.
    pub fn prime_1(&self) -> &IntegerAsn1
        ensures { result.now ≡ self.now.prime_1 }
    {
        &self.prime_1
    }

    /// The second prime q.
    pub fn prime_2(&self) -> &IntegerAsn1
        ensures { result.now ≡ self.now.prime_2 }
    {
        &self.prime_2
    }

    /// Both primes.
    pub fn primes(&self) -> (&IntegerAsn1, &IntegerAsn1)
        ensures { (result.0.now ≡ self.now.prime_1) × (result.1.now ≡ self.now.prime_2) }
    {
        (&self.prime_1, &self.prime_2)
    }

    /// The exponent d mod (p - 1).
    pub fn exponent_1(&self) -> &IntegerAsn1
        ensures { result.now ≡ self.now.exponent_1 }
    {
        &self.exponent_1
    }

    /// The exponent d mod (q - 1).
    pub fn exponent_2(&self) -> &IntegerAsn1
        ensures { result.now ≡ self.now.exponent_2 }
    {
        &self.exponent_2
    }

    /// Both exponents of primes.
    pub fn exponents(&self) -> (&IntegerAsn1, &IntegerAsn1)
        ensures { (result.0.now ≡ self.now.exponent_1) × (result.1.now ≡ self.now.exponent_2) }
    {
        (&self.exponent_1, &self.exponent_2)
    }

    /// The inverse of q mod p.
    pub fn coefficient(&self) -> &IntegerAsn1
        ensures { result.now ≡ self.now.coefficient }
    {
        &self.coefficient
    }

    /// The modulus and the public exponent.
    pub fn into_public_components(self) -> (IntegerAsn1, IntegerAsn1)
        ensures { result ≡ (self.modulus, self.public_exponent) }
    {
        (self.modulus, self.public_exponent)
    }
}

impl Tagged for RsaPrivateKey {
    ghost use Rattle.std.proofs.Common.{ap, refl, true};
    ghost use Rattle.asn1_der.specs.Tagged.{sequence};
    ghost use Rattle.asn1_der.proofs.Tagged.{sequence_laws};

    type Row = RsaPrivateKeyRow;

    const FIRST: u8 = SEQUENCE;

    ghost FIRST = { sequence_octet };

    ghost row_tree = { sequence ⟦<RsaPrivateKeyRow as Fields>⟧.trees };

    ghost row_laws = { sequence_laws ⟦<RsaPrivateKeyRow as Fields>⟧.trees (⟦<RsaPrivateKeyRow as Fields>⟧.injective (refl {a = true})) };

    ghost row_of = { λ v. (v.version, (v.modulus, (v.public_exponent, (v.private_exponent, (v.prime_1, (v.prime_2, (v.exponent_1, (v.exponent_2, (v.coefficient, tt))))))))) };

    ghost one_row = { λ v w e. ap (λ f. record {
      version = f.0;
      modulus = f.1.0;
      public_exponent = f.1.1.0;
      private_exponent = f.1.1.1.0;
      prime_1 = f.1.1.1.1.0;
      prime_2 = f.1.1.1.1.1.0;
      exponent_1 = f.1.1.1.1.1.1.0;
      exponent_2 = f.1.1.1.1.1.1.1.0;
      coefficient = f.1.1.1.1.1.1.1.1.0;
    }) e };

    fn read_row<R: Source>(tag: u8, from: &mut Deserializer<R>) -> Result<Self::Row, Asn1DerError> {
        read_sequence(tag, from)
    }

    fn of_row(row: Self::Row) -> Self {
        from_fields![row; version, modulus, public_exponent, private_exponent, prime_1, prime_2, exponent_1, exponent_2, coefficient]
    }

    fn write_row<W: Sink>(&self, tag: u8, to: &mut Serializer<W>) -> Result<usize, Asn1DerError> {
        to.list(
            tag,
            &fields_of![self; version, modulus, public_exponent, private_exponent, prime_1, prime_2, exponent_1, exponent_2, coefficient],
        )
    }
}

impl Exact for RsaPrivateKey {
    ghost plain = { tt };
}
