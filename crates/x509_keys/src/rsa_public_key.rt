//! Public keys of RSA (RFC 8017, appendix A.1.1).
ghost use Rattle.std.specs.Prelude.{◌≡◌};
ghost use Rattle.asn1_der.specs.Octets.{sequence_octet};

use asn1_der::octets::SEQUENCE;
use byte_streams::{Sink, Source};
use picky_asn1::wrapper::{BitStringAsn1Container, IntegerAsn1};
use picky_asn1_der::{
    Asn1DerError, Deserializer, Fields, Row2, Serializer, Tagged, fields_of, from_fields,
    read_sequence,
};
use std::alloc::AllocError;
use x509_spelling::Exact;

/// A public key of RSA.
///
/// ```text
/// RSAPublicKey ::= SEQUENCE {
///     modulus           INTEGER,  -- n
///     publicExponent    INTEGER   -- e }
/// ```
#[derive(Debug, Drop, PartialEq, Eq)]
pub struct RsaPublicKey {
    /// The modulus n.
    pub modulus: IntegerAsn1,
    /// The exponent e.
    pub public_exponent: IntegerAsn1,
}

/// A public key of RSA as a string of bits, of which none is unused (RFC 3279, section 2.3.1).
pub type EncapsulatedRsaPublicKey = BitStringAsn1Container<RsaPublicKey>;

type RsaPublicKeyRow = Row2<IntegerAsn1, IntegerAsn1>;

impl Clone for RsaPublicKey {
    ghost is_clone = { λ key copy. copy ≡ key };

    fn clone(&self) -> Result<RsaPublicKey, AllocError> {
        let modulus = self.modulus.clone()?;
        let public_exponent = self.public_exponent.clone()?;
        Ok(RsaPublicKey {
            modulus,
            public_exponent,
        })
    }
}

impl Tagged for RsaPublicKey {
    ghost use Rattle.std.proofs.Common.{ap, refl, true};
    ghost use Rattle.asn1_der.specs.Tagged.{sequence};
    ghost use Rattle.asn1_der.proofs.Tagged.{sequence_laws};

    type Row = RsaPublicKeyRow;

    const FIRST: u8 = SEQUENCE;

    ghost FIRST = { sequence_octet };

    ghost row_tree = { sequence ⟦<RsaPublicKeyRow as Fields>⟧.trees };

    ghost row_laws = { sequence_laws ⟦<RsaPublicKeyRow as Fields>⟧.trees (⟦<RsaPublicKeyRow as Fields>⟧.injective (refl {a = true})) };

    ghost row_of = { λ v. (v.modulus, (v.public_exponent, tt)) };

    ghost one_row = { λ v w e. ap (λ f. record { modulus = f.0; public_exponent = f.1.0 }) e };

    fn read_row<R: Source>(tag: u8, from: &mut Deserializer<R>) -> Result<Self::Row, Asn1DerError> {
        read_sequence(tag, from)
    }

    fn of_row(row: Self::Row) -> Self {
        from_fields![row; modulus, public_exponent]
    }

    fn write_row<W: Sink>(&self, tag: u8, to: &mut Serializer<W>) -> Result<usize, Asn1DerError> {
        to.list(tag, &fields_of![self; modulus, public_exponent])
    }
}

impl Exact for RsaPublicKey {
    ghost plain = { tt };
}
