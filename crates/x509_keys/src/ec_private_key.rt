//! Private keys on elliptic curves (RFC 5915, section 3).
ghost use Rattle.std.specs.Prelude.{◌≡◌, IfOk};
ghost use Rattle.asn1_der.specs.Octets.{sequence_octet};

use crate::lent::{lent_under, plain};
use asn1_der::octets::SEQUENCE;
use byte_streams::{Sink, Source};
use picky_asn1::wrapper::{
    BitStringAsn1, ExplicitContextTag0, ExplicitContextTag1, OctetStringAsn1, Optional,
};
use picky_asn1_der::{
    Asn1DerError, Deserializer, Fields, Lent, Row4, Serializer, Tagged, read_sequence,
};
use std::alloc::AllocError;
use x509_algorithms::EcParameters;
use x509_spelling::{Exact, FixedNumber};

/// A private key on an elliptic curve, as octets.
///
/// ```text
/// CurvePrivateKey ::= OCTET STRING
/// ```
///
/// RFC 8410, section 7, has it for the curves of Edwards and Montgomery; in an `ECPrivateKey` it is `privateKey`.
pub type EncapsulatedEcSecret = OctetStringAsn1;

/// A private key on an elliptic curve.
///
/// ```text
/// ECPrivateKey ::= SEQUENCE {
///      version        INTEGER { ecPrivkeyVer1(1) } (ecPrivkeyVer1),
///      privateKey     OCTET STRING,
///      parameters [0] ECParameters {{ NamedCurve }} OPTIONAL,
///      publicKey  [1] BIT STRING OPTIONAL }
/// ```
#[derive(Debug, Drop, PartialEq, Eq)]
pub struct ECPrivateKey {
    /// The version 1.
    pub version: FixedNumber<1>,
    /// The key.
    pub private_key: EncapsulatedEcSecret,
    /// The curve.
    pub parameters: Option<EcParameters>,
    /// The public key that belongs to it.
    pub public_key: Option<BitStringAsn1>,
}

impl Clone for ECPrivateKey {
    ghost is_clone = { λ key copy. copy ≡ key };

    fn clone(&self) -> Result<ECPrivateKey, AllocError> {
        let private_key = self.private_key.clone()?;
        let parameters = copied(&self.parameters)?;
        let public_key = copied(&self.public_key)?;
        Ok(ECPrivateKey {
            version: self.version,
            private_key,
            parameters,
            public_key,
        })
    }
}

// A copy of a field of which a copied value is the value.
fn copied<T: Clone>(field: &Option<T>) -> Result<Option<T>, AllocError>
    requires { (value copy : T) → T.is_clone value copy → copy ≡ value }
    ensures { IfOk result (λ copy. copy ≡ field.now) }
{
    match field {
        Some(value) => {
            let copy = value.clone()?;
            Ok(Some(copy))
        }
        None => Ok(None),
    }
}

type ECPrivateKeyRow = Row4<
    FixedNumber<1>,
    EncapsulatedEcSecret,
    Optional<Option<ExplicitContextTag0<EcParameters>>>,
    Optional<Option<ExplicitContextTag1<BitStringAsn1>>>,
>;

impl Tagged for ECPrivateKey {
    ghost use Rattle.std.proofs.Common.{refl, true};
    ghost use Rattle.asn1_der.specs.Tagged.{sequence};
    ghost use Rattle.asn1_der.proofs.Tagged.{sequence_laws};
    ghost use Rattle.x509_keys.specs.EcRows.{ec_row, same_ec};

    type Row = ECPrivateKeyRow;

    const FIRST: u8 = SEQUENCE;

    ghost FIRST = { sequence_octet };

    ghost row_tree = { sequence ⟦<ECPrivateKeyRow as Fields>⟧.trees };

    ghost row_laws = { sequence_laws ⟦<ECPrivateKeyRow as Fields>⟧.trees (⟦<ECPrivateKeyRow as Fields>⟧.injective (refl {a = true})) };

    ghost row_of = { ec_row };

    ghost one_row = { same_ec };

    fn read_row<R: Source>(tag: u8, from: &mut Deserializer<R>) -> Result<Self::Row, Asn1DerError> {
        read_sequence(tag, from)
    }

    fn of_row(row: Self::Row) -> Self {
        let (version, (private_key, (parameters, (public_key, ())))) = row;
        ECPrivateKey {
            version,
            private_key,
            parameters: plain(parameters),
            public_key: plain(public_key),
        }
    }

    fn write_row<W: Sink>(&self, tag: u8, to: &mut Serializer<W>) -> Result<usize, Asn1DerError> {
        let parameters: Optional<Option<ExplicitContextTag0<Lent<'_, EcParameters>>>> = lent_under(
            &self.parameters,
        );
        let public_key: Optional<Option<ExplicitContextTag1<Lent<'_, BitStringAsn1>>>> = lent_under(
            &self.public_key,
        );
        to.list(
            tag,
            &(
                &self.version,
                (&self.private_key, (&parameters, (&public_key, ()))),
            ),
        )
    }
}

impl Exact for ECPrivateKey {
    ghost plain = { tt };
}
