//! Makers of private keys with their algorithms.
ghost use Rattle.std.specs.Prelude.{◌≡◌, true, false, None, Some, Ok, Err, if◌then◌else◌, IfOk, MatchResult};
ghost use Rattle.x509_oids.specs.Identifiers as oids;
ghost use Rattle.x509_algorithms.specs.declared.ec_parameters.EcParameters.TheVariants.{NamedCurve};
ghost use Rattle.x509_algorithms.specs.declared.algorithm_kinds.AlgorithmIdentifierParameters.TheVariants as params;
ghost use Rattle.x509_keys.specs.MadeKeys.{AreMade, AreParts, is_curve};
ghost use Rattle.x509_keys.specs.declared.private_key_value.PrivateKeyValue.TheVariants as kind;

use crate::ec_private_key::{ECPrivateKey, EncapsulatedEcSecret};
use crate::private_key_info::PrivateKeyInfo;
use crate::private_key_value::PrivateKeyValue;
use crate::rsa_private_key::RsaPrivateKey;
use crate::{EcIdentifiers, EdIdentifiers, RsaIdentifiers};
use picky_asn1::oid::ObjectIdentifier;
use picky_asn1::wrapper::{BitStringAsn1, IntegerAsn1, OctetStringAsn1Container};
use std::alloc::{AllocError, Global};
use x509_algorithms::{AlgorithmIdentifier, EcParameters};
use x509_spelling::{FixedNumber, Identifiers, X509Fault};

impl PrivateKeyInfo {
    /// A key of RSA with two primes p and q: `primes` are p and q, `exponents` d mod (p - 1) and d mod (q - 1), and
    /// `coefficient` is the inverse of q mod p.
    pub fn new_rsa_encryption(
        alloc: Global,
        modulus: IntegerAsn1,
        public_exponent: IntegerAsn1,
        private_exponent: IntegerAsn1,
        primes: (IntegerAsn1, IntegerAsn1),
        exponents: (IntegerAsn1, IntegerAsn1),
        coefficient: IntegerAsn1,
    ) -> Result<PrivateKeyInfo, AllocError>
        ensures { IfOk result (λ made. AreMade oids.rsa_encryption params.Null
            (kind.Rsa (record {
              0 = record {
                version = record {};
                modulus = modulus;
                public_exponent = public_exponent;
                private_exponent = private_exponent;
                prime_1 = primes.0;
                prime_2 = primes.1;
                exponent_1 = exponents.0;
                exponent_2 = exponents.1;
                coefficient = coefficient;
              };
            }))
            None made.fields) }
    {
        let algorithm = AlgorithmIdentifier::new_rsa_encryption(alloc)?;
        let (prime_1, prime_2) = primes;
        let (exponent_1, exponent_2) = exponents;
        let key = RsaPrivateKey {
            version: FixedNumber,
            modulus,
            public_exponent,
            private_exponent,
            prime_1,
            prime_2,
            exponent_1,
            exponent_2,
            coefficient,
        };
        let key = PrivateKeyValue::Rsa(OctetStringAsn1Container(key));
        Ok(PrivateKeyInfo::of_parts(algorithm, key, None))
    }

    /// A key on the curve that has the identifier, perhaps with its public point. The curve stands within the key too
    /// unless `skip_optional_params` says that the algorithm's is enough.
    pub fn new_ec_encryption(
        alloc: Global,
        curve: ObjectIdentifier,
        secret: EncapsulatedEcSecret,
        public_point: Option<BitStringAsn1>,
        skip_optional_params: bool,
    ) -> Result<PrivateKeyInfo, AllocError>
        ensures { IfOk result (λ made. AreMade oids.ec_public_key (params.Ec (NamedCurve (record { 0 = curve })))
            (kind.EC (record {
              0 = record {
                version = record {};
                private_key = secret;
                parameters = (if skip_optional_params then None else Some (NamedCurve (record { 0 = curve })));
                public_key = public_point;
              };
            }))
            None made.fields) }
    {
        let parameters = curve_within(&curve, skip_optional_params)?;
        let algorithm = AlgorithmIdentifier::new_elliptic_curve(alloc, EcParameters::from(curve))?;
        let key = ECPrivateKey {
            version: FixedNumber,
            private_key: secret,
            parameters,
            public_key: public_point,
        };
        let key = PrivateKeyValue::EC(OctetStringAsn1Container(key));
        Ok(PrivateKeyInfo::of_parts(algorithm, key, None))
    }

    /// A key of Ed25519, Ed448, X25519 or X448, perhaps with its public key, or `Meaning` where the algorithm is none of
    /// these.
    pub fn new_ed_encryption(
        algorithm: AlgorithmIdentifier,
        secret: EncapsulatedEcSecret,
        public_key: Option<BitStringAsn1>,
    ) -> Result<PrivateKeyInfo, X509Fault>
        ensures { MatchResult result
            (λ made. AreParts algorithm (kind.ED (record { 0 = secret })) public_key made.fields)
            (λ fault. (fault ≡ X509Fault.Meaning) × (is_curve algorithm.algorithm.0 ≡ false)) }
    {
        if !names_curve(algorithm.oid()) {
            return Err(X509Fault::Meaning);
        }
        let key = PrivateKeyValue::ED(OctetStringAsn1Container(secret));
        Ok(PrivateKeyInfo::of_parts(algorithm, key, public_key))
    }
}

// The curve as it stands within a key, unless it is skipped.
fn curve_within(curve: &ObjectIdentifier, skip: bool) -> Result<Option<EcParameters>, AllocError>
    ensures { IfOk result (λ made. made ≡ (if skip then None else Some (NamedCurve (record { 0 = curve.now })))) }
{
    if skip {
        return Ok(None);
    }
    let curve = curve.clone()?;
    Ok(Some(EcParameters::from(curve)))
}

// Whether an identifier is that of a curve of Edwards or Montgomery.
fn names_curve(oid: &ObjectIdentifier) -> bool
    ensures { result ≡ is_curve oid.now }
{
    let content = oid.as_bytes();
    let is_rsa = RsaIdentifiers::tell(content);
    let is_elliptic = EcIdentifiers::tell(content);
    let is_named_curve = EdIdentifiers::tell(content);
    !is_rsa && (!is_elliptic && is_named_curve)
}
