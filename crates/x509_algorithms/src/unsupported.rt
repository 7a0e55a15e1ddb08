//! Algorithms that aren't known here.
ghost use Rattle.std.specs.Prelude.{◌≡◌};
ghost use Rattle.x509_algorithms.specs.Unsupported.{hash_name};

use crate::sha_variant::ShaVariant;
use picky_asn1::wrapper::ObjectIdentifierAsn1;
use std::alloc::AllocError;
use std::fmt;
use thiserror::Error;

/// An algorithm that isn't supported where it was given.
#[derive(Debug, Drop, Error, PartialEq, Eq)]
#[error("unsupported algorithm:  {algorithm}")]
pub struct UnsupportedAlgorithmError {
    algorithm: Algorithm,
}

/// An algorithm, by its name or its identifier.
#[derive(Debug, Drop, PartialEq, Eq)]
pub(crate) enum Algorithm {
    /// A hash.
    Hash(ShaVariant),
    /// An identifier.
    Identifier(ObjectIdentifierAsn1),
}

impl UnsupportedAlgorithmError {
    ghost use Rattle.x509_algorithms.specs.declared.unsupported.Algorithm.TheVariants.{Hash, Identifier};

    /// The hash isn't supported.
    pub fn of_hash(hash: ShaVariant) -> UnsupportedAlgorithmError
        ensures { result.algorithm ≡ Hash hash }
    {
        UnsupportedAlgorithmError {
            algorithm: Algorithm::Hash(hash),
        }
    }

    /// The identifier isn't a supported algorithm's.
    pub fn of_identifier(oid: ObjectIdentifierAsn1) -> UnsupportedAlgorithmError
        ensures { result.algorithm ≡ Identifier oid }
    {
        UnsupportedAlgorithmError {
            algorithm: Algorithm::Identifier(oid),
        }
    }
}

impl Clone for UnsupportedAlgorithmError {
    ghost is_clone = { λ error copy. copy ≡ error };

    fn clone(&self) -> Result<UnsupportedAlgorithmError, AllocError> {
        let algorithm = self.algorithm.clone()?;
        Ok(UnsupportedAlgorithmError { algorithm })
    }
}

impl Clone for Algorithm {
    ghost is_clone = { λ algorithm copy. copy ≡ algorithm };

    fn clone(&self) -> Result<Algorithm, AllocError> {
        Ok(match self {
            Algorithm::Hash(hash) => Algorithm::Hash(*hash),
            Algorithm::Identifier(oid) => Algorithm::Identifier(oid.clone()?),
        })
    }
}

impl fmt::Display for Algorithm {
    ghost use Rattle.std.specs.Prelude.{Some};
    ghost use Rattle.x509_algorithms.specs.Unsupported.{algorithm_text};

    ghost output = { λ algorithm. Some (algorithm_text algorithm) };

    fn fmt<W: fmt::Write>(&self, f: &mut fmt::Formatter<W>) -> fmt::Result {
        match self {
            Algorithm::Hash(hash) => write!(f, "{}", hash_name(*hash)),
            Algorithm::Identifier(oid) => write!(f, "{}", oid.0),
        }
    }
}

/// The name of a hash in an error's text.
fn hash_name(hash: ShaVariant) -> &'static str
    ensures { result.now ≡ hash_name hash }
{
    match hash {
        ShaVariant::MD5 => "MD5",
        ShaVariant::SHA1 => "SHA1",
        ShaVariant::SHA2_224 => "SHA2_224",
        ShaVariant::SHA2_256 => "SHA2_256",
        ShaVariant::SHA2_384 => "SHA2_384",
        ShaVariant::SHA2_512 => "SHA2_512",
        ShaVariant::SHA2_512_224 => "SHA2_512_224",
        ShaVariant::SHA2_512_256 => "SHA2_512_256",
        ShaVariant::SHA3_224 => "SHA3_224",
        ShaVariant::SHA3_256 => "SHA3_256",
        ShaVariant::SHA3_384 => "SHA3_384",
        ShaVariant::SHA3_512 => "SHA3_512",
        ShaVariant::SHAKE128 => "SHAKE128",
        ShaVariant::SHAKE256 => "SHAKE256",
    }
}
