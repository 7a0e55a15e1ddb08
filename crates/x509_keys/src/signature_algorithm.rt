//! Algorithms that signatures name.
ghost use Rattle.x509_keys.specs.Encodings.{HasEncoding, encoding-prop};

use crate::encoding::has_encoding;
use x509_algorithms::AlgorithmIdentifier;

/// The algorithm of signatures, which is known to have an encoding: key functions that keep it show by it that what they sign names
/// such an algorithm.
#[derive(Drop)]
pub struct SignatureAlgorithm {
    algorithm: AlgorithmIdentifier,
    pub ghost encoded: { HasEncoding algorithm } by { encoding-prop algorithm },
}

impl SignatureAlgorithm {
    ghost use Rattle.std.specs.Prelude.{◌≡◌};

    /// Signatures by this algorithm.
    pub fn new(algorithm: AlgorithmIdentifier) -> SignatureAlgorithm
        ensures { result.algorithm ≡ algorithm }
    {
        has_encoding(&algorithm);
        SignatureAlgorithm { algorithm }
    }

    /// The algorithm's identifier, with its parameters.
    pub fn identifier(&self) -> &AlgorithmIdentifier
        ensures { result.now ≡ self.now.algorithm }
    {
        &self.algorithm
    }
}
