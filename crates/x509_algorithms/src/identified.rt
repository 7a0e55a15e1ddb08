//! Algorithms as what decides the kind of a key.
ghost use Rattle.std.specs.Prelude.{◌≡◌};

use crate::algorithm_identifier::AlgorithmIdentifier;
use picky_asn1::oid::ObjectIdentifier;
use x509_spelling::Identified;

impl Identified for AlgorithmIdentifier {
    ghost arcs_of = { λ v. v.algorithm.0 };

    fn identifier(&self) -> &ObjectIdentifier {
        self.oid()
    }
}
