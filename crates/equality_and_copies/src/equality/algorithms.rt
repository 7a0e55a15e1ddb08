//! Algorithms and digests.
ghost use Rattle.std.specs.Cmp.Lexicographic.{bytes_decides};
ghost use Rattle.equality_and_copies.specs.Equalities.{fields, both, last, bare, variants, or_none, or_field};
ghost use Rattle.equality_and_copies.specs.contracts.equality.parameters.AesParametersEquality.TheImpl.Laws.{is_equality-law as aes_parameters};
ghost use Rattle.equality_and_copies.specs.contracts.equality.parameters.EcParametersEquality.TheImpl.Laws.{is_equality-law as ec_parameters};
ghost use Rattle.equality_and_copies.specs.contracts.equality.parameters.RsassaPssParamsEquality.TheImpl.Laws.{is_equality-law as rsassa_pss_params};
ghost use Rattle.equality_and_copies.specs.contracts.equality.leaves.ObjectIdentifierAsn1Equality.TheImpl.Laws.{is_equality-law as oid};
ghost use Rattle.x509_algorithms.specs.contracts.named.RsaAlgorithm.{the_type as rsa_algorithm_type};
ghost use Rattle.x509_algorithms.specs.contracts.named.PlainAlgorithm.{the_type as plain_algorithm_type};
ghost use Rattle.x509_algorithms.specs.contracts.algorithm_kinds.AlgorithmIdentifierParameters.{«enum» as algorithm_identifier_parameters_enum};

use crate::equality::Equality;
use x509_algorithms::{
    AlgorithmIdentifier, AlgorithmIdentifierParameters, DigestInfo, PlainAlgorithm, RsaAlgorithm,
};

impl Equality for RsaAlgorithm {
    ghost is_equality = { bare rsa_algorithm_type tt };
}

impl Equality for PlainAlgorithm {
    ghost is_equality = { bare plain_algorithm_type tt };
}

impl Equality for AlgorithmIdentifierParameters {
    ghost is_equality = { variants algorithm_identifier_parameters_enum
        (or_none (or_none (or_field aes_parameters (or_field ec_parameters (or_field rsassa_pss_params tt))))) };
}

impl Equality for AlgorithmIdentifier {
    ghost use Rattle.equality_and_copies.specs.contracts.equality.algorithms.AlgorithmIdentifierParametersEquality.TheImpl.Laws.{is_equality-law as parameters};
    ghost use Rattle.x509_algorithms.specs.contracts.algorithm_identifier.AlgorithmIdentifier.{the_type};

    ghost is_equality = { fields the_type (both oid (last parameters)) };
}

impl Equality for DigestInfo {
    ghost use Rattle.equality_and_copies.specs.contracts.equality.algorithms.AlgorithmIdentifierEquality.TheImpl.Laws.{is_equality-law as algorithm_identifier};
    ghost use Rattle.x509_algorithms.specs.contracts.digest_info.DigestInfo.{the_type};

    ghost is_equality = { fields the_type (both algorithm_identifier (last bytes_decides)) };
}
