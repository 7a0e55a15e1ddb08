//! Parameters of algorithms.
ghost use Rattle.std.specs.Cmp.{signed_Decides};
ghost use Rattle.std.specs.Cmp.Lexicographic.{bytes_decides};
ghost use Rattle.equality_and_copies.specs.Equalities.{told_by, fields, both, last, bare, variants, or_none, or_field};
ghost use Rattle.equality_and_copies.specs.WrappedEquality.{explicit};
ghost use Rattle.equality_and_copies.specs.contracts.equality.leaves.ObjectIdentifierAsn1Equality.TheImpl.Laws.{is_equality-law as oid};
ghost use Rattle.x509_algorithms.specs.contracts.aes_parameters.AesMode.{the_type as aes_mode_type};
ghost use Rattle.x509_algorithms.specs.contracts.aes_parameters.AesAuthEncParams.{the_type as aes_auth_enc_params_type};
ghost use Rattle.x509_algorithms.specs.contracts.ec_parameters.EcParameters.{«enum» as ec_parameters_enum};
ghost use Rattle.x509_algorithms.specs.contracts.hash_algorithm.HashAlgorithm.{the_type as hash_algorithm_type};
ghost use Rattle.x509_algorithms.specs.contracts.sha_variant.ShaVariant.{the_type as sha_variant_type};

use crate::equality::Equality;
use x509_algorithms::{
    AesAuthEncParams, AesMode, AesParameters, EcParameters, HashAlgorithm, HashOid,
    MaskGenAlgorithm, Mgf1Oid, RsassaPssParams, ShaVariant, UnsupportedAlgorithmError,
};

impl Equality for AesMode {
    ghost is_equality = { bare aes_mode_type tt };
}

impl Equality for AesAuthEncParams {
    ghost is_equality = { fields aes_auth_enc_params_type (both bytes_decides (last signed_Decides)) };
}

impl Equality for AesParameters {
    ghost use Rattle.equality_and_copies.specs.contracts.equality.parameters.AesAuthEncParamsEquality.TheImpl.Laws.{is_equality-law as aes_auth_enc_params};
    ghost use Rattle.x509_algorithms.specs.contracts.aes_parameters.AesParameters.{«enum»};

    ghost is_equality = { variants «enum» (or_none (or_field bytes_decides (or_field aes_auth_enc_params tt))) };
}

impl Equality for EcParameters {
    ghost is_equality = { variants ec_parameters_enum (or_field oid tt) };
}

impl Equality for HashAlgorithm {
    ghost is_equality = { bare hash_algorithm_type tt };
}

impl Equality for HashOid {
    ghost use Rattle.equality_and_copies.specs.contracts.equality.parameters.HashAlgorithmEquality.TheImpl.Laws.{is_equality-law as hash};

    ghost is_equality = { told_by (λ v. v.0) hash (λ v w e i. record { 0 = e i }) };
}

impl Equality for MaskGenAlgorithm {
    ghost use Rattle.equality_and_copies.specs.contracts.equality.parameters.HashAlgorithmEquality.TheImpl.Laws.{is_equality-law as hash};

    ghost is_equality = { told_by (λ v. v.hash_algorithm) hash (λ v w e i. record { hash_algorithm = e i }) };
}

impl Equality for Mgf1Oid {
    ghost use Rattle.std.specs.Prelude.{refl};

    ghost is_equality = { λ v w. (λ _. refl, λ _. refl) };
}

impl Equality for RsassaPssParams {
    ghost use Rattle.equality_and_copies.specs.contracts.equality.parameters.HashAlgorithmEquality.TheImpl.Laws.{is_equality-law as hash};
    ghost use Rattle.equality_and_copies.specs.contracts.equality.parameters.MaskGenAlgorithmEquality.TheImpl.Laws.{is_equality-law as mask_gen_algorithm};
    ghost use Rattle.x509_algorithms.specs.contracts.rsassa_pss_params.RsassaPssParams.{the_type};

    ghost is_equality = { fields the_type
        (both (explicit hash) (both (explicit mask_gen_algorithm) (last (explicit signed_Decides)))) };
}

impl Equality for ShaVariant {
    ghost is_equality = { bare sha_variant_type tt };
}

impl Equality for UnsupportedAlgorithmError {
    ghost use Rattle.equality_and_copies.specs.contracts.equality.parameters.ShaVariantEquality.TheImpl.Laws.{is_equality-law as hash};
    ghost use Rattle.x509_algorithms.specs.contracts.unsupported.Algorithm.{«enum»};

    ghost is_equality = { told_by
        (λ v. v.algorithm)
        (variants «enum» (or_field hash (or_field oid tt)))
        (λ v w e i. record { algorithm = e i }) };
}
