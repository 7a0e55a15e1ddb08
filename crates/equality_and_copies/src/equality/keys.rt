//! Public keys.
ghost use Rattle.std.specs.Cmp.{signed_Decides};
ghost use Rattle.equality_and_copies.specs.Equalities.{fields, both, last, variants, or_field};
ghost use Rattle.equality_and_copies.specs.WrappedEquality.{bit_container};
ghost use Rattle.equality_and_copies.specs.contracts.equality.leaves.BitStringAsn1Equality.TheImpl.Laws.{is_equality-law as bits};
ghost use Rattle.equality_and_copies.specs.contracts.equality.algorithms.AlgorithmIdentifierEquality.TheImpl.Laws.{is_equality-law as algorithm_identifier};
ghost use Rattle.x509_keys.specs.contracts.rsa_public_key.RsaPublicKey.{the_type as rsa_public_key_type};

use crate::equality::Equality;
use x509_keys::{PublicKey, RsaPublicKey, SubjectPublicKeyInfo};

impl Equality for RsaPublicKey {
    ghost is_equality = { fields rsa_public_key_type (both signed_Decides (last signed_Decides)) };
}

impl Equality for PublicKey {
    ghost use Rattle.equality_and_copies.specs.contracts.equality.keys.RsaPublicKeyEquality.TheImpl.Laws.{is_equality-law as rsa_public_key};
    ghost use Rattle.x509_keys.specs.contracts.public_key.PublicKey.{«enum»};

    ghost is_equality = { variants «enum»
        (or_field (bit_container rsa_public_key) (or_field bits (or_field bits (or_field bits tt)))) };
}

impl Equality for SubjectPublicKeyInfo {
    ghost use Rattle.equality_and_copies.specs.contracts.equality.keys.PublicKeyEquality.TheImpl.Laws.{is_equality-law as public_key};
    ghost use Rattle.x509_keys.specs.contracts.subject_public_key_info.SubjectPublicKeyInfo.{the_type};

    ghost is_equality = { fields the_type (both algorithm_identifier (last public_key)) };
}
