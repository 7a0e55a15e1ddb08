//! Private keys (RFC 5958, RFC 8017, RFC 5915).
ghost use Rattle.std.specs.Cmp.{signed_Decides, unsigned_Decides};
ghost use Rattle.std.specs.Cmp.Lexicographic.{bytes_decides};
ghost use Rattle.equality_and_copies.specs.Equalities.{told_by, fields, both, last, options, variants, or_field};
ghost use Rattle.equality_and_copies.specs.WrappedEquality.{fixed_number, optional, octet_container, implicit_tag, strict};
ghost use Rattle.equality_and_copies.specs.contracts.equality.parameters.EcParametersEquality.TheImpl.Laws.{is_equality-law as ec_parameters};
ghost use Rattle.equality_and_copies.specs.contracts.equality.leaves.BitStringAsn1Equality.TheImpl.Laws.{is_equality-law as bits};
ghost use Rattle.equality_and_copies.specs.contracts.equality.algorithms.AlgorithmIdentifierEquality.TheImpl.Laws.{is_equality-law as algorithm_identifier};
ghost use Rattle.x509_keys.specs.contracts.rsa_private_key.RsaPrivateKey.{the_type as rsa_private_key_type};
ghost use Rattle.x509_keys.specs.contracts.ec_private_key.ECPrivateKey.{the_type as ecprivate_key_type};

use crate::equality::Equality;
use x509_keys::{ECPrivateKey, PrivateKeyFields, PrivateKeyInfo, PrivateKeyValue, RsaPrivateKey};

impl Equality for RsaPrivateKey {
    ghost is_equality = { fields rsa_private_key_type
        (both fixed_number (both signed_Decides (both signed_Decides (both signed_Decides (both signed_Decides
        (both signed_Decides (both signed_Decides (both signed_Decides (last signed_Decides))))))))) };
}

impl Equality for ECPrivateKey {
    ghost is_equality = { fields ecprivate_key_type
        (both fixed_number (both bytes_decides (both (options ec_parameters) (last (options bits))))) };
}

impl Equality for PrivateKeyValue {
    ghost use Rattle.equality_and_copies.specs.contracts.equality.private_keys.RsaPrivateKeyEquality.TheImpl.Laws.{is_equality-law as rsa_private_key};
    ghost use Rattle.equality_and_copies.specs.contracts.equality.private_keys.ECPrivateKeyEquality.TheImpl.Laws.{is_equality-law as ec_private_key};
    ghost use Rattle.x509_keys.specs.contracts.private_key_value.PrivateKeyValue.{«enum»};

    ghost is_equality = { variants «enum»
        (or_field (octet_container rsa_private_key) (or_field (octet_container ec_private_key)
        (or_field (octet_container bytes_decides) tt))) };
}

impl Equality for PrivateKeyFields {
    ghost use Rattle.equality_and_copies.specs.contracts.equality.private_keys.PrivateKeyValueEquality.TheImpl.Laws.{is_equality-law as private_key_value};
    ghost use Rattle.x509_keys.specs.contracts.private_key_fields.PrivateKeyFields.{the_type};

    ghost is_equality = { fields the_type
        (both unsigned_Decides (both algorithm_identifier (both private_key_value
        (last (optional (options (strict (implicit_tag bits)))))))) };
}

impl Equality for PrivateKeyInfo {
    ghost use Rattle.equality_and_copies.specs.contracts.equality.private_keys.PrivateKeyFieldsEquality.TheImpl.Laws.{is_equality-law as private_key_fields};
    ghost use Rattle.x509_keys.specs.PrivateInfoLaws.{same_info};

    ghost is_equality = { told_by (λ v. v.fields) private_key_fields (λ v w e. same_info v w e) };
}
