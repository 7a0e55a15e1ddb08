//! Extensions (RFC 5280, section 4.2).
ghost use Rattle.std.specs.Cmp.{signed_Decides};
ghost use Rattle.std.specs.Cmp.Lexicographic.{bytes_decides, pointwise_decides};
ghost use Rattle.equality_and_copies.specs.Equalities.{fields, both, last, options, variants, or_field};
ghost use Rattle.equality_and_copies.specs.WrappedEquality.{optional, default_field, default_false, octet_container, explicit_tag, implicit_tag};
ghost use Rattle.equality_and_copies.specs.contracts.equality.names.GeneralNameEquality.TheImpl.Laws.{is_equality-law as general_name};
ghost use Rattle.equality_and_copies.specs.contracts.equality.usages.KeyUsageEquality.TheImpl.Laws.{is_equality-law as key_usage};
ghost use Rattle.equality_and_copies.specs.contracts.equality.parts.BasicConstraintsEquality.TheImpl.Laws.{is_equality-law as basic_constraints};
ghost use Rattle.equality_and_copies.specs.contracts.equality.usages.ExtendedKeyUsageEquality.TheImpl.Laws.{is_equality-law as extended_key_usage};
ghost use Rattle.equality_and_copies.specs.contracts.equality.leaves.ObjectIdentifierAsn1Equality.TheImpl.Laws.{is_equality-law as oid};
ghost use Rattle.x509_certificates.specs.contracts.authority_key_identifier.AuthorityKeyIdentifier.{the_type as authority_key_identifier_type};

use crate::equality::Equality;
use x509_certificates::{AuthorityKeyIdentifier, Extension, ExtensionValue};

impl Equality for AuthorityKeyIdentifier {
    ghost is_equality = { fields authority_key_identifier_type
        (both (optional (options (implicit_tag bytes_decides))) (both (optional (options (explicit_tag general_name)))
        (last (optional (options (implicit_tag signed_Decides)))))) };
}

impl Equality for ExtensionValue {
    ghost use Rattle.equality_and_copies.specs.contracts.equality.extensions.AuthorityKeyIdentifierEquality.TheImpl.Laws.{is_equality-law as authority};
    ghost use Rattle.x509_certificates.specs.contracts.extension_value.ExtensionValue.{«enum»};

    ghost is_equality = { variants «enum»
        (or_field (octet_container authority) (or_field (octet_container bytes_decides)
        (or_field (octet_container key_usage) (or_field (octet_container (pointwise_decides general_name))
        (or_field (octet_container (pointwise_decides general_name)) (or_field (octet_container basic_constraints)
        (or_field (octet_container extended_key_usage) (or_field (octet_container signed_Decides)
        (or_field bytes_decides tt))))))))) };
}

impl Equality for Extension {
    ghost use Rattle.equality_and_copies.specs.contracts.equality.extensions.ExtensionValueEquality.TheImpl.Laws.{is_equality-law as extension_value};
    ghost use Rattle.x509_certificates.specs.contracts.extension.Extension.{the_type};

    ghost is_equality = { fields the_type (both oid (both (default_field default_false) (last extension_value))) };
}
