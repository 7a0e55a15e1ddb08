//! Uses of keys (RFC 5280, sections 4.2.1.3 and 4.2.1.12).
ghost use Rattle.std.specs.Cmp.Lexicographic.{pointwise_decides};
ghost use Rattle.equality_and_copies.specs.Equalities.{told_by};
ghost use Rattle.equality_and_copies.specs.contracts.equality.leaves.BitStringAsn1Equality.TheImpl.Laws.{is_equality-law as bits};
ghost use Rattle.equality_and_copies.specs.contracts.equality.leaves.ObjectIdentifierAsn1Equality.TheImpl.Laws.{is_equality-law as oid};

use crate::equality::Equality;
use x509_certificates::{ExtendedKeyUsage, KeyUsage};

impl Equality for KeyUsage {
    ghost is_equality = { told_by (λ v. v.0) bits (λ v w e i. record { 0 = e i }) };
}

impl Equality for ExtendedKeyUsage {
    ghost is_equality = { pointwise_decides oid };
}
