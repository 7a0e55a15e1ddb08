//! Tokens of the GSS-API mechanism (RFC 4121), and those by which a mechanism is negotiated (RFC 4178).
ghost use Rattle.std.specs.Cmp.Lexicographic.{bytes_decides, pointwise_decides};
ghost use Rattle.equality_and_copies.specs.Equalities.{told_by, fields, both, last};
ghost use Rattle.equality_and_copies.specs.WrappedEquality.{optional_tag, explicit_tag};
ghost use Rattle.equality_and_copies.specs.contracts.equality.leaves.Asn1RawDerEquality.TheImpl.Laws.{is_equality-law as raw_der};
ghost use Rattle.equality_and_copies.specs.contracts.equality.leaves.BitStringAsn1Equality.TheImpl.Laws.{is_equality-law as bits};
ghost use Rattle.equality_and_copies.specs.contracts.equality.leaves.ObjectIdentifierAsn1Equality.TheImpl.Laws.{is_equality-law as oid};
ghost use Rattle.gss_contexts.specs.contracts.context_tokens.neg_token_init.NegTokenInit.{the_type as neg_token_init_type};
ghost use Rattle.gss_contexts.specs.contracts.context_tokens.gss_api_neg_init.GssApiNegInit.{the_type as gss_api_neg_init_type};
ghost use Rattle.gss_contexts.specs.contracts.context_tokens.iakerb_header.IAKerbHeader.{the_type as iakerb_header_type};
ghost use Rattle.gss_contexts.specs.contracts.context_tokens.neg_token_targ.NegTokenTarg.{the_type as neg_token_targ_type};

use crate::equality::Equality;
use gss_contexts::{
    ApplicationTag0, GssApiNegInit, IAKerbHeader, IAKerbProxyMessage, KrbMessage, NegTokenInit,
    NegTokenTarg,
};

impl<T: Equality> Equality for ApplicationTag0<T> {
    ghost is_equality = { told_by (λ v. v.0) T.is_equality (λ v w e i. record { 0 = e i }) };
}

impl Equality for NegTokenInit {
    ghost is_equality = { fields neg_token_init_type
        (both (optional_tag (pointwise_decides oid)) (both (optional_tag bits) (both (optional_tag bytes_decides)
        (last (optional_tag bytes_decides))))) };
}

impl Equality for GssApiNegInit {
    ghost use Rattle.equality_and_copies.specs.contracts.equality.tokens.NegTokenInitEquality.TheImpl.Laws.{is_equality-law as neg_token_init};

    ghost is_equality = { fields gss_api_neg_init_type (both oid (last (explicit_tag neg_token_init))) };
}

impl Equality for IAKerbHeader {
    ghost is_equality = { fields iakerb_header_type (both (explicit_tag bytes_decides) (both (optional_tag bytes_decides) (last (optional_tag bits)))) };
}

impl<T: Equality> Equality for IAKerbProxyMessage<T> {
    ghost use Rattle.equality_and_copies.specs.contracts.equality.tokens.IAKerbHeaderEquality.TheImpl.Laws.{is_equality-law as iakerb_header};

    ghost is_equality = { told_by (λ v. (v.header, v.krb_msg)) (both iakerb_header T.is_equality)
        (λ v w e i. record { header = (e i).0; krb_msg = (e i).1 }) };
}

impl<T: Equality> Equality for KrbMessage<T> {
    ghost is_equality = { told_by (λ v. (v.krb5_oid, (v.krb5_token_id, v.krb_msg))) (both oid (both bytes_decides T.is_equality))
        (λ v w e i. record { krb5_oid = (e i).0; krb5_token_id = (e i).1.0; krb_msg = (e i).1.1 }) };
}

impl Equality for NegTokenTarg {
    ghost is_equality = { fields neg_token_targ_type
        (both (optional_tag raw_der) (both (optional_tag oid) (both (optional_tag bytes_decides)
        (last (optional_tag bytes_decides))))) };
}
