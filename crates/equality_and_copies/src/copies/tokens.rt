//! Tokens of the GSS-API mechanism (RFC 4121), and those by which a mechanism is negotiated (RFC 4178).
ghost use Rattle.equality_and_copies.specs.Copied.{equal, told_by, fields, both, last};
ghost use Rattle.equality_and_copies.specs.WrappedCopies.{optional_tag, explicit_tag};
ghost use Rattle.equality_and_copies.specs.contracts.copies.leaves.ObjectIdentifierAsn1Copies.TheImpl.Laws.{is_copy-law as oid};
ghost use Rattle.gss_contexts.specs.contracts.context_tokens.iakerb_header.IAKerbHeader.{the_type as iakerb_header_type};

use crate::copies::Copies;
use gss_contexts::{IAKerbHeader, IAKerbProxyMessage, KrbMessage};

impl Copies for IAKerbHeader {
    ghost is_copy = { fields iakerb_header_type (both (explicit_tag equal) (both (optional_tag equal) (last (optional_tag equal)))) };
}

impl<T: Copies> Copies for IAKerbProxyMessage<T> {
    ghost use Rattle.equality_and_copies.specs.contracts.copies.tokens.IAKerbHeaderCopies.TheImpl.Laws.{is_copy-law as iakerb_header};

    ghost is_copy = { told_by (λ v. (v.header, v.krb_msg)) (both iakerb_header T.is_copy)
        (λ v w e i. record { header = (e i).0; krb_msg = (e i).1 }) };
}

impl<T: Copies> Copies for KrbMessage<T> {
    ghost is_copy = { told_by (λ v. (v.krb5_oid, (v.krb5_token_id, v.krb_msg))) (both oid (both equal T.is_copy))
        (λ v w e i. record { krb5_oid = (e i).0; krb5_token_id = (e i).1.0; krb_msg = (e i).1.1 }) };
}
