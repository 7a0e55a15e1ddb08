//! Messages (RFC 4120, section 5).
ghost use Rattle.std.specs.Cmp.{signed_Decides, unsigned_Decides};
ghost use Rattle.std.specs.Cmp.Lexicographic.{bytes_decides, pointwise_decides};
ghost use Rattle.equality_and_copies.specs.Equalities.{fields, both, last};
ghost use Rattle.equality_and_copies.specs.WrappedEquality.{optional_tag, explicit_tag, application_tag};
ghost use Rattle.equality_and_copies.specs.contracts.equality.data_types.EncryptedDataEquality.TheImpl.Laws.{is_equality-law as encrypted_data};
ghost use Rattle.equality_and_copies.specs.contracts.equality.data_types.EncryptionKeyEquality.TheImpl.Laws.{is_equality-law as encryption_key};
ghost use Rattle.equality_and_copies.specs.contracts.equality.data_types.HostAddressEquality.TheImpl.Laws.{is_equality-law as host_address};
ghost use Rattle.equality_and_copies.specs.contracts.equality.data_types.LastReqInnerEquality.TheImpl.Laws.{is_equality-law as last_req};
ghost use Rattle.equality_and_copies.specs.contracts.equality.data_types.PaDataEquality.TheImpl.Laws.{is_equality-law as pa_data};
ghost use Rattle.equality_and_copies.specs.contracts.equality.data_types.PrincipalNameEquality.TheImpl.Laws.{is_equality-law as principal_name};
ghost use Rattle.equality_and_copies.specs.contracts.equality.data_types.TicketInnerEquality.TheImpl.Laws.{is_equality-law as ticket};
ghost use Rattle.equality_and_copies.specs.contracts.equality.leaves.BitStringAsn1Equality.TheImpl.Laws.{is_equality-law as bits};
ghost use Rattle.equality_and_copies.specs.contracts.equality.leaves.GeneralizedTimeAsn1Equality.TheImpl.Laws.{is_equality-law as time};
ghost use Rattle.krb_messages.specs.contracts.messages.ap_rep.ApRepInner.{the_type as ap_rep_type};
ghost use Rattle.krb_messages.specs.contracts.messages.ap_req.ApReqInner.{the_type as ap_req_type};
ghost use Rattle.krb_messages.specs.contracts.messages.enc_kdc_rep_part.EncKdcRepPart.{the_type as enc_kdc_rep_part_type};
ghost use Rattle.krb_messages.specs.contracts.messages.kdc_rep.KdcRep.{the_type as kdc_rep_type};
ghost use Rattle.krb_messages.specs.contracts.messages.kdc_req_body.KdcReqBody.{the_type as kdc_req_body_type};
ghost use Rattle.krb_messages.specs.contracts.messages.kdc_req.KdcReq.{the_type as kdc_req_type};
ghost use Rattle.krb_messages.specs.contracts.messages.krb_error.KrbErrorInner.{the_type as krb_error_type};

use crate::equality::Equality;
use krb_messages::messages::{
    ApRepInner, ApReqInner, EncKdcRepPart, KdcRep, KdcReq, KdcReqBody, KrbErrorInner,
};

impl Equality for ApRepInner {
    ghost is_equality = { fields ap_rep_type (both (explicit_tag signed_Decides) (both (explicit_tag signed_Decides) (last (explicit_tag encrypted_data)))) };
}

impl Equality for ApReqInner {
    ghost is_equality = { fields ap_req_type
        (both (explicit_tag signed_Decides) (both (explicit_tag signed_Decides) (both (explicit_tag bits)
        (both (explicit_tag (application_tag ticket)) (last (explicit_tag encrypted_data)))))) };
}

impl Equality for EncKdcRepPart {
    ghost is_equality = { fields enc_kdc_rep_part_type
        (both (explicit_tag encryption_key) (both (explicit_tag (pointwise_decides last_req))
        (both (explicit_tag signed_Decides) (both (optional_tag time) (both (explicit_tag bits) (both (explicit_tag time)
        (both (optional_tag time) (both (explicit_tag time) (both (optional_tag time) (both (explicit_tag bytes_decides)
        (both (explicit_tag principal_name) (both (optional_tag (pointwise_decides host_address))
        (last (optional_tag (pointwise_decides pa_data))))))))))))))) };
}

impl Equality for KdcRep {
    ghost is_equality = { fields kdc_rep_type
        (both (explicit_tag signed_Decides) (both (explicit_tag signed_Decides)
        (both (optional_tag (pointwise_decides pa_data)) (both (explicit_tag bytes_decides)
        (both (explicit_tag principal_name) (both (explicit_tag (application_tag ticket))
        (last (explicit_tag encrypted_data)))))))) };
}

impl Equality for KdcReqBody {
    ghost is_equality = { fields kdc_req_body_type
        (both (explicit_tag bits) (both (optional_tag principal_name) (both (explicit_tag bytes_decides)
        (both (optional_tag principal_name) (both (optional_tag time) (both (explicit_tag time) (both (optional_tag time)
        (both (explicit_tag signed_Decides) (both (explicit_tag (pointwise_decides signed_Decides))
        (both (optional_tag (pointwise_decides host_address)) (both (optional_tag encrypted_data)
        (last (optional_tag (pointwise_decides (application_tag ticket))))))))))))))) };
}

impl Equality for KdcReq {
    ghost use Rattle.equality_and_copies.specs.contracts.equality.messages.KdcReqBodyEquality.TheImpl.Laws.{is_equality-law as kdc_req_body};

    ghost is_equality = { fields kdc_req_type
        (both (explicit_tag signed_Decides) (both (explicit_tag signed_Decides)
        (both (optional_tag (pointwise_decides pa_data)) (last (explicit_tag kdc_req_body))))) };
}

impl Equality for KrbErrorInner {
    ghost is_equality = { fields krb_error_type
        (both (explicit_tag signed_Decides) (both (explicit_tag signed_Decides) (both (optional_tag time)
        (both (optional_tag signed_Decides) (both (explicit_tag time) (both (explicit_tag signed_Decides)
        (both (explicit_tag unsigned_Decides) (both (optional_tag bytes_decides) (both (optional_tag principal_name)
        (both (explicit_tag bytes_decides) (both (explicit_tag principal_name) (both (optional_tag bytes_decides)
        (last (optional_tag bytes_decides)))))))))))))) };
}
