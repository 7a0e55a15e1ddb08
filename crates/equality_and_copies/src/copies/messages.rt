//! Messages (RFC 4120, section 5).
ghost use Rattle.equality_and_copies.specs.Copied.{equal, fields, both, last, end, lists};
ghost use Rattle.equality_and_copies.specs.WrappedCopies.{optional_tag, explicit_tag, application_tag};
ghost use Rattle.equality_and_copies.specs.contracts.copies.data_types.EncryptedDataCopies.TheImpl.Laws.{is_copy-law as encrypted_data};
ghost use Rattle.equality_and_copies.specs.contracts.copies.data_types.EncryptionKeyCopies.TheImpl.Laws.{is_copy-law as encryption_key};
ghost use Rattle.equality_and_copies.specs.contracts.copies.data_types.HostAddressCopies.TheImpl.Laws.{is_copy-law as host_address};
ghost use Rattle.equality_and_copies.specs.contracts.copies.data_types.LastReqInnerCopies.TheImpl.Laws.{is_copy-law as last_req};
ghost use Rattle.equality_and_copies.specs.contracts.copies.data_types.PaDataCopies.TheImpl.Laws.{is_copy-law as pa_data};
ghost use Rattle.equality_and_copies.specs.contracts.copies.data_types.PrincipalNameCopies.TheImpl.Laws.{is_copy-law as principal_name};
ghost use Rattle.equality_and_copies.specs.contracts.copies.data_types.TicketInnerCopies.TheImpl.Laws.{is_copy-law as ticket};
ghost use Rattle.krb_messages.specs.contracts.messages.ap_rep.ApRepInner.{the_type as ap_rep_type};
ghost use Rattle.krb_messages.specs.contracts.messages.ap_req.ApReqInner.{the_type as ap_req_type};
ghost use Rattle.krb_messages.specs.contracts.messages.enc_kdc_rep_part.EncKdcRepPart.{the_type as enc_kdc_rep_part_type};
ghost use Rattle.krb_messages.specs.contracts.messages.kdc_rep.KdcRep.{the_type as kdc_rep_type};
ghost use Rattle.krb_messages.specs.contracts.messages.kdc_req_body.KdcReqBody.{the_type as kdc_req_body_type};
ghost use Rattle.krb_messages.specs.contracts.messages.kdc_req.KdcReq.{the_type as kdc_req_type};
ghost use Rattle.krb_messages.specs.contracts.messages.krb_error.KrbErrorInner.{the_type as krb_error_type};

use crate::copies::Copies;
use krb_messages::messages::{
    ApRepInner, ApReqInner, EncKdcRepPart, KdcRep, KdcReq, KdcReqBody, KrbErrorInner,
};

impl Copies for ApRepInner {
    ghost is_copy = { fields ap_rep_type (both (explicit_tag equal) (both (explicit_tag equal) (last (explicit_tag encrypted_data)))) };
}

impl Copies for ApReqInner {
    ghost is_copy = { fields ap_req_type
        (both (explicit_tag equal) (both (explicit_tag equal) (both (explicit_tag equal)
        (both (explicit_tag (application_tag ticket)) (both (explicit_tag encrypted_data) end))))) };
}

impl Copies for EncKdcRepPart {
    ghost is_copy = { fields enc_kdc_rep_part_type
        (both (explicit_tag encryption_key) (both (explicit_tag (lists last_req)) (both (explicit_tag equal)
        (both (optional_tag equal) (both (explicit_tag equal) (both (explicit_tag equal) (both (optional_tag equal)
        (both (explicit_tag equal) (both (optional_tag equal) (both (explicit_tag equal) (both (explicit_tag principal_name)
        (both (optional_tag (lists host_address)) (both (optional_tag (lists pa_data)) end))))))))))))) };
}

impl Copies for KdcRep {
    ghost is_copy = { fields kdc_rep_type
        (both (explicit_tag equal) (both (explicit_tag equal) (both (optional_tag (lists pa_data))
        (both (explicit_tag equal) (both (explicit_tag principal_name) (both (explicit_tag (application_tag ticket))
        (both (explicit_tag encrypted_data) end))))))) };
}

impl Copies for KdcReqBody {
    ghost is_copy = { fields kdc_req_body_type
        (both (explicit_tag equal) (both (optional_tag principal_name) (both (explicit_tag equal)
        (both (optional_tag principal_name) (both (optional_tag equal) (both (explicit_tag equal) (both (optional_tag equal)
        (both (explicit_tag equal) (both (explicit_tag (lists equal)) (both (optional_tag (lists host_address))
        (both (optional_tag encrypted_data) (both (optional_tag (lists (application_tag ticket))) end)))))))))))) };
}

impl Copies for KdcReq {
    ghost use Rattle.equality_and_copies.specs.contracts.copies.messages.KdcReqBodyCopies.TheImpl.Laws.{is_copy-law as kdc_req_body};

    ghost is_copy = { fields kdc_req_type
        (both (explicit_tag equal) (both (explicit_tag equal) (both (optional_tag (lists pa_data))
        (both (explicit_tag kdc_req_body) end)))) };
}

impl Copies for KrbErrorInner {
    ghost is_copy = { fields krb_error_type
        (both (explicit_tag equal) (both (explicit_tag equal) (both (optional_tag equal) (both (optional_tag equal)
        (both (explicit_tag equal) (both (explicit_tag equal) (both (explicit_tag equal) (both (optional_tag equal)
        (both (optional_tag principal_name) (both (explicit_tag equal) (both (explicit_tag principal_name)
        (both (optional_tag equal) (both (optional_tag equal) end))))))))))))) };
}
