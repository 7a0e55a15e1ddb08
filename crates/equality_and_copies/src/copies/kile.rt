//! Microsoft's extensions of Kerberos (MS-KILE), its proxy (MS-KKDCP) and user-to-user messages.
ghost use Rattle.equality_and_copies.specs.Copied.{equal, fields, both, last};
ghost use Rattle.equality_and_copies.specs.WrappedCopies.{optional_tag, explicit_tag, application_tag};
ghost use Rattle.equality_and_copies.specs.contracts.copies.data_types.PrincipalNameCopies.TheImpl.Laws.{is_copy-law as principal_name};
ghost use Rattle.equality_and_copies.specs.contracts.copies.data_types.TicketInnerCopies.TheImpl.Laws.{is_copy-law as ticket};
ghost use Rattle.microsoft_messages.specs.contracts.kdc_proxy_message.KdcProxyMessage.{the_type as kdc_proxy_message_type};
ghost use Rattle.microsoft_messages.specs.contracts.kerb_ad_restriction_entry.KerbAdRestrictionEntry.{the_type as kerb_ad_restriction_entry_type};
ghost use Rattle.microsoft_messages.specs.contracts.kerb_error_data.KerbErrorData.{the_type as kerb_error_data_type};
ghost use Rattle.microsoft_messages.specs.contracts.kerb_pa_pac_request.KerbPaPacRequest.{the_type as kerb_pa_pac_request_type};
ghost use Rattle.microsoft_messages.specs.contracts.pa_pac_options.PaPacOptions.{the_type as pa_pac_options_type};
ghost use Rattle.microsoft_messages.specs.contracts.tgt_rep.TgtRep.{the_type as tgt_rep_type};
ghost use Rattle.microsoft_messages.specs.contracts.tgt_req.TgtReq.{the_type as tgt_req_type};

use crate::copies::Copies;
use microsoft_messages::{
    KdcProxyMessage, KerbAdRestrictionEntry, KerbErrorData, KerbPaPacRequest, PaPacOptions, TgtRep,
    TgtReq,
};

impl Copies for KdcProxyMessage {
    ghost is_copy = { fields kdc_proxy_message_type (both (explicit_tag equal) (both (optional_tag equal) (last (optional_tag equal)))) };
}

impl Copies for KerbAdRestrictionEntry {
    ghost is_copy = { fields kerb_ad_restriction_entry_type (both (explicit_tag equal) (last (explicit_tag equal))) };
}

impl Copies for KerbErrorData {
    ghost is_copy = { fields kerb_error_data_type (both (explicit_tag equal) (last (optional_tag equal))) };
}

impl Copies for KerbPaPacRequest {
    ghost is_copy = { fields kerb_pa_pac_request_type (last (explicit_tag equal)) };
}

impl Copies for PaPacOptions {
    ghost is_copy = { fields pa_pac_options_type (last (explicit_tag equal)) };
}

impl Copies for TgtRep {
    ghost is_copy = { fields tgt_rep_type (both (explicit_tag equal) (both (explicit_tag equal) (last (explicit_tag (application_tag ticket))))) };
}

impl Copies for TgtReq {
    ghost is_copy = { fields tgt_req_type (both (explicit_tag equal) (both (explicit_tag equal) (last (explicit_tag principal_name)))) };
}
