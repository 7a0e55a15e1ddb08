//! Microsoft's extensions of Kerberos (MS-KILE), its proxy (MS-KKDCP) and user-to-user messages.
ghost use Rattle.std.specs.Cmp.{booleans_Decides, signed_Decides};
ghost use Rattle.std.specs.Cmp.Lexicographic.{bytes_decides};
ghost use Rattle.equality_and_copies.specs.Equalities.{fields, both, last};
ghost use Rattle.equality_and_copies.specs.WrappedEquality.{optional_tag, explicit_tag, application_tag};
ghost use Rattle.equality_and_copies.specs.contracts.equality.data_types.PrincipalNameEquality.TheImpl.Laws.{is_equality-law as principal_name};
ghost use Rattle.equality_and_copies.specs.contracts.equality.data_types.TicketInnerEquality.TheImpl.Laws.{is_equality-law as ticket};
ghost use Rattle.equality_and_copies.specs.contracts.equality.leaves.BitStringAsn1Equality.TheImpl.Laws.{is_equality-law as bits};
ghost use Rattle.microsoft_messages.specs.contracts.kdc_proxy_message.KdcProxyMessage.{the_type as kdc_proxy_message_type};
ghost use Rattle.microsoft_messages.specs.contracts.kerb_ad_restriction_entry.KerbAdRestrictionEntry.{the_type as kerb_ad_restriction_entry_type};
ghost use Rattle.microsoft_messages.specs.contracts.kerb_error_data.KerbErrorData.{the_type as kerb_error_data_type};
ghost use Rattle.microsoft_messages.specs.contracts.kerb_pa_pac_request.KerbPaPacRequest.{the_type as kerb_pa_pac_request_type};
ghost use Rattle.microsoft_messages.specs.contracts.pa_pac_options.PaPacOptions.{the_type as pa_pac_options_type};
ghost use Rattle.microsoft_messages.specs.contracts.tgt_rep.TgtRep.{the_type as tgt_rep_type};
ghost use Rattle.microsoft_messages.specs.contracts.tgt_req.TgtReq.{the_type as tgt_req_type};

use crate::equality::Equality;
use microsoft_messages::{
    KdcProxyMessage, KerbAdRestrictionEntry, KerbErrorData, KerbPaPacRequest, PaPacOptions, TgtRep,
    TgtReq,
};

impl Equality for KdcProxyMessage {
    ghost is_equality = { fields kdc_proxy_message_type
        (both (explicit_tag bytes_decides) (both (optional_tag bytes_decides) (last (optional_tag signed_Decides)))) };
}

impl Equality for KerbAdRestrictionEntry {
    ghost is_equality = { fields kerb_ad_restriction_entry_type (both (explicit_tag signed_Decides) (last (explicit_tag bytes_decides))) };
}

impl Equality for KerbErrorData {
    ghost is_equality = { fields kerb_error_data_type (both (explicit_tag signed_Decides) (last (optional_tag bytes_decides))) };
}

impl Equality for KerbPaPacRequest {
    ghost is_equality = { fields kerb_pa_pac_request_type (last (explicit_tag booleans_Decides)) };
}

impl Equality for PaPacOptions {
    ghost is_equality = { fields pa_pac_options_type (last (explicit_tag bits)) };
}

impl Equality for TgtRep {
    ghost is_equality = { fields tgt_rep_type
        (both (explicit_tag signed_Decides) (both (explicit_tag signed_Decides)
        (last (explicit_tag (application_tag ticket))))) };
}

impl Equality for TgtReq {
    ghost is_equality = { fields tgt_req_type (both (explicit_tag signed_Decides) (both (explicit_tag signed_Decides) (last (explicit_tag principal_name)))) };
}
