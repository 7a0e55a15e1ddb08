//! Changes of a password (RFC 3244).
ghost use Rattle.std.specs.Cmp.{signed_Decides};
ghost use Rattle.std.specs.Cmp.Lexicographic.{bytes_decides};
ghost use Rattle.equality_and_copies.specs.Equalities.{told_by, fields, both, last, variants, or_field};
ghost use Rattle.equality_and_copies.specs.WrappedEquality.{optional_tag, explicit_tag, application_tag};
ghost use Rattle.equality_and_copies.specs.contracts.equality.data_types.EncryptedDataEquality.TheImpl.Laws.{is_equality-law as encrypted_data};
ghost use Rattle.equality_and_copies.specs.contracts.equality.data_types.HostAddressEquality.TheImpl.Laws.{is_equality-law as host_address};
ghost use Rattle.equality_and_copies.specs.contracts.equality.data_types.PrincipalNameEquality.TheImpl.Laws.{is_equality-law as principal_name};
ghost use Rattle.equality_and_copies.specs.contracts.equality.faults.ErrorKindEquality.TheImpl.Laws.{is_equality-law as error_kind};
ghost use Rattle.equality_and_copies.specs.contracts.equality.leaves.GeneralizedTimeAsn1Equality.TheImpl.Laws.{is_equality-law as time};
ghost use Rattle.equality_and_copies.specs.contracts.equality.messages.ApRepInnerEquality.TheImpl.Laws.{is_equality-law as ap_rep};
ghost use Rattle.equality_and_copies.specs.contracts.equality.messages.ApReqInnerEquality.TheImpl.Laws.{is_equality-law as ap_req};
ghost use Rattle.microsoft_messages.specs.contracts.ap_message.ApMessage.{«enum» as ap_message_enum};
ghost use Rattle.microsoft_messages.specs.contracts.change_passwd_data.ChangePasswdData.{the_type as change_passwd_data_type};
ghost use Rattle.microsoft_messages.specs.contracts.enc_krb_priv_part.EncKrbPrivPartInner.{the_type as enc_krb_priv_part_type};
ghost use Rattle.microsoft_messages.specs.contracts.error.KrbPrivFrameError.{the_type as krb_priv_frame_error_type};
ghost use Rattle.microsoft_messages.specs.contracts.krb_priv.KrbPrivInner.{the_type as krb_priv_type};

use crate::equality::Equality;
use microsoft_messages::{
    ApMessage, ChangePasswdData, EncKrbPrivPartInner, KrbPrivFrame, KrbPrivFrameError, KrbPrivInner,
};

impl Equality for ApMessage {
    ghost is_equality = { variants ap_message_enum (or_field (application_tag ap_req) (or_field (application_tag ap_rep) tt)) };
}

impl Equality for ChangePasswdData {
    ghost is_equality = { fields change_passwd_data_type
        (both (explicit_tag bytes_decides) (both (optional_tag principal_name) (last (optional_tag bytes_decides)))) };
}

impl Equality for EncKrbPrivPartInner {
    ghost is_equality = { fields enc_krb_priv_part_type
        (both (explicit_tag bytes_decides) (both (optional_tag time) (both (optional_tag signed_Decides)
        (both (optional_tag signed_Decides) (both (explicit_tag host_address) (last (optional_tag host_address))))))) };
}

impl Equality for KrbPrivFrameError {
    ghost is_equality = { fields krb_priv_frame_error_type (last error_kind) };
}

impl<A: Equality, P: Equality> Equality for KrbPrivFrame<A, P> {
    ghost is_equality = { told_by (λ v. (v.ap_message, v.krb_priv)) (both A.is_equality P.is_equality)
        (λ v w e i. record { ap_message = (e i).0; krb_priv = (e i).1 }) };
}

impl Equality for KrbPrivInner {
    ghost is_equality = { fields krb_priv_type (both (explicit_tag signed_Decides) (both (explicit_tag signed_Decides) (last (explicit_tag encrypted_data)))) };
}
