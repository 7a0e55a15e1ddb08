//! Changes of a password (RFC 3244).
ghost use Rattle.equality_and_copies.specs.Copied.{equal, told_by, fields, both, last, end};
ghost use Rattle.equality_and_copies.specs.WrappedCopies.{optional_tag, explicit_tag, application_tag};
ghost use Rattle.equality_and_copies.specs.contracts.copies.data_types.EncryptedDataCopies.TheImpl.Laws.{is_copy-law as encrypted_data};
ghost use Rattle.equality_and_copies.specs.contracts.copies.data_types.HostAddressCopies.TheImpl.Laws.{is_copy-law as host_address};
ghost use Rattle.equality_and_copies.specs.contracts.copies.data_types.PrincipalNameCopies.TheImpl.Laws.{is_copy-law as principal_name};
ghost use Rattle.equality_and_copies.specs.contracts.copies.messages.ApRepInnerCopies.TheImpl.Laws.{is_copy-law as ap_rep};
ghost use Rattle.equality_and_copies.specs.contracts.copies.messages.ApReqInnerCopies.TheImpl.Laws.{is_copy-law as ap_req};
ghost use Rattle.equality_and_copies.specs.ApMessages.{ap_message};
ghost use Rattle.microsoft_messages.specs.contracts.change_passwd_data.ChangePasswdData.{the_type as change_passwd_data_type};
ghost use Rattle.microsoft_messages.specs.contracts.enc_krb_priv_part.EncKrbPrivPartInner.{the_type as enc_krb_priv_part_type};
ghost use Rattle.microsoft_messages.specs.contracts.krb_priv.KrbPrivInner.{the_type as krb_priv_type};

use crate::copies::Copies;
use microsoft_messages::{
    ApMessage, ChangePasswdData, EncKrbPrivPartInner, KrbPrivFrame, KrbPrivFrameError, KrbPrivInner,
};

impl Copies for ApMessage {
    ghost is_copy = { ap_message (application_tag ap_req) (application_tag ap_rep) };
}

impl Copies for ChangePasswdData {
    ghost is_copy = { fields change_passwd_data_type (both (explicit_tag equal) (both (optional_tag principal_name) (last (optional_tag equal)))) };
}

impl Copies for EncKrbPrivPartInner {
    ghost is_copy = { fields enc_krb_priv_part_type
        (both (explicit_tag equal) (both (optional_tag equal) (both (optional_tag equal) (both (optional_tag equal)
        (both (explicit_tag host_address) (both (optional_tag host_address) end)))))) };
}

impl Copies for KrbPrivFrameError {
    ghost is_copy = { equal };
}

impl<A: Copies, P: Copies> Copies for KrbPrivFrame<A, P> {
    ghost is_copy = { told_by (λ v. (v.ap_message, v.krb_priv)) (both A.is_copy P.is_copy)
        (λ v w e i. record { ap_message = (e i).0; krb_priv = (e i).1 }) };
}

impl Copies for KrbPrivInner {
    ghost is_copy = { fields krb_priv_type (both (explicit_tag equal) (both (explicit_tag equal) (last (explicit_tag encrypted_data)))) };
}
