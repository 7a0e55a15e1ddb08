//! Credentials that are forwarded (RFC 4120, section 5.8).
ghost use Rattle.equality_and_copies.specs.Copied.{equal, fields, both, end, lists};
ghost use Rattle.equality_and_copies.specs.WrappedCopies.{optional_tag, explicit_tag, application_tag};
ghost use Rattle.equality_and_copies.specs.contracts.copies.data_types.EncryptedDataCopies.TheImpl.Laws.{is_copy-law as encrypted_data};
ghost use Rattle.equality_and_copies.specs.contracts.copies.data_types.EncryptionKeyCopies.TheImpl.Laws.{is_copy-law as encryption_key};
ghost use Rattle.equality_and_copies.specs.contracts.copies.data_types.HostAddressCopies.TheImpl.Laws.{is_copy-law as host_address};
ghost use Rattle.equality_and_copies.specs.contracts.copies.data_types.PrincipalNameCopies.TheImpl.Laws.{is_copy-law as principal_name};
ghost use Rattle.equality_and_copies.specs.contracts.copies.data_types.TicketInnerCopies.TheImpl.Laws.{is_copy-law as ticket};
ghost use Rattle.krb_messages.specs.contracts.krb_cred_info.KrbCredInfo.{the_type as krb_cred_info_type};
ghost use Rattle.krb_messages.specs.contracts.enc_krb_cred_part.EncKrbCredPartInner.{the_type as enc_krb_cred_part_type};
ghost use Rattle.krb_messages.specs.contracts.krb_cred.KrbCredInner.{the_type as krb_cred_type};

use crate::copies::Copies;
use krb_messages::{EncKrbCredPartInner, KrbCredInfo, KrbCredInner};

impl Copies for KrbCredInfo {
    ghost is_copy = { fields krb_cred_info_type
        (both (explicit_tag encryption_key) (both (optional_tag equal) (both (optional_tag principal_name)
        (both (optional_tag equal) (both (optional_tag equal) (both (optional_tag equal) (both (optional_tag equal)
        (both (optional_tag equal) (both (optional_tag equal) (both (optional_tag principal_name)
        (both (optional_tag (lists host_address)) end))))))))))) };
}

impl Copies for EncKrbCredPartInner {
    ghost use Rattle.equality_and_copies.specs.contracts.copies.credentials.KrbCredInfoCopies.TheImpl.Laws.{is_copy-law as krb_cred_info};

    ghost is_copy = { fields enc_krb_cred_part_type
        (both (explicit_tag (lists krb_cred_info)) (both (optional_tag equal) (both (optional_tag equal)
        (both (optional_tag equal) (both (optional_tag host_address) (both (optional_tag host_address) end)))))) };
}

impl Copies for KrbCredInner {
    ghost is_copy = { fields krb_cred_type
        (both (explicit_tag equal) (both (explicit_tag equal) (both (explicit_tag (lists (application_tag ticket)))
        (both (explicit_tag encrypted_data) end)))) };
}
