//! Credentials that are forwarded (RFC 4120, section 5.8).
ghost use Rattle.std.specs.Cmp.{signed_Decides};
ghost use Rattle.std.specs.Cmp.Lexicographic.{bytes_decides, pointwise_decides};
ghost use Rattle.equality_and_copies.specs.Equalities.{fields, both, last};
ghost use Rattle.equality_and_copies.specs.WrappedEquality.{optional_tag, explicit_tag, application_tag};
ghost use Rattle.equality_and_copies.specs.contracts.equality.data_types.EncryptedDataEquality.TheImpl.Laws.{is_equality-law as encrypted_data};
ghost use Rattle.equality_and_copies.specs.contracts.equality.data_types.EncryptionKeyEquality.TheImpl.Laws.{is_equality-law as encryption_key};
ghost use Rattle.equality_and_copies.specs.contracts.equality.data_types.HostAddressEquality.TheImpl.Laws.{is_equality-law as host_address};
ghost use Rattle.equality_and_copies.specs.contracts.equality.data_types.PrincipalNameEquality.TheImpl.Laws.{is_equality-law as principal_name};
ghost use Rattle.equality_and_copies.specs.contracts.equality.data_types.TicketInnerEquality.TheImpl.Laws.{is_equality-law as ticket};
ghost use Rattle.equality_and_copies.specs.contracts.equality.leaves.BitStringAsn1Equality.TheImpl.Laws.{is_equality-law as bits};
ghost use Rattle.equality_and_copies.specs.contracts.equality.leaves.GeneralizedTimeAsn1Equality.TheImpl.Laws.{is_equality-law as time};
ghost use Rattle.krb_messages.specs.contracts.krb_cred_info.KrbCredInfo.{the_type as krb_cred_info_type};
ghost use Rattle.krb_messages.specs.contracts.enc_krb_cred_part.EncKrbCredPartInner.{the_type as enc_krb_cred_part_type};
ghost use Rattle.krb_messages.specs.contracts.krb_cred.KrbCredInner.{the_type as krb_cred_type};

use crate::equality::Equality;
use krb_messages::{EncKrbCredPartInner, KrbCredInfo, KrbCredInner};

impl Equality for KrbCredInfo {
    ghost is_equality = { fields krb_cred_info_type
        (both (explicit_tag encryption_key) (both (optional_tag bytes_decides) (both (optional_tag principal_name)
        (both (optional_tag bits) (both (optional_tag time) (both (optional_tag time) (both (optional_tag time)
        (both (optional_tag time) (both (optional_tag bytes_decides) (both (optional_tag principal_name)
        (last (optional_tag (pointwise_decides host_address))))))))))))) };
}

impl Equality for EncKrbCredPartInner {
    ghost use Rattle.equality_and_copies.specs.contracts.equality.credentials.KrbCredInfoEquality.TheImpl.Laws.{is_equality-law as krb_cred_info};

    ghost is_equality = { fields enc_krb_cred_part_type
        (both (explicit_tag (pointwise_decides krb_cred_info)) (both (optional_tag signed_Decides) (both (optional_tag time)
        (both (optional_tag signed_Decides) (both (optional_tag host_address) (last (optional_tag host_address))))))) };
}

impl Equality for KrbCredInner {
    ghost is_equality = { fields krb_cred_type
        (both (explicit_tag signed_Decides) (both (explicit_tag signed_Decides)
        (both (explicit_tag (pointwise_decides (application_tag ticket))) (last (explicit_tag encrypted_data))))) };
}
