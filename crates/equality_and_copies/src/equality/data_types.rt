//! What messages hold (RFC 4120, section 5).
ghost use Rattle.std.specs.Cmp.{signed_Decides, unsigned_Decides};
ghost use Rattle.std.specs.Cmp.Lexicographic.{bytes_decides, pointwise_decides};
ghost use Rattle.equality_and_copies.specs.Equalities.{fields, both, last, variants, or_none, or_field};
ghost use Rattle.equality_and_copies.specs.WrappedEquality.{optional_tag, explicit_tag};
ghost use Rattle.equality_and_copies.specs.contracts.equality.leaves.BitStringAsn1Equality.TheImpl.Laws.{is_equality-law as bits};
ghost use Rattle.equality_and_copies.specs.contracts.equality.leaves.GeneralizedTimeAsn1Equality.TheImpl.Laws.{is_equality-law as time};
ghost use Rattle.krb_messages.specs.contracts.data_types.authorization_data.AuthorizationDataInner.{the_type as authorization_type};
ghost use Rattle.krb_messages.specs.contracts.data_types.checksum.Checksum.{the_type as checksum_type};
ghost use Rattle.krb_messages.specs.contracts.data_types.encryption_key.EncryptionKey.{the_type as encryption_key_type};
ghost use Rattle.krb_messages.specs.contracts.data_types.principal_name.PrincipalName.{the_type as principal_name_type};
ghost use Rattle.krb_messages.specs.contracts.data_types.authenticator.AuthenticatorInner.{the_type as authenticator_type};
ghost use Rattle.krb_messages.specs.contracts.data_types.enc_ap_rep_part.EncApRepPartInner.{the_type as enc_ap_rep_part_type};
ghost use Rattle.krb_messages.specs.contracts.data_types.host_address.HostAddress.{the_type as host_address_type};
ghost use Rattle.krb_messages.specs.contracts.data_types.transited_encoding.TransitedEncoding.{the_type as transited_encoding_type};
ghost use Rattle.krb_messages.specs.contracts.data_types.enc_ticket_part.EncTicketPartInner.{the_type as enc_ticket_part_type};
ghost use Rattle.krb_messages.specs.contracts.data_types.encrypted_data.EncryptedData.{the_type as encrypted_data_type};
ghost use Rattle.krb_messages.specs.contracts.data_types.etype_info2.EtypeInfo2Entry.{the_type as etype_info2_entry_type};
ghost use Rattle.krb_messages.specs.contracts.data_types.last_req.LastReqInner.{the_type as last_req_type};
ghost use Rattle.krb_messages.specs.contracts.data_types.pa_data.PaData.{the_type as pa_data_type};
ghost use Rattle.krb_messages.specs.contracts.data_types.pa_enc_timestamp.PaEncTsEnc.{the_type as pa_enc_ts_enc_type};
ghost use Rattle.krb_messages.specs.contracts.data_types.ticket.TicketInner.{the_type as ticket_type};
ghost use Rattle.krb_messages.specs.contracts.refusal.Refusal.{«enum» as refusal_enum};

use crate::equality::Equality;
use krb_messages::Refusal;
use krb_messages::data_types::{
    AuthenticatorInner, AuthorizationDataInner, Checksum, EncApRepPartInner, EncTicketPartInner,
    EncryptedData, EncryptionKey, EtypeInfo2Entry, HostAddress, LastReqInner, PaData, PaEncTsEnc,
    PrincipalName, TicketInner, TransitedEncoding,
};

impl Equality for AuthorizationDataInner {
    ghost is_equality = { fields authorization_type (both (explicit_tag signed_Decides) (last (explicit_tag bytes_decides))) };
}

impl Equality for Checksum {
    ghost is_equality = { fields checksum_type (both (explicit_tag signed_Decides) (last (explicit_tag bytes_decides))) };
}

impl Equality for EncryptionKey {
    ghost is_equality = { fields encryption_key_type (both (explicit_tag signed_Decides) (last (explicit_tag bytes_decides))) };
}

impl Equality for PrincipalName {
    ghost is_equality = { fields principal_name_type (both (explicit_tag signed_Decides) (last (explicit_tag (pointwise_decides bytes_decides)))) };
}

impl Equality for AuthenticatorInner {
    ghost use Rattle.equality_and_copies.specs.contracts.equality.data_types.AuthorizationDataInnerEquality.TheImpl.Laws.{is_equality-law as authorization};
    ghost use Rattle.equality_and_copies.specs.contracts.equality.data_types.ChecksumEquality.TheImpl.Laws.{is_equality-law as checksum};
    ghost use Rattle.equality_and_copies.specs.contracts.equality.data_types.EncryptionKeyEquality.TheImpl.Laws.{is_equality-law as encryption_key};
    ghost use Rattle.equality_and_copies.specs.contracts.equality.data_types.PrincipalNameEquality.TheImpl.Laws.{is_equality-law as principal_name};

    ghost is_equality = { fields authenticator_type
        (both (explicit_tag signed_Decides) (both (explicit_tag bytes_decides) (both (explicit_tag principal_name)
        (both (optional_tag checksum) (both (explicit_tag signed_Decides) (both (explicit_tag time)
        (both (optional_tag encryption_key) (both (optional_tag signed_Decides)
        (last (optional_tag (pointwise_decides authorization))))))))))) };
}

impl Equality for EncApRepPartInner {
    ghost use Rattle.equality_and_copies.specs.contracts.equality.data_types.EncryptionKeyEquality.TheImpl.Laws.{is_equality-law as encryption_key};

    ghost is_equality = { fields enc_ap_rep_part_type
        (both (explicit_tag time) (both (explicit_tag signed_Decides) (both (optional_tag encryption_key)
        (last (optional_tag signed_Decides))))) };
}

impl Equality for HostAddress {
    ghost is_equality = { fields host_address_type (both (explicit_tag signed_Decides) (last (explicit_tag bytes_decides))) };
}

impl Equality for TransitedEncoding {
    ghost is_equality = { fields transited_encoding_type (both (explicit_tag signed_Decides) (last (explicit_tag bytes_decides))) };
}

impl Equality for EncTicketPartInner {
    ghost use Rattle.equality_and_copies.specs.contracts.equality.data_types.AuthorizationDataInnerEquality.TheImpl.Laws.{is_equality-law as authorization};
    ghost use Rattle.equality_and_copies.specs.contracts.equality.data_types.EncryptionKeyEquality.TheImpl.Laws.{is_equality-law as encryption_key};
    ghost use Rattle.equality_and_copies.specs.contracts.equality.data_types.HostAddressEquality.TheImpl.Laws.{is_equality-law as host_address};
    ghost use Rattle.equality_and_copies.specs.contracts.equality.data_types.PrincipalNameEquality.TheImpl.Laws.{is_equality-law as principal_name};
    ghost use Rattle.equality_and_copies.specs.contracts.equality.data_types.TransitedEncodingEquality.TheImpl.Laws.{is_equality-law as transited_encoding};

    ghost is_equality = { fields enc_ticket_part_type
        (both (explicit_tag bits) (both (explicit_tag encryption_key) (both (explicit_tag bytes_decides)
        (both (explicit_tag principal_name) (both (explicit_tag transited_encoding) (both (explicit_tag time)
        (both (optional_tag time) (both (explicit_tag time) (both (optional_tag time)
        (both (optional_tag (pointwise_decides host_address))
        (last (optional_tag (pointwise_decides authorization))))))))))))) };
}

impl Equality for EncryptedData {
    ghost is_equality = { fields encrypted_data_type
        (both (explicit_tag signed_Decides) (both (optional_tag signed_Decides) (last (explicit_tag bytes_decides)))) };
}

impl Equality for EtypeInfo2Entry {
    ghost is_equality = { fields etype_info2_entry_type
        (both (explicit_tag signed_Decides) (both (optional_tag bytes_decides) (last (optional_tag bytes_decides)))) };
}

impl Equality for LastReqInner {
    ghost is_equality = { fields last_req_type (both (explicit_tag signed_Decides) (last (explicit_tag time))) };
}

impl Equality for PaData {
    ghost is_equality = { fields pa_data_type (both (explicit_tag signed_Decides) (last (explicit_tag bytes_decides))) };
}

impl Equality for PaEncTsEnc {
    ghost is_equality = { fields pa_enc_ts_enc_type (both (explicit_tag time) (last (optional_tag signed_Decides))) };
}

impl Equality for TicketInner {
    ghost use Rattle.equality_and_copies.specs.contracts.equality.data_types.EncryptedDataEquality.TheImpl.Laws.{is_equality-law as encrypted_data};
    ghost use Rattle.equality_and_copies.specs.contracts.equality.data_types.PrincipalNameEquality.TheImpl.Laws.{is_equality-law as principal_name};

    ghost is_equality = { fields ticket_type
        (both (explicit_tag signed_Decides) (both (explicit_tag bytes_decides) (both (explicit_tag principal_name)
        (last (explicit_tag encrypted_data))))) };
}

impl Equality for Refusal {
    ghost is_equality = { variants refusal_enum (or_field unsigned_Decides (or_none tt)) };
}
