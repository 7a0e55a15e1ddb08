//! What messages hold (RFC 4120, section 5).
ghost use Rattle.equality_and_copies.specs.Copied.{equal, fields, both, last, end, lists};
ghost use Rattle.equality_and_copies.specs.WrappedCopies.{optional_tag, explicit_tag};
ghost use Rattle.krb_messages.specs.contracts.data_types.authorization_data.AuthorizationDataInner.{the_type as authorization_type};
ghost use Rattle.krb_messages.specs.contracts.data_types.checksum.Checksum.{the_type as checksum_type};
ghost use Rattle.krb_messages.specs.contracts.data_types.encryption_key.EncryptionKey.{the_type as encryption_key_type};
ghost use Rattle.krb_messages.specs.contracts.data_types.authenticator.AuthenticatorInner.{the_type as authenticator_type};
ghost use Rattle.krb_messages.specs.contracts.data_types.enc_ap_rep_part.EncApRepPartInner.{the_type as enc_ap_rep_part_type};
ghost use Rattle.krb_messages.specs.contracts.data_types.host_address.HostAddress.{the_type as host_address_type};
ghost use Rattle.krb_messages.specs.contracts.data_types.transited_encoding.TransitedEncoding.{the_type as transited_encoding_type};
ghost use Rattle.krb_messages.specs.contracts.data_types.enc_ticket_part.EncTicketPartInner.{the_type as enc_ticket_part_type};
ghost use Rattle.krb_messages.specs.contracts.data_types.encrypted_data.EncryptedData.{the_type as encrypted_data_type};
ghost use Rattle.krb_messages.specs.contracts.data_types.etype_info2.EtypeInfo2Entry.{the_type as etype_info2_entry_type};
ghost use Rattle.krb_messages.specs.contracts.data_types.last_req.LastReqInner.{the_type as last_req_type};
ghost use Rattle.krb_messages.specs.contracts.data_types.pa_data.PaData.{the_type as pa_data_type};
ghost use Rattle.krb_messages.specs.contracts.data_types.pa_enc_timestamp.PaEncTsEnc.{the_type as pa_enc_ts_enc_type};
ghost use Rattle.krb_messages.specs.contracts.data_types.ticket.TicketInner.{the_type as ticket_type};

use crate::copies::Copies;
use krb_messages::Refusal;
use krb_messages::data_types::{
    AuthenticatorInner, AuthorizationDataInner, Checksum, EncApRepPartInner, EncTicketPartInner,
    EncryptedData, EncryptionKey, EtypeInfo2Entry, HostAddress, LastReqInner, PaData, PaEncTsEnc,
    PrincipalName, TicketInner, TransitedEncoding,
};

impl Copies for AuthorizationDataInner {
    ghost is_copy = { fields authorization_type (both (explicit_tag equal) (last (explicit_tag equal))) };
}

impl Copies for Checksum {
    ghost is_copy = { fields checksum_type (both (explicit_tag equal) (last (explicit_tag equal))) };
}

impl Copies for EncryptionKey {
    ghost is_copy = { fields encryption_key_type (both (explicit_tag equal) (last (explicit_tag equal))) };
}

impl Copies for PrincipalName {
    ghost is_copy = { equal };
}

impl Copies for AuthenticatorInner {
    ghost use Rattle.equality_and_copies.specs.contracts.copies.data_types.AuthorizationDataInnerCopies.TheImpl.Laws.{is_copy-law as authorization};
    ghost use Rattle.equality_and_copies.specs.contracts.copies.data_types.ChecksumCopies.TheImpl.Laws.{is_copy-law as checksum};
    ghost use Rattle.equality_and_copies.specs.contracts.copies.data_types.EncryptionKeyCopies.TheImpl.Laws.{is_copy-law as encryption_key};
    ghost use Rattle.equality_and_copies.specs.contracts.copies.data_types.PrincipalNameCopies.TheImpl.Laws.{is_copy-law as principal_name};

    ghost is_copy = { fields authenticator_type
        (both (explicit_tag equal) (both (explicit_tag equal) (both (explicit_tag principal_name)
        (both (optional_tag checksum) (both (explicit_tag equal) (both (explicit_tag equal)
        (both (optional_tag encryption_key) (both (optional_tag equal)
        (both (optional_tag (lists authorization)) end))))))))) };
}

impl Copies for EncApRepPartInner {
    ghost use Rattle.equality_and_copies.specs.contracts.copies.data_types.EncryptionKeyCopies.TheImpl.Laws.{is_copy-law as encryption_key};

    ghost is_copy = { fields enc_ap_rep_part_type
        (both (explicit_tag equal) (both (explicit_tag equal) (both (optional_tag encryption_key)
        (both (optional_tag equal) end)))) };
}

impl Copies for HostAddress {
    ghost is_copy = { fields host_address_type (both (explicit_tag equal) (last (explicit_tag equal))) };
}

impl Copies for TransitedEncoding {
    ghost is_copy = { fields transited_encoding_type (both (explicit_tag equal) (last (explicit_tag equal))) };
}

impl Copies for EncTicketPartInner {
    ghost use Rattle.equality_and_copies.specs.contracts.copies.data_types.AuthorizationDataInnerCopies.TheImpl.Laws.{is_copy-law as authorization};
    ghost use Rattle.equality_and_copies.specs.contracts.copies.data_types.EncryptionKeyCopies.TheImpl.Laws.{is_copy-law as encryption_key};
    ghost use Rattle.equality_and_copies.specs.contracts.copies.data_types.HostAddressCopies.TheImpl.Laws.{is_copy-law as host_address};
    ghost use Rattle.equality_and_copies.specs.contracts.copies.data_types.PrincipalNameCopies.TheImpl.Laws.{is_copy-law as principal_name};
    ghost use Rattle.equality_and_copies.specs.contracts.copies.data_types.TransitedEncodingCopies.TheImpl.Laws.{is_copy-law as transited_encoding};

    ghost is_copy = { fields enc_ticket_part_type
        (both (explicit_tag equal) (both (explicit_tag encryption_key) (both (explicit_tag equal)
        (both (explicit_tag principal_name) (both (explicit_tag transited_encoding) (both (explicit_tag equal)
        (both (optional_tag equal) (both (explicit_tag equal) (both (optional_tag equal)
        (both (optional_tag (lists host_address)) (both (optional_tag (lists authorization)) end))))))))))) };
}

impl Copies for EncryptedData {
    ghost is_copy = { fields encrypted_data_type (both (explicit_tag equal) (both (optional_tag equal) (last (explicit_tag equal)))) };
}

impl Copies for EtypeInfo2Entry {
    ghost is_copy = { fields etype_info2_entry_type (both (explicit_tag equal) (both (optional_tag equal) (last (optional_tag equal)))) };
}

impl Copies for LastReqInner {
    ghost is_copy = { fields last_req_type (both (explicit_tag equal) (last (explicit_tag equal))) };
}

impl Copies for PaData {
    ghost is_copy = { fields pa_data_type (both (explicit_tag equal) (last (explicit_tag equal))) };
}

impl Copies for PaEncTsEnc {
    ghost is_copy = { fields pa_enc_ts_enc_type (both (explicit_tag equal) (last (optional_tag equal))) };
}

impl Copies for TicketInner {
    ghost use Rattle.equality_and_copies.specs.contracts.copies.data_types.EncryptedDataCopies.TheImpl.Laws.{is_copy-law as encrypted_data};
    ghost use Rattle.equality_and_copies.specs.contracts.copies.data_types.PrincipalNameCopies.TheImpl.Laws.{is_copy-law as principal_name};

    ghost is_copy = { fields ticket_type
        (both (explicit_tag equal) (both (explicit_tag equal) (both (explicit_tag principal_name)
        (both (explicit_tag encrypted_data) end)))) };
}

impl Copies for Refusal {
    ghost is_copy = { equal };
}
