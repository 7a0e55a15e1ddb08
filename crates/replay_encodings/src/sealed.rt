//! Keys, checksums and entries of lists, by the names of their types.
use crate::{first_of, told_as};
use picky_krb::data_types::{
    AuthorizationData, AuthorizationDataInner, Checksum, EncryptedData, EncryptionKey, EtypeInfo2,
    EtypeInfo2Entry, LastReq, LastReqInner, PaData, PaEncTimestamp, PaEncTsEnc, TransitedEncoding,
};
use std::alloc::Global;
use test_support::{Answer, Recorded};

/// Whether such a value is read and written as expected; none for any other type.
pub fn agrees(alloc: Global, recorded: &Recorded<'_>) -> Option<Answer> {
    first_of(&[
        told_as::<AuthorizationData>(alloc, recorded, "AuthorizationData"),
        told_as::<AuthorizationDataInner>(alloc, recorded, "AuthorizationDataInner"),
        told_as::<Checksum>(alloc, recorded, "Checksum"),
        told_as::<EncryptedData>(alloc, recorded, "EncryptedData"),
        told_as::<EncryptionKey>(alloc, recorded, "EncryptionKey"),
        told_as::<EtypeInfo2>(alloc, recorded, "EtypeInfo2"),
        told_as::<EtypeInfo2Entry>(alloc, recorded, "EtypeInfo2Entry"),
        told_as::<LastReq>(alloc, recorded, "LastReq"),
        told_as::<LastReqInner>(alloc, recorded, "LastReqInner"),
        told_as::<PaData>(alloc, recorded, "PaData"),
        told_as::<PaEncTimestamp>(alloc, recorded, "PaEncTimestamp"),
        told_as::<PaEncTsEnc>(alloc, recorded, "PaEncTsEnc"),
        told_as::<TransitedEncoding>(alloc, recorded, "TransitedEncoding"),
    ])
}
