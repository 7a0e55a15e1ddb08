//! The exchange that changes a password (RFC 3244, section 2): its messages by their productions (RFC 4120, sections 5.2.9,
//! 5.3, 5.5 and 5.7.1), under the paths of the front.

use krb_messages::is_number;
use microsoft_messages::KrbPrivFrame;
use picky_asn1_der::{Deserialize, Serialize, to_vec};
use picky_krb::constants::types::{KERBEROS_VERSION, KRB_PRIV};
use picky_krb::crypto::{CipherSuite, Key};
use picky_krb::data_types::EncKrbPrivPart;
use picky_krb::messages::{ApMessage, ApRep, ApReq, KrbPriv, KrbPrivMessage};
use picky_krb::{OpenFault, from_bytes, open_part, open_whole, read_whole};
use std::alloc::Global;
use std::io::ErrorKind;

// 141 bytes in all: an AP-REQ of 104, whose ticket of realm R is for kadmin/changepw, and a KRB-PRIV of 31.
const REQUEST: &[u8] = b"\x00\x8d\x00\x01\x00\x68\
    \x6e\x66\x30\x64\xa0\x03\x02\x01\x05\xa1\x03\x02\x01\x0e\xa2\x07\x03\x05\x00\x00\x00\x00\x00\
    \xa3\x3e\x61\x3c\x30\x3a\xa0\x03\x02\x01\x05\xa1\x03\x1b\x01R\
    \xa2\x1d\x30\x1b\xa0\x03\x02\x01\x02\xa1\x14\x30\x12\x1b\x06kadmin\x1b\x08changepw\
    \xa3\x0f\x30\x0d\xa0\x03\x02\x01\x12\xa2\x06\x04\x04seal\
    \xa4\x0f\x30\x0d\xa0\x03\x02\x01\x12\xa2\x06\x04\x04seal\
    \x75\x1d\x30\x1b\xa0\x03\x02\x01\x05\xa1\x03\x02\x01\x15\
    \xa3\x0f\x30\x0d\xa0\x03\x02\x01\x12\xa2\x06\x04\x04seal";

// 68 bytes in all: an AP-REP of 31, and a KRB-PRIV from octet 37 on.
const REPLY: &[u8] = b"\x00\x44\x00\x01\x00\x1f\
    \x6f\x1d\x30\x1b\xa0\x03\x02\x01\x05\xa1\x03\x02\x01\x0f\
    \xa2\x0f\x30\x0d\xa0\x03\x02\x01\x12\xa2\x06\x04\x04seal\
    \x75\x1d\x30\x1b\xa0\x03\x02\x01\x05\xa1\x03\x02\x01\x15\
    \xa3\x0f\x30\x0d\xa0\x03\x02\x01\x12\xa2\x06\x04\x04seal";

// The part of a KRB-PRIV without what is optional: six octets from the address 10.0.0.1.
const PART: &[u8] = b"\x7c\x1d\x30\x1b\xa0\x08\x04\x06secret\
    \xa4\x0f\x30\x0d\xa0\x03\x02\x01\x02\xa1\x06\x04\x04\x0a\x00\x00\x01";

// The part of a KRB-PRIV with a time and 999,999 microseconds, sequence number 7, and the receiver's address 10.0.0.2.
const LONG_PART: &[u8] = b"\x7c\x4d\x30\x4b\xa0\x08\x04\x06secret\
    \xa1\x11\x18\x0f20000101000000Z\xa2\x05\x02\x03\x0f\x42\x3f\xa3\x03\x02\x01\x07\
    \xa4\x0f\x30\x0d\xa0\x03\x02\x01\x02\xa1\x06\x04\x04\x0a\x00\x00\x01\
    \xa5\x0f\x30\x0d\xa0\x03\x02\x01\x02\xa1\x06\x04\x04\x0a\x00\x00\x02";

// `PART` under `KEY` for usage 13 (RFC 4120, section 7.5.1), behind the confounder of the octets 0 to 15, as sealed by
// another implementation of RFC 3962.
const SEALED: &[u8] = b"\
    \x7d\x45\xdd\xef\xb3\xcb\xbc\x93\x07\xd6\xce\x01\x20\xf7\x0d\xe5\x47\x89\x6d\xa8\x5c\x8d\xe1\xa0\
    \x5e\xe3\xe0\x58\x2b\xd0\x64\x61\x21\x92\x10\x51\x26\xeb\xda\x09\xa0\x36\x2d\xd9\x89\x6d\x46\xaf\
    \x05\x15\x0f\x19\xcf\x0a\x6e\xe1\xe2\xc2\x2a";

const KEY: &[u8] = &[7; 32];

const SUITE: CipherSuite = CipherSuite::Aes256CtsHmacSha196;

fn is_written<A: Serialize + Drop, P: Serialize + Drop>(
    alloc: Global,
    message: KrbPrivFrame<A, P>,
    wanted: &[u8],
) -> bool {
    let mut written = Vec::new(alloc);
    message.serialize(alloc, &mut written).is_ok() && written.as_slice() == wanted
}

// Whether a copy is the message, and written as these bytes.
fn is_copied<A, P>(alloc: Global, message: KrbPrivFrame<A, P>, wanted: &[u8]) -> bool
where
    A: Serialize + Clone + PartialEq + Drop,
    P: Serialize + Clone + PartialEq + Drop,
{
    match message.clone() {
        Ok(copy) => copy == message && is_written(alloc, copy, wanted),
        Err(_) => false,
    }
}

// Whether a message is read from these bytes, none of which is left, and a copy of it is written as they are.
fn is_given_back(alloc: Global, bytes: &[u8]) -> bool {
    let mut left = bytes;
    match KrbPrivMessage::deserialize(alloc, &mut left) {
        Ok(message) => is_copied(alloc, message, bytes) && left.is_empty(),
        Err(_) => false,
    }
}

#[test]
fn read_and_written(rt: HostRuntime) {
    assert!(rt; is_given_back(rt.alloc(), REQUEST));
    assert!(rt; is_given_back(rt.alloc(), REPLY));
}

fn is_private(message: KrbPriv) -> bool {
    let inner = message.0;
    is_number(&inner.pvno.0, KERBEROS_VERSION)
        && is_number(&inner.msg_type.0, u32::from(KRB_PRIV))
        && inner.enc_part.0.cipher.0.as_bytes() == b"seal".as_slice()
}

fn is_private_read(alloc: Global, bytes: &[u8]) -> bool {
    match from_bytes::<KrbPriv>(alloc, bytes) {
        Ok(message) => is_private(message),
        Err(_) => false,
    }
}

#[test]
fn fields(rt: HostRuntime) {
    assert!(rt; is_private_read(rt.alloc(), &REPLY[37..]));
}

fn fault_of<A: Deserialize + Drop, P: Deserialize + Drop>(
    alloc: Global,
    bytes: &[u8],
) -> Option<ErrorKind> {
    let mut left = bytes;
    match KrbPrivFrame::<A, P>::deserialize(alloc, &mut left) {
        Ok(_) => None,
        Err(error) => Some(error.kind),
    }
}

// An AP message of either kind is read, and each is what its frame says.
#[test]
fn told_by_the_tag(rt: HostRuntime) {
    let wrong = Some(ErrorKind::InvalidData);
    for (bytes, as_request, as_reply) in &[(REQUEST, None, wrong), (REPLY, wrong, None)] {
        let faults = [
            fault_of::<ApMessage, KrbPriv>(rt.alloc(), bytes),
            fault_of::<ApReq, KrbPriv>(rt.alloc(), bytes),
            fault_of::<ApRep, KrbPriv>(rt.alloc(), bytes),
        ];
        assert!(rt; faults == [None, *as_request, *as_reply]);
    }
}

// What a reply is refused by where one octet of it is another.
fn fault_at(alloc: Global, place: usize, octet: u8) -> Option<Option<ErrorKind>> {
    let mut bytes = Vec::from_slice(alloc, REPLY).ok()?;
    *bytes.get_mut(place)? = octet;
    Some(fault_of::<ApMessage, KrbPriv>(alloc, &bytes))
}

#[test]
fn refused(rt: HostRuntime) {
    let wrong = Some(ErrorKind::InvalidData);
    for (place, octet, fault) in &[
        // Of the lengths, which aren't judged, the whole one is too small, then too great, and the AP message's past the end.
        (1, 0, None),
        (0, 0xff, None),
        (5, 0xff, None),
        // Versions 0xFF01 and 2.
        (2, 0xff, wrong),
        (3, 2, wrong),
        // No AP message, and a KRB-ERROR's tag in place of the KRB-PRIV's.
        (6, 0x6d, wrong),
        (37, 0x7e, wrong),
    ] {
        assert!(rt;
            fault_at(rt.alloc(), *place, *octet) == Some(*fault),
            "{octet} at {place}"
        );
    }
}

#[test]
fn cut(rt: HostRuntime) {
    for size in 0..REPLY.len() {
        let wanted = if size < 6 {
            ErrorKind::UnexpectedEof
        } else {
            ErrorKind::InvalidData
        };
        assert!(rt;
            fault_of::<ApMessage, KrbPriv>(rt.alloc(), &REPLY[..size]) == Some(wanted),
            "at {size}"
        );
    }
}

fn is_encoded<T: Serialize + Drop>(alloc: Global, value: T, bytes: &[u8]) -> bool {
    match to_vec(alloc, &value) {
        Ok(written) => written.as_slice() == bytes,
        Err(_) => false,
    }
}

// Whether the bytes are the encoding of a value.
fn is_spelled<T: Deserialize + Drop>(alloc: Global, bytes: &[u8]) -> Option<bool> {
    match read_whole::<T>(alloc, bytes) {
        Ok(Some(value)) => Some(is_encoded(alloc, value, bytes)),
        Ok(None) => Some(false),
        Err(_) => None,
    }
}

#[test]
fn parts(rt: HostRuntime) {
    let cases: &[(&[u8], bool)] = &[
        (PART, true),
        (LONG_PART, true),
        (&PART[..30], false),
        // The sender's address is missing.
        (b"\x7c\x0c\x30\x0a\xa0\x08\x04\x06secret", false),
    ];
    for (bytes, wanted) in cases {
        assert!(rt; is_spelled::<EncKrbPrivPart>(rt.alloc(), bytes) == Some(*wanted));
    }
}

fn is_secret(part: EncKrbPrivPart) -> bool {
    part.0.user_data.0.as_bytes() == b"secret".as_slice()
}

fn is_opened(alloc: Global, usage: i32) -> bool {
    match open_part(alloc, SUITE, KEY, usage, SEALED) {
        Ok(part) => is_secret(part),
        Err(_) => false,
    }
}

fn is_wrong_key(alloc: Global) -> bool {
    matches!(
        open_part::<EncKrbPrivPart>(alloc, SUITE, &[8; 32], 13, SEALED),
        Err(OpenFault::Crypto(_))
    )
}

// Whether nothing is sealed here for this usage.
fn is_nothing<T: Deserialize + Drop>(alloc: Global, usage: i32) -> Option<bool> {
    let key = Key::new(SUITE, KEY).ok()?;
    match open_whole::<T>(alloc, &key, usage, SEALED) {
        Ok(opened) => Some(opened.is_none()),
        Err(_) => None,
    }
}

#[test]
fn opened(rt: HostRuntime) {
    let alloc = rt.alloc();
    assert!(rt; is_opened(alloc, 13) && is_wrong_key(alloc));
    assert!(rt; is_nothing::<EncKrbPrivPart>(alloc, 13) == Some(false));
    assert!(rt; is_nothing::<EncKrbPrivPart>(alloc, 14) == Some(true));
}
