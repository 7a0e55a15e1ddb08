//! Types of which messages of NEGOEX are made up, by the tables of MS-NEGOEX, section 2.2.

use picky_krb::negoex::data_types::{Checksum, Extension, MessageHeader, MessageType};
use picky_krb::negoex::{CHECKSUM_SCHEME_RFC3961, NEGOEXTS_MESSAGE_SIGNATURE, NegoexDataType};
use std::alloc::Global;
use uuid::Uuid;

// Whether these bytes are this value's: it is read from them, and written as them.
fn is_spelled<T: NegoexDataType + PartialEq + Drop>(alloc: Global, value: T, whole: &[u8]) -> bool {
    let mut left = whole;
    let mut written = Vec::new(alloc);
    match T::decode(alloc, &mut left, whole) {
        Ok(read) => {
            read == value
                && value.encode(alloc, &mut written).is_ok()
                && written.as_slice() == whole
        }
        Err(_) => false,
    }
}

fn conversation() -> Uuid {
    Uuid::from_u128(0x3b29_075a_f391_af33_a1b4_a212_249d_7cb4)
}

const CONVERSATION: &[u8] = b"Z\x07);\x91\xf33\xaf\xa1\xb4\xa2\x12$\x9d|\xb4";

const SCHEME: &[u8] = b"\x5c3S\x0d\xea\xf9\x0dM\xb2\xecJ\xe3xn\xc3\x08";

// The first three fields stand with their lowest byte first.
#[test]
fn guids(rt: HostRuntime) {
    let scheme = Uuid::from_u128(0x0d53_335c_f9ea_4d0d_b2ec_4ae3_786e_c308);
    assert!(rt; is_spelled(rt.alloc(), scheme, SCHEME));
    assert!(rt; is_spelled(rt.alloc(), conversation(), CONVERSATION));
}

#[test]
fn message_types(rt: HostRuntime) {
    for (number, message_type) in &[
        (0, MessageType::InitiatorNego),
        (1, MessageType::AcceptorNego),
        (2, MessageType::InitiatorMetaData),
        (3, MessageType::AcceptorMetaData),
        (4, MessageType::Challenge),
        (5, MessageType::ApRequest),
        (6, MessageType::Verify),
        (7, MessageType::Alert),
    ] {
        assert!(rt;
            is_spelled(rt.alloc(), *message_type, &[*number, 0, 0, 0]),
            "{number}"
        );
    }
}

const HEADER: &[u8] = b"NEGOEXTS\x01\x00\x00\x00\x02\x00\x00\x00`\x00\x00\x00p\x00\x00\x00\
    Z\x07);\x91\xf33\xaf\xa1\xb4\xa2\x12$\x9d|\xb4";

#[test]
fn message_header(rt: HostRuntime) {
    let header = MessageHeader {
        signature: NEGOEXTS_MESSAGE_SIGNATURE,
        message_type: MessageType::AcceptorNego,
        sequence_num: 2,
        header_len: 96,
        message_len: 112,
        conversation_id: conversation(),
    };
    assert!(rt; is_spelled(rt.alloc(), header, HEADER));
}

fn extension(alloc: Global) -> Option<Extension> {
    let extension_value = Vec::from_slice(alloc, &[1, 2, 3, 4, 5, 6]).ok()?;
    Some(Extension {
        extension_type: 3,
        extension_value,
    })
}

// The value stands right behind the header of 12 bytes.
const EXTENSION: &[u8] =
    b"\x03\x00\x00\x00\x0c\x00\x00\x00\x06\x00\x00\x00\x01\x02\x03\x04\x05\x06";

fn is_extension(alloc: Global) -> bool {
    match extension(alloc) {
        Some(made) => made.size() == 18 && is_spelled(alloc, made, EXTENSION),
        None => false,
    }
}

const VALUE: &[u8] = b"\xe4\xa7\x70\x94\x17\x83\xcc\x0c\x0d\x24\x3a\x57";

fn checksum(alloc: Global) -> Option<Checksum> {
    let checksum_value = Vec::from_slice(alloc, VALUE).ok()?;
    Some(Checksum {
        header_len: 20,
        checksum_scheme: CHECKSUM_SCHEME_RFC3961,
        checksum_type: 16,
        checksum_value,
    })
}

// The value stands where the header's own length says. The size counts four bytes more.
const CHECKSUM: &[u8] =
    b"\x14\x00\x00\x00\x01\x00\x00\x00\x10\x00\x00\x00\x14\x00\x00\x00\x0c\x00\x00\x00\
    \xe4\xa7\x70\x94\x17\x83\xcc\x0c\x0d\x24\x3a\x57";

fn is_checksum(alloc: Global) -> bool {
    match checksum(alloc) {
        Some(made) => made.size() == 36 && is_spelled(alloc, made, CHECKSUM),
        None => false,
    }
}

#[test]
fn with_values(rt: HostRuntime) {
    assert!(rt; is_extension(rt.alloc()));
    assert!(rt; is_checksum(rt.alloc()));
}

// A checksum that begins at octet 2 of a message, with its value at octet 24.
const APART: &[u8] =
    b"..\x14\x00\x00\x00\x01\x00\x00\x00\x10\x00\x00\x00\x18\x00\x00\x00\x0c\x00\x00\x00..\
    \xe4\xa7\x70\x94\x17\x83\xcc\x0c\x0d\x24\x3a\x57";

fn is_found(alloc: Global) -> Option<bool> {
    let mut left = APART.get(2..)?;
    let read = Checksum::decode(alloc, &mut left, APART).ok()?;
    Some(read == checksum(alloc)? && Some(left) == APART.get(22..))
}

// A type is read from a part of a message, whose first byte offsets count from.
#[test]
fn inside_a_message(rt: HostRuntime) {
    assert!(rt; is_found(rt.alloc()) == Some(true));
}

// Header and payload of an extension whose value is to be at octet 120.
fn is_apart(alloc: Global) -> Option<bool> {
    let mut header = Vec::new(alloc);
    let mut payload = Vec::new(alloc);
    let count = extension(alloc)?
        .encode_with_payload(alloc, 120, &mut header, &mut payload)
        .ok()?;
    Some(
        count == 6
            && header.as_slice() == b"\x03\x00\x00\x00\x78\x00\x00\x00\x06\x00\x00\x00".as_slice()
            && Some(payload.as_slice()) == EXTENSION.get(12..),
    )
}

#[test]
fn header_and_payload(rt: HostRuntime) {
    assert!(rt; is_apart(rt.alloc()) == Some(true));
}
