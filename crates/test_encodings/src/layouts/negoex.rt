//! Messages of NEGOEX, by the tables of MS-NEGOEX, section 2.2, and by messages of a stock peer.

use picky_krb::negoex::data_types::{Checksum, Extension, MessageHeader, MessageType};
use picky_krb::negoex::messages::{Exchange, Nego, Verify};
use picky_krb::negoex::{
    CHECKSUM_SCHEME_RFC3961, NEGOEXTS_MESSAGE_SIGNATURE, NegoexMessage, PROTOCOL_VERSION,
};
use std::alloc::Global;
use std::io::ErrorKind;
use uuid::Uuid;

// An initiator's offer of one scheme.
const NEGO: &[u8] = b"\
    NEGOEXTS\x00\x00\x00\x00\x00\x00\x00\x00`\x00\x00\x00p\x00\x00\x00Z\x07);\x91\xf33\xaf\xa1\
    \xb4\xa2\x12$\x9d|\xb4\xab\x1e\x9dm\xa6w\x1d\xd4\x1a(\x0eWE\xbb\xd9\x84\xc3],\xdbpr\xb8\
    \x88\x19\x5cv\xefqoGx\x00\x00\x00\x00\x00\x00\x00\x00`\x00\x00\x00\x01\x00\x00\x00\x00\x00\
    \x00\x00\x00\x00\x00\x00\x5c3S\x0d\xea\xf9\x0dM\xb2\xecJ\xe3xn\xc3\x08";

// An acceptor's metadata for a scheme.
const EXCHANGE: &[u8] = b"\
    NEGOEXTS\x03\x00\x00\x00\x03\x00\x00\x00@\x00\x00\x00\xee\x00\x00\x00Z\x07);\x91\xf33\xaf\
    \xa1\xb4\xa2\x12$\x9d|\xb4\x5c3S\x0d\xea\xf9\x0dM\xb2\xecJ\xe3xn\xc3\x08@\x00\x00\x00\xae\
    \x00\x00\x000\x81\xab\xa0\x81\xa80\x81\xa50Q\x80O0M1K0I\x06\x03U\x04\x03\x1eB\x00M\x00S\
    \x00-\x00O\x00r\x00g\x00a\x00n\x00i\x00z\x00a\x00t\x00i\x00o\x00n\x00-\x00P\x002\x00P\x00-\
    \x00A\x00c\x00c\x00e\x00s\x00s\x00\x20\x00[\x002\x000\x002\x001\x00]0'\x80%0#1!0\x1f\x06\
    \x03U\x04\x03\x13\x18Token\x20Signing\x20Public\x20Key0'\x80%0#1!0\x1f\x06\x03U\x04\x03\
    \x13\x18Token\x20Signing\x20Public\x20Key";

// An initiator's metadata for a scheme.
const META_DATA: &[u8] = b"\
    NEGOEXTS\x02\x00\x00\x00\x01\x00\x00\x00@\x00\x00\x00)\x01\x00\x00Z\x07);\x91\xf33\xaf\xa1\
    \xb4\xa2\x12$\x9d|\xb4\x5c3S\x0d\xea\xf9\x0dM\xb2\xecJ\xe3xn\xc3\x08@\x00\x00\x00\xe9\x00\
    \x00\x000\x81\xe6\xa0\x81\xa90\x81\xa60Q\x80O0M1K0I\x06\x03U\x04\x03\x1eB\x00M\x00S\x00-\
    \x00O\x00r\x00g\x00a\x00n\x00i\x00z\x00a\x00t\x00i\x00o\x00n\x00-\x00P\x002\x00P\x00-\x00A\
    \x00c\x00c\x00e\x00s\x00s\x00\x20\x00[\x002\x000\x002\x001\x00]0Q\x80O0M1K0I\x06\x03U\x04\
    \x03\x1eB\x00M\x00S\x00-\x00O\x00r\x00g\x00a\x00n\x00i\x00z\x00a\x00t\x00i\x00o\x00n\x00-\
    \x00P\x002\x00P\x00-\x00A\x00c\x00c\x00e\x00s\x00s\x00\x20\x00[\x002\x000\x002\x001\x00]\
    \xa1806\xa0\x11\x1b\x0fWELLKNOWN:PKU2U\xa1!0\x1f\xa0\x03\x02\x01\x02\xa1\x180\x16\x1b\x07T\
    ERMSRV\x1b\x0bAZRDOWN-\x5710";

// A checksum of 12 bytes.
pub(crate) const VERIFY: &[u8] = b"\
    NEGOEXTS\x06\x00\x00\x00\x07\x00\x00\x00P\x00\x00\x00\x5c\x00\x00\x00Z\x07);\x91\xf33\xaf\
    \xa1\xb4\xa2\x12$\x9d|\xb4\x5c3S\x0d\xea\xf9\x0dM\xb2\xecJ\xe3xn\xc3\x08\x14\x00\x00\x00\
    \x01\x00\x00\x00\x10\x00\x00\x00P\x00\x00\x00\x0c\x00\x00\x00\x00\x00\x00\x00\xe4\xa7p\x94\
    \x17\x83\xcc\x0c\x0d$:W";

// VERIFY with a header of 76 bytes, not 80, and so with another message length; its sequence number and checksum differ too.
const VERIFY_76: &[u8] = b"\
    NEGOEXTS\x06\x00\x00\x00\x09\x00\x00\x00L\x00\x00\x00X\x00\x00\x00Z\x07);\x91\xf33\xaf\xa1\
    \xb4\xa2\x12$\x9d|\xb4\x5c3S\x0d\xea\xf9\x0dM\xb2\xecJ\xe3xn\xc3\x08\x14\x00\x00\x00\x01\
    \x00\x00\x00\x10\x00\x00\x00L\x00\x00\x00\x0c\x00\x00\x00\x00\x00\x00\x00P\x0e\x8e\x06:\
    \x1dj\xa5H\xa0o\x0c";

const CHECKSUM: &[u8] = b"\x50\x0e\x8e\x06\x3a\x1d\x6a\xa5\x48\xa0\x6f\x0c";

fn conversation() -> Uuid {
    Uuid::from_u128(0x3b29_075a_f391_af33_a1b4_a212_249d_7cb4)
}

fn scheme() -> Uuid {
    Uuid::from_u128(0x0d53_335c_f9ea_4d0d_b2ec_4ae3_786e_c308)
}

fn bytes(alloc: Global, content: &[u8]) -> Option<Vec<u8>> {
    let mut made = Vec::new(alloc);
    made.extend_from_slice(content).ok()?;
    Some(made)
}

fn header(
    message_type: MessageType,
    sequence_num: u32,
    header_len: u32,
    message_len: u32,
) -> MessageHeader {
    MessageHeader {
        signature: NEGOEXTS_MESSAGE_SIGNATURE,
        message_type,
        sequence_num,
        header_len,
        message_len,
        conversation_id: conversation(),
    }
}

// The initiator's offer.
fn offer(alloc: Global) -> Option<Nego> {
    let mut random = [0; 32];
    random.copy_from_slice(NEGO.get(40..72)?);
    let mut auth_schemes = Vec::new(alloc);
    auth_schemes.push(scheme()).ok()?;
    Some(Nego {
        header: header(MessageType::InitiatorNego, 0, 96, 112),
        random,
        protocol_version: PROTOCOL_VERSION,
        auth_schemes,
        extensions: Vec::new(alloc),
    })
}

// A message of the scheme around what stands from octet 64 on.
fn exchange(alloc: Global, header: MessageHeader, message: &[u8]) -> Option<Exchange> {
    let exchange = bytes(alloc, message.get(64..)?)?;
    Some(Exchange {
        header,
        auth_scheme: scheme(),
        exchange,
    })
}

// A checksum of type 16 over the messages so far.
fn checked(alloc: Global, header: MessageHeader, value: &[u8]) -> Option<Verify> {
    let checksum_value = bytes(alloc, value)?;
    Some(Verify {
        header,
        auth_scheme: scheme(),
        checksum: Checksum {
            header_len: 20,
            checksum_scheme: CHECKSUM_SCHEME_RFC3961,
            checksum_type: 16,
            checksum_value,
        },
    })
}

// Whether these bytes are this message's: it is read from them, and written as them.
fn is_spelled<M: NegoexMessage + PartialEq + Drop>(
    alloc: Global,
    message: Option<M>,
    whole: &[u8],
) -> bool {
    match (message, M::decode(alloc, whole)) {
        (Some(wanted), Ok(read)) => read == wanted && is_written(alloc, wanted, whole),
        _ => false,
    }
}

#[test]
fn values(rt: HostRuntime) {
    assert!(rt; is_spelled(rt.alloc(), offer(rt.alloc()), NEGO));
    let told = header(MessageType::AcceptorMetaData, 3, 64, 238);
    assert!(rt; is_spelled(rt.alloc(), exchange(rt.alloc(), told, EXCHANGE), EXCHANGE));
    let told = header(MessageType::InitiatorMetaData, 1, 64, 297);
    assert!(rt; is_spelled(rt.alloc(), exchange(rt.alloc(), told, META_DATA), META_DATA));
    let told = header(MessageType::Verify, 7, 80, 92);
    assert!(rt; is_spelled(rt.alloc(), checked(rt.alloc(), told, &VERIFY[80..]), VERIFY));
}

// Whether the message is written as these bytes.
fn is_written<M: NegoexMessage + Drop>(alloc: Global, message: M, wanted: &[u8]) -> bool {
    let mut written = Vec::new(alloc);
    message.encode(alloc, &mut written).is_ok() && written.as_slice() == wanted
}

// Whether a message is read from these bytes, and its copy is written as they are.
fn is_copied<M: NegoexMessage + Clone + Drop>(alloc: Global, whole: &[u8]) -> bool {
    match M::decode(alloc, whole) {
        Ok(message) => match message.clone() {
            Ok(copy) => is_written(alloc, copy, whole),
            Err(_) => false,
        },
        Err(_) => false,
    }
}

#[test]
fn copies(rt: HostRuntime) {
    assert!(rt; is_copied::<Nego>(rt.alloc(), NEGO));
    assert!(rt; is_copied::<Exchange>(rt.alloc(), EXCHANGE));
    assert!(rt; is_copied::<Verify>(rt.alloc(), VERIFY));
}

fn verify(alloc: Global, sequence_num: u32, checksum: &[u8]) -> Option<Verify> {
    let value = bytes(alloc, checksum)?;
    Verify::new(
        MessageType::Verify,
        conversation(),
        sequence_num,
        scheme(),
        16,
        value,
    )
    .ok()
}

fn is_verify(alloc: Global) -> bool {
    match verify(alloc, 7, &VERIFY[80..]) {
        Some(made) => is_written(alloc, made, VERIFY),
        None => false,
    }
}

fn is_verify_76(alloc: Global) -> bool {
    match verify(alloc, 9, CHECKSUM) {
        Some(mut made) => {
            made.header.header_len = 76;
            made.header.message_len = 88;
            is_written(alloc, made, VERIFY_76)
        }
        None => false,
    }
}

// The true header length is 80, the four zeros counted; another is written and used all the same.
#[test]
fn checksums(rt: HostRuntime) {
    assert!(rt; is_verify(rt.alloc()));
    assert!(rt; is_verify_76(rt.alloc()));
}

fn extension(alloc: Global, extension_type: u32, value: &[u8]) -> Option<Extension> {
    let extension_value = bytes(alloc, value)?;
    Some(Extension {
        extension_type,
        extension_value,
    })
}

fn two_extensions(alloc: Global) -> Option<Vec<Extension>> {
    let mut extensions = Vec::new(alloc);
    extensions.push(extension(alloc, 1, b"\xaa")?).ok()?;
    extensions.push(extension(alloc, 2, b"\xbb\xcc")?).ok()?;
    Some(extensions)
}

const EXTENSIONS: &[u8] = b"\x00\x00\x00\x00\x00\x00\x00\x00\x60\x00\x00\x00\x02\x00\x00\x00\
    \x01\x00\x00\x00\x78\x00\x00\x00\x01\x00\x00\x00\x02\x00\x00\x00\x79\x00\x00\x00\x02\x00\x00\x00\xaa\xbb\xcc";

fn offer_of(
    alloc: Global,
    auth_schemes: Vec<Uuid>,
    extensions: Option<Vec<Extension>>,
) -> Option<Nego> {
    Nego::new(
        MessageType::InitiatorNego,
        conversation(),
        0,
        [7; 32],
        auth_schemes,
        extensions?,
    )
    .ok()
}

// Whether the message has so many bytes, of which these are the last, and is what is read from them.
fn ends_in(alloc: Global, message: Option<Nego>, size: u8, end: &[u8]) -> Option<bool> {
    let wanted = message?;
    let whole = wanted.to_bytes(alloc).ok()?;
    let read = Nego::decode(alloc, &whole).ok()?;
    let all = whole.as_slice();
    Some(
        all.len() == size as usize
            && all.get(20..24)? == [size, 0, 0, 0].as_slice()
            && all.get(80..)? == end
            && read == wanted,
    )
}

// 123 bytes: an empty vector at offset 0, and two extensions whose values follow both headers.
#[test]
fn extensions(rt: HostRuntime) {
    let message = offer_of(rt.alloc(), Vec::new(rt.alloc()), two_extensions(rt.alloc()));
    assert!(rt; ends_in(rt.alloc(), message, 123, EXTENSIONS) == Some(true));
}

// Schemes at 96, extensions at 112, and the value of one at 124.
const BOTH: &[u8] = b"\x60\x00\x00\x00\x01\x00\x00\x00\x70\x00\x00\x00\x01\x00\x00\x00\
    \x5c3S\x0d\xea\xf9\x0dM\xb2\xecJ\xe3xn\xc3\x08\
    \x03\x00\x00\x00\x7c\x00\x00\x00\x02\x00\x00\x00\xaa\xbb";

fn one_of_each(alloc: Global) -> Option<Nego> {
    let mut schemes = Vec::new(alloc);
    schemes.push(scheme()).ok()?;
    let mut extensions = Vec::new(alloc);
    extensions.push(extension(alloc, 3, b"\xaa\xbb")?).ok()?;
    offer_of(alloc, schemes, Some(extensions))
}

// The second vector follows the first.
#[test]
fn schemes_and_extensions(rt: HostRuntime) {
    assert!(rt; ends_in(rt.alloc(), one_of_each(rt.alloc()), 126, BOTH) == Some(true));
}

// Why a message with other bytes at a place is refused: none where it isn't.
fn changed<M: NegoexMessage + Drop>(
    alloc: Global,
    message: &[u8],
    place: usize,
    with: [u8; 4],
) -> Option<ErrorKind> {
    let end = place.checked_add(4)?;
    let mut whole = bytes(alloc, message)?;
    whole
        .as_mut_slice()
        .get_mut(place..end)?
        .copy_from_slice(&with);
    match M::decode(alloc, &whole) {
        Ok(_) => None,
        Err(error) => Some(error.kind),
    }
}

// Signature, type, an offset one past the end with some bytes and without any, and more bytes than there are.
#[test]
fn refused_exchanges(rt: HostRuntime) {
    for (place, with, fault) in &[
        (0, *b"NEGX", Some(ErrorKind::InvalidData)),
        (8, [8, 0, 0, 0], Some(ErrorKind::InvalidData)),
        (56, [239, 0, 0, 0], Some(ErrorKind::InvalidData)),
        (56, [238, 0, 0, 0], Some(ErrorKind::UnexpectedEof)),
        (60, [0, 0, 0, 0], None),
        (60, [255, 255, 255, 255], Some(ErrorKind::UnexpectedEof)),
    ] {
        assert!(rt;
            changed::<Exchange>(rt.alloc(), EXCHANGE, *place, *with) == *fault,
            "at {place}"
        );
    }
}

// What is read if a message of 64 bytes has this count of bytes at this offset: how many, or why none are.
fn counted(alloc: Global, offset: u8, count: [u8; 4]) -> Option<Result<usize, ErrorKind>> {
    let mut whole = bytes(alloc, &EXCHANGE[..64])?;
    *whole.get_mut(56)? = offset;
    whole
        .as_mut_slice()
        .get_mut(60..64)?
        .copy_from_slice(&count);
    match Exchange::decode(alloc, &whole) {
        Ok(message) => Some(Ok(message.exchange.len())),
        Err(error) => Some(Err(error.kind)),
    }
}

// An offset at the end is before all that is counted, and one past the end is wrong, but where nothing is counted. The greatest
// count makes room for nothing.
#[test]
fn offsets_at_the_end(rt: HostRuntime) {
    for (offset, count, read) in &[
        (64, [0; 4], Ok(0)),
        (64, [1, 0, 0, 0], Err(ErrorKind::UnexpectedEof)),
        (64, [255; 4], Err(ErrorKind::UnexpectedEof)),
        (65, [0; 4], Ok(0)),
        (65, [1, 0, 0, 0], Err(ErrorKind::InvalidData)),
        (65, [255; 4], Err(ErrorKind::InvalidData)),
    ] {
        assert!(rt;
            counted(rt.alloc(), *offset, *count) == Some(*read),
            "{count:?} at {offset}"
        );
    }
}

#[test]
fn other_refusals(rt: HostRuntime) {
    let scheme = changed::<Verify>(rt.alloc(), VERIFY, 60, [2, 0, 0, 0]);
    assert!(rt; scheme == Some(ErrorKind::InvalidInput));
    let short = changed::<Nego>(rt.alloc(), &NEGO[..79], 0, *b"NEGO");
    assert!(rt; short == Some(ErrorKind::UnexpectedEof));
    let many_schemes = changed::<Nego>(rt.alloc(), NEGO, 84, [255; 4]);
    assert!(rt; many_schemes == Some(ErrorKind::UnexpectedEof));
}
