//! Lengths, contents and single octets (X.690, sections 8.1.3, 8.2, 8.3, 8.8).
use picky_asn1_der::misc::{Boolean, Length, Null, ReadExt, UnsignedInteger, Utf8String, WriteExt};
use picky_asn1_der::{Asn1DerError, Deserializer, Row2, Serializer, Space};

#[test]
fn written_lengths(rt: HostRuntime) {
    let mut out = [0u8; 4];
    let mut space = Space::new(&mut out);
    assert!(rt; Length::serialize(290, &mut space) == Ok(3));
    assert!(rt; space.write_one(9) == Ok(1));
    assert!(rt; space.write_one(9) == Err(Asn1DerError::InvalidSink));
    assert!(rt; Length::encoded_len(127) == 1 && Length::encoded_len(290) == 3);
    assert!(rt; out.as_slice() == [0x82, 1, 0x22, 9].as_slice());
}

fn length_fault(mut bytes: &[u8]) -> Option<Asn1DerError> {
    Length::deserialized(&mut bytes).err()
}

#[test]
fn read_lengths(rt: HostRuntime) {
    let mut from: &[u8] = &[0x82, 1, 0x22, 7];
    let rows = [
        Length::deserialized(&mut from) == Ok(290),
        from.read_one() == Ok(7),
        from.read_one() == Err(Asn1DerError::TruncatedData),
        length_fault(&[0x82, 1]) == Some(Asn1DerError::TruncatedData),
        length_fault(&[0x82, 0]) == Some(Asn1DerError::InvalidData),
        length_fault(&[0x80]) == Some(Asn1DerError::InvalidData),
    ];
    assert!(rt; rows == [true; 6], "{rows:?}");
}

#[test]
fn contents(rt: HostRuntime) {
    let rows = [
        Boolean::deserialize(&[0xFF]) == Ok(true),
        Boolean::deserialize(&[]) == Err(Asn1DerError::TruncatedData),
        Boolean::deserialize(&[1]) == Err(Asn1DerError::InvalidData),
        Null::deserialize(&[]) == Ok(()),
        Utf8String::deserialize(&[0x41]) == Ok("A"),
        Utf8String::deserialize(&[0xFF]) == Err(Asn1DerError::InvalidData),
    ];
    assert!(rt; rows == [true; 6], "{rows:?}");
}

fn number_of(content: &[u8]) -> Result<u16, Asn1DerError> {
    UnsignedInteger::deserialize::<u16>(content)
}

#[test]
fn numbers(rt: HostRuntime) {
    let large = Asn1DerError::UnsupportedValue;
    assert!(rt; UnsignedInteger::deserialize::<u8>(&[0, 128]) == Ok(128));
    assert!(rt; UnsignedInteger::deserialize::<u8>(&[1, 0]) == Err(large));
    assert!(rt; number_of(&[0, 1]) == Err(Asn1DerError::InvalidData));
    assert!(rt; number_of(&[128]) == Err(large));
}

#[test]
fn written_in_turn(rt: HostRuntime) {
    let mut out = [0u8; 8];
    let mut to = Serializer::new_to_bytes(&mut out);
    assert!(rt; UnsignedInteger::serialize(300u16, &mut to) == Ok(4));
    assert!(rt; to.serialize_i8(1) == Err(Asn1DerError::UnsupportedType));
    assert!(rt; to.serialize_str("A") == Ok(3));
    let Space { space, .. } = to.into_writer();
    assert!(rt; &*space == [2, 2, 1, 0x2C, 0x0C, 1, 0x41, 0].as_slice());
}

#[test]
fn read_in_turn(rt: HostRuntime) {
    let mut from = Deserializer::new_from_bytes(rt.alloc(), &[2, 2, 1, 0x2C, 0x0C, 1, 0x41, 5, 0]);
    let rows = [
        from.deserialize_identifier() == Ok(2),
        from.deserialize_u16() == Ok(300),
        from.deserialize_ignored_any() == Ok(()),
        from.deserialize_unit() == Ok(()),
        from.deserialize_i8() == Err(Asn1DerError::UnsupportedType),
        from.deserialize_unit() == Err(Asn1DerError::InvalidData),
    ];
    assert!(rt; rows == [true; 6], "{rows:?}");
}

#[test]
fn written_without_names(rt: HostRuntime) {
    let mut out = [0u8; 8];
    let mut to = Serializer::new_to_bytes(&mut out);
    assert!(rt; to.serialize_tuple_struct(&(&7u32, (&true, ()))) == Ok(8));
    let Space { space, .. } = to.into_writer();
    assert!(rt; &*space == [0x30, 6, 2, 1, 7, 1, 1, 0xFF].as_slice());
}

// The INTEGER 7 and TRUE.
fn are_two(from: &mut Deserializer<&[u8]>) -> bool {
    let two: Result<Row2<u32, bool>, Asn1DerError> = from.deserialize_tuple_struct();
    two == Ok((7, (true, ())))
}

#[test]
fn read_without_names(rt: HostRuntime) {
    let mut from = Deserializer::new_from_bytes(rt.alloc(), &[0x30, 6, 2, 1, 7, 1, 1, 0xFF, 5, 0]);
    assert!(rt; are_two(&mut from));
    assert!(rt; from.deserialize_unit_struct() == Ok(()));
}
