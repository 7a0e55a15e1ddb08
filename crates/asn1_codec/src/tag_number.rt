//! The numbers of tags.

/// The number of a tag, as a type.
pub struct TagNumber<const N: u8>;

/// A tag's number that its one identifier octet says: below 31 (X.690, section 8.1.2.2).
pub trait IsTagNumber {}

impl IsTagNumber for TagNumber<0> {}

impl IsTagNumber for TagNumber<1> {}

impl IsTagNumber for TagNumber<2> {}

impl IsTagNumber for TagNumber<3> {}

impl IsTagNumber for TagNumber<4> {}

impl IsTagNumber for TagNumber<5> {}

impl IsTagNumber for TagNumber<6> {}

impl IsTagNumber for TagNumber<7> {}

impl IsTagNumber for TagNumber<8> {}

impl IsTagNumber for TagNumber<9> {}

impl IsTagNumber for TagNumber<10> {}

impl IsTagNumber for TagNumber<11> {}

impl IsTagNumber for TagNumber<12> {}

impl IsTagNumber for TagNumber<13> {}

impl IsTagNumber for TagNumber<14> {}

impl IsTagNumber for TagNumber<15> {}

impl IsTagNumber for TagNumber<16> {}

impl IsTagNumber for TagNumber<17> {}

impl IsTagNumber for TagNumber<18> {}

impl IsTagNumber for TagNumber<19> {}

impl IsTagNumber for TagNumber<20> {}

impl IsTagNumber for TagNumber<21> {}

impl IsTagNumber for TagNumber<22> {}

impl IsTagNumber for TagNumber<23> {}

impl IsTagNumber for TagNumber<24> {}

impl IsTagNumber for TagNumber<25> {}

impl IsTagNumber for TagNumber<26> {}

impl IsTagNumber for TagNumber<27> {}

impl IsTagNumber for TagNumber<28> {}

impl IsTagNumber for TagNumber<29> {}

impl IsTagNumber for TagNumber<30> {}
