//! Identifier octets of types of the class universal (X.690, section 8.1.2; X.680, section 8.4), and of tags of the class
//! context-specific. Those of SEQUENCE and SET say that the encoding is constructed.

/// BOOLEAN.
pub const BOOLEAN: u8 = 1;

/// INTEGER.
pub const INTEGER: u8 = 2;

/// BIT STRING.
pub const BIT_STRING: u8 = 3;

/// OCTET STRING.
pub const OCTET_STRING: u8 = 4;

/// NULL.
pub const NULL: u8 = 5;

/// OBJECT IDENTIFIER.
pub const OBJECT_IDENTIFIER: u8 = 6;

/// UTF8String.
pub const UTF8_STRING: u8 = 12;

/// PrintableString.
pub const PRINTABLE_STRING: u8 = 19;

/// IA5String.
pub const IA5_STRING: u8 = 22;

/// UTCTime.
pub const UTC_TIME: u8 = 23;

/// GeneralizedTime.
pub const GENERALIZED_TIME: u8 = 24;

/// GeneralString.
pub const GENERAL_STRING: u8 = 27;

/// BMPString.
pub const BMP_STRING: u8 = 30;

/// SEQUENCE and SEQUENCE OF.
pub const SEQUENCE: u8 = 48;

/// SET and SET OF.
pub const SET: u8 = 49;

/// \[0\], constructed (X.690, section 8.1.2).
pub const CONTEXT_0: u8 = 0xA0;

/// \[1\], constructed (X.690, section 8.1.2).
pub const CONTEXT_1: u8 = 0xA1;

/// \[2\], constructed (X.690, section 8.1.2).
pub const CONTEXT_2: u8 = 0xA2;

/// \[3\], constructed (X.690, section 8.1.2).
pub const CONTEXT_3: u8 = 0xA3;

/// \[4\], constructed (X.690, section 8.1.2).
pub const CONTEXT_4: u8 = 0xA4;

/// \[5\], constructed (X.690, section 8.1.2).
pub const CONTEXT_5: u8 = 0xA5;

/// \[1\], primitive (X.690, section 8.1.2).
pub const CONTEXT_PRIMITIVE_1: u8 = 0x81;

/// \[2\], primitive (X.690, section 8.1.2).
pub const CONTEXT_PRIMITIVE_2: u8 = 0x82;

/// \[6\], primitive (X.690, section 8.1.2).
pub const CONTEXT_PRIMITIVE_6: u8 = 0x86;

/// \[7\], primitive (X.690, section 8.1.2).
pub const CONTEXT_PRIMITIVE_7: u8 = 0x87;

/// \[8\], primitive (X.690, section 8.1.2).
pub const CONTEXT_PRIMITIVE_8: u8 = 0x88;
