//! Identifier octets.
ghost use Rattle.std.specs.Prelude.{◌≡◌};
ghost use Rattle.picky_asn1_der.specs.Identifiers.{class_of, is_constructed_octet, number_in};

use asn1_der::octets::{
    BIT_STRING, BMP_STRING, BOOLEAN, GENERAL_STRING, GENERALIZED_TIME, IA5_STRING, INTEGER, NULL,
    OBJECT_IDENTIFIER, OCTET_STRING, PRINTABLE_STRING, SEQUENCE, SET, UTC_TIME, UTF8_STRING,
};
use std::marker::Model;

/// The class of a tag (X.690, section 8.1.2.2, table 1).
#[derive(Clone, Copy, Debug, PartialEq, Eq, Hash, PartialOrd, Ord)]
pub enum TagClass {
    /// A type of X.680 itself.
    Universal,
    /// A type of one application.
    Application,
    /// A type that is told from others by its place.
    ContextSpecific,
    /// A type of one user.
    Private,
}

/// An identifier octet: a tag's class and number, and whether the encoding is constructed (X.690, section 8.1.2).
///
/// A contract sees the octet. Numbers from 31 on are in further octets (8.1.2.4), which no type of this crate has.
#[derive(Clone, Copy, Debug, PartialEq, Eq, Hash, PartialOrd, Ord)]
pub struct Tag {
    octet: u8,
}

impl Model for Tag {
    ghost use Rattle.std.specs.Prelude.{ℕ, ◌<◌, ◌^◌};

    ghost Value = { ℕ };

    ghost view = { λ t. t.octet };

    ghost invariant = { λ t. t.octet < 2 ^ 8 };

    ghost inverse = { λ n. record { octet = n } };
}

impl From<u8> for Tag {
    ghost from_gives = { λ octet tag. tag ≡ octet };

    fn from(octet: u8) -> Tag {
        Tag { octet }
    }
}

impl From<Tag> for u8 {
    ghost from_gives = { λ tag octet. octet ≡ tag };

    fn from(tag: Tag) -> u8 {
        tag.octet
    }
}

impl Tag {
    /// A truth value.
    pub const BOOLEAN: Tag = Tag { octet: BOOLEAN };

    /// A whole number.
    pub const INTEGER: Tag = Tag { octet: INTEGER };

    /// A row of bits, in one piece.
    pub const BIT_STRING: Tag = Tag { octet: BIT_STRING };

    /// A row of octets, in one piece.
    pub const OCTET_STRING: Tag = Tag {
        octet: OCTET_STRING,
    };

    /// The one value NULL.
    pub const NULL: Tag = Tag { octet: NULL };

    /// An OBJECT IDENTIFIER.
    pub const OID: Tag = Tag {
        octet: OBJECT_IDENTIFIER,
    };

    /// A UTF8String.
    pub const UTF8_STRING: Tag = Tag { octet: UTF8_STRING };

    /// A SEQUENCE, also a SEQUENCE OF.
    pub const SEQUENCE: Tag = Tag { octet: SEQUENCE };

    /// A SET, also a SET OF.
    pub const SET: Tag = Tag { octet: SET };

    /// A PrintableString.
    pub const PRINTABLE_STRING: Tag = Tag {
        octet: PRINTABLE_STRING,
    };

    /// An IA5String.
    pub const IA5_STRING: Tag = Tag { octet: IA5_STRING };

    /// A UTCTime.
    pub const UTC_TIME: Tag = Tag { octet: UTC_TIME };

    /// A GeneralizedTime.
    pub const GENERALIZED_TIME: Tag = Tag {
        octet: GENERALIZED_TIME,
    };

    /// A GeneralString.
    pub const GENERAL_STRING: Tag = Tag {
        octet: GENERAL_STRING,
    };

    /// A BMPString.
    pub const BMP_STRING: Tag = Tag { octet: BMP_STRING };

    /// The class, which the bits 8 and 7 say.
    pub fn class(self) -> TagClass
        ensures { result ≡ class_of self }
    {
        match self.octet / 64 {
            0 => TagClass::Universal,
            1 => TagClass::Application,
            2 => TagClass::ContextSpecific,
            _ => TagClass::Private,
        }
    }

    /// Whether the content is elements, which bit 6 says.
    pub fn is_constructed(self) -> bool
        ensures { result ≡ is_constructed_octet self }
    {
        self.octet / 32 % 2 == 1
    }

    /// The number that the bits 5 to 1 say; 31 where further octets do (8.1.2.4).
    pub fn number(self) -> u8
        ensures { result ≡ number_in self }
    {
        self.octet % 32
    }
}
