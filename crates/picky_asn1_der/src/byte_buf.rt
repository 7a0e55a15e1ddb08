//! Octets of any kind.
ghost use Rattle.std.specs.Prelude.{◌≡◌, IfOk};
ghost use Rattle.asn1_der.specs.Octets.{octet_string_octet};

use asn1_codec::{Leaf, Serializer};
use asn1_der::octets::OCTET_STRING;
use asn1_der::{Asn1DerError, Rule};
use byte_streams::Sink;
use std::alloc::{AllocError, Global};
use std::marker::Model;

/// An OCTET STRING (X.690, section 8.7): any octets. A contract sees their list.
#[derive(Drop, Debug)]
pub struct ByteBuf {
    octets: Vec<u8>,
}

impl Model for ByteBuf {
    ghost use Rattle.std.specs.Prelude.{ℕ, List};

    ghost Value = { List ℕ };

    ghost view = { λ buffer. buffer.octets.items };
}

impl ByteBuf {
    /// The octets, borrowed.
    pub fn as_bytes(&self) -> &[u8]
        ensures { result.now ≡ self.now }
    {
        self.octets.as_slice()
    }

    /// The octets.
    pub fn into_vec(self) -> Vec<u8>
        ensures { result.items ≡ self }
    {
        let ByteBuf { octets } = self;
        octets
    }
}

impl From<Vec<u8>> for ByteBuf {
    ghost from_gives = { λ octets buffer. buffer ≡ octets.items };

    fn from(octets: Vec<u8>) -> ByteBuf {
        ByteBuf { octets }
    }
}

impl Leaf for ByteBuf {
    ghost use Rattle.std.specs.Prelude.{true};

    const OCTET: u8 = OCTET_STRING;

    const RULE: Rule = Rule::Characters;

    ghost OCTET = { octet_string_octet };

    ghost is_valid = { λ _. true };

    ghost content_of = { λ octets. octets };

    ghost one_content = { λ v w _ _ e. e };

    fn decode(alloc: Global, content: &[u8]) -> Result<Option<Self>, AllocError> {
        let octets = Vec::from_slice(alloc, content)?;
        Ok(Some(ByteBuf { octets }))
    }

    fn write_content<W: Sink>(
        &self,
        tag: u8,
        to: &mut Serializer<W>,
    ) -> Result<usize, Asn1DerError> {
        to.element(tag, self.as_bytes())
    }
}
