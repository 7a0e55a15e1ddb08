//! Two octets before other fields that are no element.
ghost use Rattle.std.specs.Prelude.{◌≡◌, length};
ghost use Rattle.asn1_codec.specs.Pairs.{pair_before};

use crate::de::Deserializer;
use crate::fields::{Fields, WriteFields};
use crate::row::{Item, WriteItem};
use crate::ser::Serializer;
use asn1_der::Asn1DerError;
use byte_streams::{Sink, Source};

/// Two octets of a content that are no element, as the token id of a Kerberos message (RFC 4121, section 4.1). In a row
/// they are a field.
#[derive(Clone, Copy, Debug, Drop, PartialEq, Eq)]
pub struct OctetPair(pub [u8; 2]);

impl WriteItem for OctetPair {
    ghost use Rattle.std.specs.Prelude.{None};

    ghost put_before = { λ pair trees. pair_before pair.0 trees };

    ghost own_refusal = { λ _. None };

    fn write_before<T: WriteFields, W: Sink>(
        &self,
        others: &T,
        to: &mut Serializer<W>,
    ) -> Result<usize, Asn1DerError> {
        let octets = two_of(&self.0);
        let first = to.octets(&octets)?;
        let rest = others.write(to)?;
        let sum = to.sum(first, rest)?;
        Ok(sum)
    }
}

/// The octets, of which a contract sees that they are two.
fn two_of(octets: &[u8; 2]) -> [u8; 2]
    ensures same { result ≡ octets.now }
    ensures two { length result ≡ 2 }
{
    let [first, second] = octets;
    [*first, *second]
}

impl Item for OctetPair {
    ghost use Rattle.std.specs.Prelude.{true, refl};
    ghost use Rattle.asn1_der.specs.Firsts.{any_octet};
    ghost use Rattle.asn1_codec.specs.PairLaws.{pair-injective};

    ghost put = { λ pair trees. pair_before pair.0 trees };

    ghost firsts_before = { λ _. any_octet };

    ghost is_told = { λ _. true };

    ghost starts = { λ B trees others starts pair b whole octet rest e. refl };

    ghost injective = { λ B trees others Same starts one told v w x y whole also e.
        let same = pair-injective Same trees one v.0 w.0 x y whole also e
        in (λ i. record { 0 = same.0 i }, same.1) };

    fn read_before<T: Fields, R: Source>(
        from: &mut Deserializer<R>,
    ) -> Result<(Self, T), Asn1DerError> {
        let first = from.take_octet()?;
        let second = from.take_octet()?;
        let tail = T::read(from)?;
        Ok((OctetPair([first, second]), tail))
    }
}
