//! Public values.
ghost use Rattle.std.specs.Prelude.{◌≡◌, ◌⊎◌, false, pos, IfOk, IsTrue, MatchResult};
ghost use Rattle.picky_asn1_der.specs.Splits.{raw_bytes};
ghost use Rattle.picky_asn1.specs.Integer.{unsigned_octets};
ghost use Rattle.modular_arithmetic.specs.Naturals.{os2ip};
ghost use Rattle.public_key_cryptography.specs.Agreements.{public_of};
ghost use Rattle.rsa_keys.specs.Values.{is_natural, is_value, value_element};

use crate::algorithm::{algorithm_of, group_of};
use crate::fault::DhFault;
use crate::key_info::{DhPublicKeyInfo, key_info_bytes, key_info_in};
use picky_asn1::wrapper::{BitStringAsn1, BitStringAsn1Container, IntegerAsn1};
use picky_asn1_der::{Asn1RawDer, read_whole};
use public_key_cryptography::{Group, WeakGroup};
use std::alloc::{AllocError, Global};

/// A number of 2 to the prime less 2, and the group of that prime.
#[derive(Debug, Drop)]
pub struct DhPublicValue {
    group: Group,
    number: IntegerAsn1,
    pub ghost in_range: { IsTrue (is_value group number) },
}

impl DhPublicValue {
    ghost use Rattle.rsa_keys.specs.Reading.{Reads, ReadsBits};

    /// The public value that the number is in the group, or `OutOfRange`.
    pub fn new(group: Group, number: IntegerAsn1) -> Result<DhPublicValue, DhFault>
        ensures { MatchResult result (λ value. (value.group ≡ group) × (value.number ≡ number))
            (λ fault. (fault ≡ DhFault.OutOfRange) × (is_value group number ≡ false)) }
    {
        if !is_value(group, &number) {
            return Err(DhFault::OutOfRange);
        }
        Ok(DhPublicValue { group, number })
    }

    /// The public value of a secret number: 2 to its power (RFC 2631, section 2.1.1). `OutOfRange` where that is 0, 1 or the prime less
    /// 1, as of the secret 0.
    pub fn of_secret(alloc: Global, group: Group, secret: &[u8]) -> Result<DhPublicValue, DhFault>
        ensures { MatchResult result
            (λ value. (value.group ≡ group) × (value.number ≡ pos (os2ip (public_of group secret.now))))
            (λ fault. (fault ≡ DhFault.Memory) ⊎ ((fault ≡ DhFault.OutOfRange) × (is_value group (pos (os2ip (public_of group secret.now))) ≡ false))) }
    {
        let octets = group.public_value(alloc, secret)?;
        let Ok(number) = IntegerAsn1::from_bytes_be_unsigned(alloc, &octets) else {
            return Err(DhFault::Memory);
        };
        DhPublicValue::new(group, number)
    }

    /// The public value of which the element is the SubjectPublicKeyInfo, as a client sends it (RFC 4556, section 3.2.1). The first
    /// fault that holds counts, in the order of [`DhFault`].
    pub fn read(
        alloc: Global,
        element: &Asn1RawDer,
        weak: WeakGroup,
    ) -> Result<DhPublicValue, DhFault>
        ensures { Reads (raw_bytes element.now) weak result }
    {
        let Some(info) = key_info_in(alloc, element.as_bytes())? else {
            return Err(DhFault::Unreadable);
        };
        match group_of(info.algorithm.as_bytes(), weak) {
            Ok(group) => DhPublicValue::new(group, info.subject_public_key.0),
            Err(refusal) => Err(DhFault::from(refusal)),
        }
    }

    /// The public value of the group of which the bits are the DHPublicKey, as a KDC sends it (RFC 4556, section 3.2.3.1).
    pub fn read_bits(
        alloc: Global,
        group: Group,
        bits: &BitStringAsn1,
    ) -> Result<DhPublicValue, DhFault>
        ensures { ReadsBits bits.now group result }
    {
        if bits.unused() != 0 {
            return Err(DhFault::Unreadable);
        }
        let Some(number) = read_whole(alloc, bits.as_bytes())? else {
            return Err(DhFault::Unreadable);
        };
        DhPublicValue::new(group, number)
    }

    /// The group.
    pub fn group(&self) -> Group
        ensures { result ≡ self.now.group }
    {
        self.group
    }

    /// The number as octets, the most significant first, without a zero octet in front.
    pub fn octets(&self) -> &[u8]
        ensures { result.now ≡ unsigned_octets self.now.number }
    {
        self.number.as_unsigned_bytes_be()
    }

    /// The SubjectPublicKeyInfo.
    pub fn to_element(&self, alloc: Global) -> Result<Asn1RawDer, AllocError>
        ensures { IfOk result (λ element. element ≡ value_element self.now.group self.now.number) }
    {
        let algorithm = element_of(Vec::from_slice(alloc, algorithm_of(self.group))?)?;
        let number = self.number.clone()?;
        let info = DhPublicKeyInfo {
            algorithm,
            subject_public_key: BitStringAsn1Container(number),
        };
        element_of(key_info_bytes(alloc, info)?)
    }
}

/// The element that the bytes are.
fn element_of(bytes: Vec<u8>) -> Result<Asn1RawDer, AllocError>
    ensures { IfOk result (λ element. bytes.items ≡ raw_bytes element) }
{
    match Asn1RawDer::new(bytes) {
        Ok(element) => Ok(element),
        Err(_) => Err(AllocError),
    }
}

/// Whether a number is one of 2 to the prime less 2.
fn is_value(group: Group, number: &IntegerAsn1) -> bool
    ensures { result ≡ is_value group number.now }
{
    is_natural(number) && group.is_in_range(number.as_unsigned_bytes_be())
}

/// Whether a number isn't negative.
pub fn is_natural(number: &IntegerAsn1) -> bool
    ensures { result ≡ is_natural number.now }
{
    match number.as_signed_bytes_be() {
        [first, ..] => *first < 128,
        [] => true,
    }
}
