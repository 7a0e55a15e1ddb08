//! Uses of keys (RFC 5280, section 4.2.1.3).
ghost use Rattle.std.specs.Prelude.{◌≡◌, ℕ, ◌<◌, ◌≤◌, false, slice_index, IfOk, MatchResult};
ghost use Rattle.picky_asn1.specs.BitString.{Bits, IsBitString, bit_count, bit_of};
ghost use Rattle.x509_certificates.specs.Uses.{IsSet, IsWidened};
ghost use Rattle.asn1_der.specs.Octets.{bit_string_octet};

use asn1_der::octets::BIT_STRING;
use byte_streams::{Sink, Source};
use picky_asn1::LeafFault;
use picky_asn1::wrapper::BitStringAsn1;
use picky_asn1_der::{Asn1DerError, Deserializer, Serializer, Tagged};
use std::alloc::{AllocError, Global};
use x509_spelling::Exact;

/// What a key may be used for, a bit a use.
///
/// ```text
/// KeyUsage ::= BIT STRING {
///      digitalSignature        (0),
///      nonRepudiation          (1),
///      keyEncipherment         (2),
///      dataEncipherment        (3),
///      keyAgreement            (4),
///      keyCertSign             (5),
///      cRLSign                 (6),
///      encipherOnly            (7),
///      decipherOnly            (8) }
/// ```
///
/// Zeros behind the last use are kept as they stand.
#[derive(Debug, Drop, PartialEq, Eq)]
pub struct KeyUsage(BitStringAsn1);

impl Clone for KeyUsage {
    ghost is_clone = { λ usage copy. copy ≡ usage };

    fn clone(&self) -> Result<KeyUsage, AllocError> {
        let bits = self.0.clone()?;
        Ok(KeyUsage(bits))
    }
}

impl KeyUsage {
    /// No use of a key, in so many bits.
    pub fn new(alloc: Global, number_of_bits: usize) -> Result<KeyUsage, AllocError>
        ensures { IfOk result (λ made. (bit_count made.0 ≡ number_of_bits) × ((k : ℕ) → bit_of made.0 k ≡ false)) }
    {
        let bits = zero_bits(alloc, number_of_bits)?;
        Ok(KeyUsage(bits))
    }

    /// No use of a key, in no bits.
    pub fn default(alloc: Global) -> Result<KeyUsage, AllocError>
        ensures { IfOk result (λ made. (bit_count made.0 ≡ 0) × ((k : ℕ) → bit_of made.0 k ≡ false)) }
    {
        KeyUsage::new(alloc, 0)
    }

    /// The octets of the bits.
    pub fn as_bytes(&self) -> &[u8]
        ensures { result.now ≡ self.now.0.octets }
    {
        self.0.as_bytes()
    }

    /// Whether signatures may be made with the key.
    pub fn digital_signature(&self) -> bool
        ensures { result ≡ bit_of self.now.0 0 }
    {
        self.0.bit(0)
    }

    /// Whether signatures may be made that can't be denied.
    pub fn non_repudiation(&self) -> bool
        ensures { result ≡ bit_of self.now.0 1 }
    {
        self.0.bit(1)
    }

    /// Whether keys may be enciphered with it.
    pub fn key_encipherment(&self) -> bool
        ensures { result ≡ bit_of self.now.0 2 }
    {
        self.0.bit(2)
    }

    /// Whether data may be enciphered with it.
    pub fn data_encipherment(&self) -> bool
        ensures { result ≡ bit_of self.now.0 3 }
    {
        self.0.bit(3)
    }

    /// Whether keys may be agreed on with it.
    pub fn key_agreement(&self) -> bool
        ensures { result ≡ bit_of self.now.0 4 }
    {
        self.0.bit(4)
    }

    /// Whether certificates may be signed with it.
    pub fn key_cert_sign(&self) -> bool
        ensures { result ≡ bit_of self.now.0 5 }
    {
        self.0.bit(5)
    }

    /// Whether lists of revoked certificates may be signed with it.
    pub fn crl_sign(&self) -> bool
        ensures { result ≡ bit_of self.now.0 6 }
    {
        self.0.bit(6)
    }

    /// Whether an agreed key may encipher alone.
    pub fn encipher_only(&self) -> bool
        ensures { result ≡ bit_of self.now.0 7 }
    {
        self.0.bit(7)
    }

    /// Whether an agreed key may decipher alone.
    pub fn decipher_only(&self) -> bool
        ensures { result ≡ bit_of self.now.0 8 }
    {
        self.0.bit(8)
    }

    // Whether the key has the use with this number.
    pub(crate) fn has_use(&self, number: usize) -> bool
        ensures { result ≡ bit_of self.now.0 number }
    {
        self.0.bit(number)
    }

    /// Says whether signatures may be made with the key.
    pub fn set_digital_signature(&mut self, alloc: Global, value: bool) -> Result<(), AllocError>
        ensures { MatchResult result (λ _. IsSet 0 value self.old self.new) (λ _. self.new ≡ self.old) }
    {
        self.set(alloc, 0, value)
    }

    /// Says whether signatures may be made that can't be denied.
    pub fn set_non_repudiation(&mut self, alloc: Global, value: bool) -> Result<(), AllocError>
        ensures { MatchResult result (λ _. IsSet 1 value self.old self.new) (λ _. self.new ≡ self.old) }
    {
        self.set(alloc, 1, value)
    }

    /// Says whether keys may be enciphered with it.
    pub fn set_key_encipherment(&mut self, alloc: Global, value: bool) -> Result<(), AllocError>
        ensures { MatchResult result (λ _. IsSet 2 value self.old self.new) (λ _. self.new ≡ self.old) }
    {
        self.set(alloc, 2, value)
    }

    /// Says whether data may be enciphered with it.
    pub fn set_data_encipherment(&mut self, alloc: Global, value: bool) -> Result<(), AllocError>
        ensures { MatchResult result (λ _. IsSet 3 value self.old self.new) (λ _. self.new ≡ self.old) }
    {
        self.set(alloc, 3, value)
    }

    /// Says whether keys may be agreed on with it.
    pub fn set_key_agreement(&mut self, alloc: Global, value: bool) -> Result<(), AllocError>
        ensures { MatchResult result (λ _. IsSet 4 value self.old self.new) (λ _. self.new ≡ self.old) }
    {
        self.set(alloc, 4, value)
    }

    /// Says whether certificates may be signed with it.
    pub fn set_key_cert_sign(&mut self, alloc: Global, value: bool) -> Result<(), AllocError>
        ensures { MatchResult result (λ _. IsSet 5 value self.old self.new) (λ _. self.new ≡ self.old) }
    {
        self.set(alloc, 5, value)
    }

    /// Says whether lists of revoked certificates may be signed with it.
    pub fn set_crl_sign(&mut self, alloc: Global, value: bool) -> Result<(), AllocError>
        ensures { MatchResult result (λ _. IsSet 6 value self.old self.new) (λ _. self.new ≡ self.old) }
    {
        self.set(alloc, 6, value)
    }

    /// Says whether an agreed key may encipher alone.
    pub fn set_encipher_only(&mut self, alloc: Global, value: bool) -> Result<(), AllocError>
        ensures { MatchResult result (λ _. IsSet 7 value self.old self.new) (λ _. self.new ≡ self.old) }
    {
        self.set(alloc, 7, value)
    }

    /// Says whether an agreed key may decipher alone.
    pub fn set_decipher_only(&mut self, alloc: Global, value: bool) -> Result<(), AllocError>
        ensures { MatchResult result (λ _. IsSet 8 value self.old self.new) (λ _. self.new ≡ self.old) }
    {
        self.set(alloc, 8, value)
    }

    // Sets the bit of a use. Bits that are missing in front of it are added as zeros.
    fn set(&mut self, alloc: Global, number: usize, value: bool) -> Result<(), AllocError>
        requires { number < 9 }
        ensures { MatchResult result (λ _. IsSet number value self.old self.new) (λ _. self.new ≡ self.old) }
    {
        if self.0.len() <= number {
            self.0 = widened(alloc, &self.0, number + 1)?;
        }
        self.0.set(number, value);
        Ok(())
    }
}

// A string of `count` bits, which are all zero.
fn zero_bits(alloc: Global, count: usize) -> Result<BitStringAsn1, AllocError>
    ensures { IfOk result (λ bits. (bit_count bits ≡ count) × ((k : ℕ) → bit_of bits k ≡ false)) }
{
    let octets = vec![in alloc; 0; count.div_ceil(8)]?;
    let unused = (8 - count % 8) % 8;
    bits_of(alloc, octets.as_slice(), unused as u8)
}

// These bits, and zeros after them up to `count` bits. There are fewer than `count` bits before.
fn widened(alloc: Global, bits: &BitStringAsn1, count: usize) -> Result<BitStringAsn1, AllocError>
    requires more { bit_count bits.now < count }
    requires few { count ≤ 9 }
    ensures { IfOk result (λ wider. IsWidened bits.now count wider) }
{
    let first = first_octet(bits.as_bytes());
    if count == 9 {
        return bits_of(alloc, &[first, 0], 7);
    }
    bits_of(alloc, &[first], (8 - count) as u8)
}

fn first_octet(octets: &[u8]) -> u8
    ensures { result ≡ slice_index octets.now 0 }
{
    match octets.first() {
        Some(first) => *first,
        None => 0,
    }
}

// The bits of these octets but for some of the last.
fn bits_of(alloc: Global, octets: &[u8], unused: u8) -> Result<BitStringAsn1, AllocError>
    requires { IsBitString (record { octets = octets.now; unused = unused }) }
    ensures { let bits : Bits = record { octets = octets.now; unused = unused } in IfOk result (λ made. made ≡ bits) }
{
    match BitStringAsn1::new(alloc, octets, unused) {
        Ok(bits) => Ok(bits),
        Err(LeafFault::Memory) => Err(AllocError),
        Err(_) => unreachable!(),
    }
}

impl From<BitStringAsn1> for KeyUsage {
    ghost from_gives = { λ bits made. made.0 ≡ bits };

    fn from(bits: BitStringAsn1) -> KeyUsage {
        KeyUsage(bits)
    }
}

impl Tagged for KeyUsage {
    type Row = BitStringAsn1;

    const FIRST: u8 = BIT_STRING;

    ghost FIRST = { bit_string_octet };

    ghost row_tree = { ⟦<BitStringAsn1 as Tagged>⟧.row_tree };

    ghost row_laws = { ⟦<BitStringAsn1 as Tagged>⟧.row_laws };

    ghost row_of = { λ v. v.0 };

    ghost one_row = { λ v w e. λ i. record { 0 = e i } };

    fn read_row<R: Source>(tag: u8, from: &mut Deserializer<R>) -> Result<Self::Row, Asn1DerError> {
        BitStringAsn1::read_row(tag, from)
    }

    fn of_row(row: Self::Row) -> Self {
        KeyUsage(row)
    }

    fn write_row<W: Sink>(&self, tag: u8, to: &mut Serializer<W>) -> Result<usize, Asn1DerError> {
        self.0.write_row(tag, to)
    }
}

impl Exact for KeyUsage {
    ghost plain = { tt };
}
