//! The mechanism Kerberos, as SPNEGO names it.
ghost use Rattle.std.specs.Prelude.{◌≡◌};
ghost use Rattle.std.specs.Option.{option_copied};
ghost use Rattle.gss_acceptor.specs.Mechanisms.{first_kerberos, is_first, kerberos_among, kerberos_in, mechanism_octets};

use picky_asn1::wrapper::ObjectIdentifierAsn1;

/// The content octets of 1.2.840.113554.1.2.2.
pub(crate) const KRB5: [u8; 9] = [0x2a, 0x86, 0x48, 0x86, 0xf7, 0x12, 0x01, 0x02, 0x02];

/// The content octets of 1.2.840.48018.1.2.2.
const MS_KRB5: [u8; 9] = [0x2a, 0x86, 0x48, 0x82, 0xf7, 0x12, 0x01, 0x02, 0x02];

/// The identifiers by which a list of mechanisms names Kerberos.
#[derive(Clone, Copy, Debug, PartialEq, Eq)]
pub enum Mechanism {
    /// 1.2.840.113554.1.2.2 (RFC 4121, section 4.1).
    Standard,
    /// 1.2.840.48018.1.2.2, which Microsoft's clients offer too (MS-SPNG, section 3.1.5.2).
    Microsoft,
}

impl Mechanism {
    /// The content octets of the identifier.
    pub(crate) fn octets(self) -> [u8; 9]
        ensures octets { result ≡ mechanism_octets self }
    {
        match self {
            Mechanism::Standard => KRB5,
            Mechanism::Microsoft => MS_KRB5,
        }
    }
}

/// Kerberos, where the identifier is its.
pub fn kerberos_in(identifier: &ObjectIdentifierAsn1) -> Option<Mechanism>
    ensures { result ≡ kerberos_in identifier.now }
{
    let octets = identifier.0.as_bytes();
    if octets == KRB5.as_slice() {
        return Some(Mechanism::Standard);
    }
    if octets == MS_KRB5.as_slice() {
        return Some(Mechanism::Microsoft);
    }
    None
}

/// Kerberos, where it is one of the identifiers. The first that is its counts.
pub(crate) fn kerberos_among(identifiers: &[ObjectIdentifierAsn1]) -> Option<Mechanism>
    ensures { result ≡ kerberos_among identifiers.now }
{
    match first_kerberos(identifiers) {
        Some(identifier) => kerberos_in(identifier),
        None => None,
    }
}

// The first identifier of Kerberos.
fn first_kerberos(identifiers: &[ObjectIdentifierAsn1]) -> Option<&ObjectIdentifierAsn1>
    ensures { option_copied result ≡ first_kerberos identifiers.now }
{
    identifiers
        .iter()
        .find(|identifier| kerberos_in(identifier).is_some())
}

/// Whether Kerberos is the first of the identifiers.
pub(crate) fn is_first(identifiers: &[ObjectIdentifierAsn1]) -> bool
    ensures { result ≡ is_first identifiers.now }
{
    match identifiers {
        [first, ..] => kerberos_in(first).is_some(),
        [] => false,
    }
}
