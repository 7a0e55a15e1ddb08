//! Names of a certificate's holder and issuer (RFC 5280, section 4.2.1.6).
ghost use Rattle.std.specs.Prelude.{◌≡◌, MatchResult};
ghost use Rattle.x509_fields.specs.GeneralNames.{general_choice};

use crate::DirectoryString;
use crate::edi_party_name::EdiPartyName;
use crate::name::Name;
use crate::other_name::OtherName;
use asn1_der::octets::{
    CONTEXT_0, CONTEXT_4, CONTEXT_5, CONTEXT_PRIMITIVE_1, CONTEXT_PRIMITIVE_2, CONTEXT_PRIMITIVE_6,
    CONTEXT_PRIMITIVE_7, CONTEXT_PRIMITIVE_8,
};
use byte_streams::{Sink, Source};
use picky_asn1::wrapper::{
    Asn1SequenceOf, ExplicitContextTag, ExplicitContextTag4, IA5StringAsn1, ImplicitContextTag,
    ImplicitContextTag0, ImplicitContextTag1, ImplicitContextTag2, ImplicitContextTag5,
    ImplicitContextTag6, ImplicitContextTag7, ImplicitContextTag8, ObjectIdentifierAsn1,
    OctetStringAsn1, Optional,
};
use picky_asn1_der::{
    Alternatives, Asn1DerError, Choice, Deserialize, Deserializer, Last, Serialize, Serializer,
    Tagged,
};
use std::alloc::AllocError;
use x509_spelling::Exact;

/// A name of any of eight kinds.
///
/// ```text
/// GeneralName ::= CHOICE {
///      otherName                       [0]     OtherName,
///      rfc822Name                      [1]     IA5String,
///      dNSName                         [2]     IA5String,
///      x400Address                     [3]     ORAddress,
///      directoryName                   [4]     Name,
///      ediPartyName                    [5]     EDIPartyName,
///      uniformResourceIdentifier       [6]     IA5String,
///      iPAddress                       [7]     OCTET STRING,
///      registeredID                    [8]     OBJECT IDENTIFIER }
/// ```
///
/// A name of X.400 isn't read.
#[derive(Debug, Drop, PartialEq, Eq)]
pub enum GeneralName {
    /// A name of another kind.
    OtherName(OtherName),
    /// An address of electronic mail.
    Rfc822Name(IA5StringAsn1),
    /// A name of a host.
    DnsName(IA5StringAsn1),
    /// A name of a directory.
    DirectoryName(Name),
    /// A partner of electronic data interchange.
    EdiPartyName(EdiPartyName),
    /// A uniform resource identifier.
    Uri(IA5StringAsn1),
    /// An address of the Internet Protocol.
    IpAddress(OctetStringAsn1),
    /// An object identifier.
    RegisteredId(ObjectIdentifierAsn1),
}

impl Clone for GeneralName {
    ghost is_clone = { λ name copy. copy ≡ name };

    fn clone(&self) -> Result<GeneralName, AllocError> {
        Ok(match self {
            GeneralName::OtherName(name) => GeneralName::OtherName(name.clone()?),
            GeneralName::Rfc822Name(address) => GeneralName::Rfc822Name(address.clone()?),
            GeneralName::DnsName(host) => GeneralName::DnsName(host.clone()?),
            GeneralName::DirectoryName(name) => GeneralName::DirectoryName(name.clone()?),
            GeneralName::EdiPartyName(name) => GeneralName::EdiPartyName(name.clone()?),
            GeneralName::Uri(uri) => GeneralName::Uri(uri.clone()?),
            GeneralName::IpAddress(address) => GeneralName::IpAddress(address.clone()?),
            GeneralName::RegisteredId(oid) => GeneralName::RegisteredId(oid.clone()?),
        })
    }
}

/// Names of any kind.
///
/// ```text
/// GeneralNames ::= SEQUENCE SIZE (1..MAX) OF GeneralName
/// ```
pub type GeneralNames = Asn1SequenceOf<GeneralName>;

type LaterChoice = Choice<
    ImplicitContextTag5<EdiPartyName>,
    Choice<
        ImplicitContextTag6<IA5StringAsn1>,
        Choice<
            ImplicitContextTag7<OctetStringAsn1>,
            Last<ImplicitContextTag8<ObjectIdentifierAsn1>>,
        >,
    >,
>;

type GeneralNameChoice = Choice<
    ImplicitContextTag0<OtherName>,
    Choice<
        ImplicitContextTag1<IA5StringAsn1>,
        Choice<ImplicitContextTag2<IA5StringAsn1>, Choice<ExplicitContextTag4<Name>, LaterChoice>>,
    >,
>;

impl From<Name> for GeneralName {
    ghost use Rattle.x509_fields.specs.declared.general_name.GeneralName.TheVariants.{DirectoryName};

    ghost from_gives = { λ name made. made ≡ DirectoryName name };

    fn from(name: Name) -> GeneralName {
        GeneralName::DirectoryName(name)
    }
}

impl GeneralName {
    ghost use Rattle.x509_fields.specs.EdiNames.{edi_name};
    ghost use Rattle.x509_fields.specs.declared.general_name.GeneralName.TheVariants as kind;

    /// A partner of electronic data interchange, and who assigned its name.
    pub fn new_edi_party_name(
        party_name: DirectoryString,
        name_assigner: Option<DirectoryString>,
    ) -> GeneralName
        ensures { result ≡ kind.EdiPartyName (edi_name party_name name_assigner) }
    {
        let name_assigner = match name_assigner {
            Some(name) => Some(ExplicitContextTag(name)),
            None => None,
        };
        GeneralName::EdiPartyName(EdiPartyName {
            name_assigner: Optional(name_assigner),
            party_name: ExplicitContextTag(party_name),
        })
    }
}

impl Serialize for GeneralName {
    ghost use Rattle.std.proofs.Common.{refl, true};
    ghost use Rattle.asn1_der.proofs.Choices.{injective_as};
    ghost use Rattle.x509_fields.specs.GeneralNames.{general_choice, general_made, general_back};

    ghost tree = { λ v. ⟦<GeneralNameChoice as Alternatives>⟧.tree (general_choice v) };

    ghost firsts = { ⟦<GeneralNameChoice as Alternatives>⟧.firsts };

    ghost begins = { λ v. ⟦<GeneralNameChoice as Alternatives>⟧.begins (general_choice v) };

    ghost injective = { injective_as ⟦<GeneralNameChoice as Alternatives>⟧.tree (⟦<GeneralNameChoice as Alternatives>⟧.injective (refl {a = true})) general_choice general_made general_back };

    fn serialize<W: Sink>(&self, to: &mut Serializer<W>) -> Result<usize, Asn1DerError> {
        match self {
            GeneralName::OtherName(name) => name.write_row(CONTEXT_0, to),
            GeneralName::Rfc822Name(address) => address.write_row(CONTEXT_PRIMITIVE_1, to),
            GeneralName::DnsName(host) => host.write_row(CONTEXT_PRIMITIVE_2, to),
            GeneralName::DirectoryName(name) => to.wrapped(CONTEXT_4, name),
            GeneralName::EdiPartyName(name) => name.write_row(CONTEXT_5, to),
            GeneralName::Uri(uri) => uri.write_row(CONTEXT_PRIMITIVE_6, to),
            GeneralName::IpAddress(address) => address.write_row(CONTEXT_PRIMITIVE_7, to),
            GeneralName::RegisteredId(oid) => oid.write_row(CONTEXT_PRIMITIVE_8, to),
        }
    }
}

impl Deserialize for GeneralName {
    fn may_start(first: u8) -> bool {
        GeneralNameChoice::may_start_any(first)
    }

    fn deserialize<R: Source>(from: &mut Deserializer<R>) -> Result<Self, Asn1DerError> {
        let choice: GeneralNameChoice = Alternatives::read_one(from)?;
        Ok(general_of(choice))
    }
}

impl Exact for GeneralName {
    ghost plain = { tt };
}

// The alternative with this many others in front of it, as a pattern.
macro_rules! alternative {
    (0; $value:pat) => { $value };
    (1; $value:pat) => { Choice::Other($value) };
    (2; $value:pat) => { Choice::Other(alternative![1; $value]) };
    (3; $value:pat) => { Choice::Other(alternative![2; $value]) };
    (4; $value:pat) => { Choice::Other(alternative![3; $value]) };
    (5; $value:pat) => { Choice::Other(alternative![4; $value]) };
    (6; $value:pat) => { Choice::Other(alternative![5; $value]) };
    (7; $value:pat) => { Choice::Other(alternative![6; $value]) };
}

// The name that the alternative is.
fn general_of(choice: GeneralNameChoice) -> GeneralName
    ensures { general_choice result ≡ choice }
{
    match choice {
        alternative![0; Choice::This(ImplicitContextTag(name))] => GeneralName::OtherName(name),
        alternative![1; Choice::This(ImplicitContextTag(name))] => GeneralName::Rfc822Name(name),
        alternative![2; Choice::This(ImplicitContextTag(name))] => GeneralName::DnsName(name),
        alternative![3; Choice::This(ExplicitContextTag(name))] => GeneralName::DirectoryName(name),
        alternative![4; Choice::This(ImplicitContextTag(name))] => GeneralName::EdiPartyName(name),
        alternative![5; Choice::This(ImplicitContextTag(name))] => GeneralName::Uri(name),
        alternative![6; Choice::This(ImplicitContextTag(name))] => GeneralName::IpAddress(name),
        alternative![7; Last(ImplicitContextTag(name))] => GeneralName::RegisteredId(name),
    }
}
