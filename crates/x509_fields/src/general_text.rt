//! Names of any kind as text.
ghost use Rattle.std.specs.Prelude.{◌≡◌, ◌<◌, slice_index};
ghost use Rattle.x509_fields.specs.GeneralText.{group_at};

use crate::edi_party_name::EdiPartyName;
use crate::general_name::GeneralName;
use crate::name_text::{Element, Octets};
use std::fmt;

/// The kind, a colon, and the name: `DNS:server.example.com`, `email:`, `URI:`, `IP Address:`, `DirName:` (by RFC 4514),
/// `Registered ID:`, `othername:` (its identifier, `=#` and the hexadecimal digits of its value's encoding) and
/// `EdiPartyName:`. The octets of a host, address or URI aren't changed: names are compared by themselves, not by this text.
impl fmt::Display for GeneralName {
    ghost use Rattle.std.specs.Prelude.{Some};
    ghost use Rattle.x509_fields.specs.GeneralText.{general_text};

    ghost output = { λ name. Some (general_text name) };

    fn fmt<W: fmt::Write>(&self, f: &mut fmt::Formatter<W>) -> fmt::Result {
        match self {
            GeneralName::OtherName(name) => {
                let kind = &name.type_id.0;
                let value = Element::of_raw(&name.value.0);
                write!(f, "othername:{kind}=#{value}")
            }
            GeneralName::Rfc822Name(address) => write!(f, "email:{address}"),
            GeneralName::DnsName(host) => write!(f, "DNS:{host}"),
            GeneralName::DirectoryName(name) => {
                let name = name.rfc4514();
                write!(f, "DirName:{name}")
            }
            GeneralName::EdiPartyName(name) => {
                let party = Party(name);
                write!(f, "EdiPartyName:{party}")
            }
            GeneralName::Uri(uri) => write!(f, "URI:{uri}"),
            GeneralName::IpAddress(octets) => {
                let address = Address(octets.as_bytes());
                write!(f, "IP Address:{address}")
            }
            GeneralName::RegisteredId(oid) => {
                let oid = &oid.0;
                write!(f, "Registered ID:{oid}")
            }
        }
    }
}

// A partner of electronic data interchange, behind who assigned the name.
#[derive(Clone, Copy)]
struct Party<'a>(&'a EdiPartyName);

impl<'a> fmt::Display for Party<'a> {
    ghost use Rattle.std.specs.Prelude.{Some};
    ghost use Rattle.x509_fields.specs.GeneralText.{party_text};

    ghost output = { λ party. Some (party_text party.0.now.name_assigner.0 party.0.now.party_name.0) };

    fn fmt<W: fmt::Write>(&self, f: &mut fmt::Formatter<W>) -> fmt::Result {
        let party = &self.0.party_name.0;
        match &self.0.name_assigner.0 {
            Some(assigner) => {
                let assigner = &assigner.0;
                write!(f, "{assigner}/{party}")
            }
            None => write!(f, "{party}"),
        }
    }
}

// An address of the Internet Protocol.
#[derive(Clone, Copy)]
struct Address<'a>(&'a [u8]);

impl<'a> fmt::Display for Address<'a> {
    ghost use Rattle.std.specs.Prelude.{Some};
    ghost use Rattle.x509_fields.specs.GeneralText.{address_text};

    ghost output = { λ address. Some (address_text address.0.now) };

    fn fmt<W: fmt::Write>(&self, f: &mut fmt::Formatter<W>) -> fmt::Result {
        if self.0.len() == 4 {
            let numbers = Numbers(self.0);
            return write!(f, "{numbers}");
        }
        if self.0.len() == 16 {
            let groups = Groups(self.0);
            return write!(f, "{groups}");
        }
        let octets = Octets(self.0);
        write!(f, "#{octets}")
    }
}

// The octets of an address of version 4.
#[derive(Clone, Copy)]
struct Numbers<'a>(&'a [u8]);

impl<'a> fmt::Display for Numbers<'a> {
    ghost use Rattle.std.specs.Prelude.{Some};
    ghost use Rattle.x509_fields.specs.GeneralText.{numbers_text};

    ghost output = { λ numbers. Some (numbers_text numbers.0.now) };

    fn fmt<W: fmt::Write>(&self, f: &mut fmt::Formatter<W>) -> fmt::Result {
        let [first, further @ ..] = self.0 else {
            return Ok(());
        };
        let further = FurtherNumbers(further);
        write!(f, "{first}{further}")
    }
}

// The octets after the first.
#[derive(Clone, Copy)]
struct FurtherNumbers<'a>(&'a [u8]);

impl<'a> fmt::Display for FurtherNumbers<'a> {
    ghost use Rattle.std.specs.Prelude.{Some, ◌++◌, codes};
    ghost use Rattle.std.specs.List.{flat_map};
    ghost use Rattle.std.specs.Fmt.{decimal};

    ghost output = { λ further. Some (flat_map (λ octet. codes "." ++ decimal octet) further.0.now) };

    fn fmt<W: fmt::Write>(&self, f: &mut fmt::Formatter<W>) -> fmt::Result {
        for octet in self.0 {
            write!(f, ".{octet}")?;
        }
        Ok(())
    }
}

// The octets of an address of version 6, as eight numbers.
#[derive(Clone, Copy)]
struct Groups<'a>(&'a [u8]);

impl<'a> fmt::Display for Groups<'a> {
    ghost use Rattle.std.specs.Prelude.{Some};
    ghost use Rattle.x509_fields.specs.GeneralText.{groups_text};

    ghost output = { λ groups. Some (groups_text groups.0.now) };

    fn fmt<W: fmt::Write>(&self, f: &mut fmt::Formatter<W>) -> fmt::Result {
        let (first, second) = (group_of(self.0, 0), group_of(self.0, 1));
        let (third, fourth) = (group_of(self.0, 2), group_of(self.0, 3));
        let (fifth, sixth) = (group_of(self.0, 4), group_of(self.0, 5));
        let (seventh, eighth) = (group_of(self.0, 6), group_of(self.0, 7));
        write!(
            f,
            "{first}:{second}:{third}:{fourth}:{fifth}:{sixth}:{seventh}:{eighth}"
        )
    }
}

// Two octets of an address of version 6.
#[derive(Clone, Copy)]
struct Group(u16);

impl fmt::Display for Group {
    ghost use Rattle.std.specs.Prelude.{Some};
    ghost use Rattle.x509_fields.specs.GeneralText.{group_text};

    ghost output = { λ group. Some (group_text group.0) };

    fn fmt<W: fmt::Write>(&self, f: &mut fmt::Formatter<W>) -> fmt::Result {
        let number = self.0;
        write!(f, "{number:X}")
    }
}

// The two octets with this number.
fn group_of(octets: &[u8], number: usize) -> Group
    requires { number < 8 }
    ensures { result.0 ≡ group_at octets.now number }
{
    let high = u16::from(octet_at(octets, 2 * number));
    let low = u16::from(octet_at(octets, 2 * number + 1));
    Group(high * 256 + low)
}

// An octet, 0 behind the last.
fn octet_at(octets: &[u8], index: usize) -> u8
    ensures { result ≡ slice_index octets.now index }
{
    match octets.get(index) {
        Some(octet) => *octet,
        None => 0,
    }
}
