//! Entries at which MIT's library stops.
ghost use Rattle.std.specs.Prelude.{◌≡◌, length};
ghost use Rattle.std.specs.List.{list_all};
ghost use Rattle.krb_keytab.specs.Mit.{is_read, stop_of};

use picky_asn1::wrapper::GeneralStringAsn1;
use std::fmt;

/// The greatest count that the library reads.
const GREATEST: usize = 32_767;

/// The part of an entry at which it stops.
#[derive(Clone, Copy, Debug, PartialEq, Eq)]
pub(crate) enum Part {
    /// How many components there are.
    Components,
    /// The realm.
    Realm,
    /// A component.
    Component,
    /// The key.
    Key,
}

/// What is expected of the part.
impl fmt::Display for Part {
    fn fmt<W: fmt::Write>(&self, f: &mut fmt::Formatter<W>) -> fmt::Result {
        match self {
            Part::Components => write!(f, "expected 1 to {GREATEST} components"),
            Part::Realm => write!(f, "expected a realm of 1 to {GREATEST} octets"),
            Part::Component => write!(f, "expected components of 1 to {GREATEST} octets"),
            Part::Key => write!(f, "expected a key of 1 to {GREATEST} octets"),
        }
    }
}

/// The part at which the library stops, in an entry of this realm, these components and this key.
pub(crate) fn stop_of(
    realm: &GeneralStringAsn1,
    components: &[GeneralStringAsn1],
    key: &[u8],
) -> Option<Part>
    ensures { result ≡ stop_of realm.now components.now key.now }
{
    if !is_read(components.len()) {
        return Some(Part::Components);
    }
    if !is_read(realm.as_bytes().len()) {
        return Some(Part::Realm);
    }
    if !are_read(components) {
        return Some(Part::Component);
    }
    if !is_read(key.len()) {
        return Some(Part::Key);
    }
    None
}

// Whether the library reads each of the components.
fn are_read(components: &[GeneralStringAsn1]) -> bool
    ensures { result ≡ list_all (λ component. is_read (length component)) components.now }
{
    components
        .iter()
        .all(|component| is_read(component.as_bytes().len()))
}

// Whether the library reads so many octets or components.
fn is_read(count: usize) -> bool
    ensures { result ≡ is_read count }
{
    count > 0 && count <= GREATEST
}
