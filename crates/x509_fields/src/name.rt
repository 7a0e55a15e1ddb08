//! Names (RFC 5280, section 4.1.2.4).
ghost use Rattle.std.specs.Prelude.{◌≡◌, ◌++◌, None, Some, IfOk, MatchOption, MatchResult};
ghost use Rattle.x509_fields.specs.Parameters.{common_name_among, first_common_name};
ghost use Rattle.asn1_der.specs.Octets.{sequence_octet};

use crate::DirectoryString;
use crate::attribute_type_and_value::AttributeTypeAndValue;
use crate::name_attr::NameAttr;
use asn1_der::octets::SEQUENCE;
use byte_streams::{Sink, Source};
use picky_asn1::wrapper::{Asn1SequenceOf, Asn1SetOf, IA5StringAsn1};
use picky_asn1_der::{
    Asn1DerError, Deserializer, Elements, Serialize, Serializer, Tagged, read_sequence,
};
use std::alloc::{AllocError, Global};
use std::marker::Model;
use x509_spelling::Exact;

/// Attributes that distinguish an entry from its siblings. Their order is kept as given.
///
/// ```text
/// RelativeDistinguishedName ::= SET SIZE (1..MAX) OF AttributeTypeAndValue
/// ```
pub type RelativeDistinguishedName = Asn1SetOf<AttributeTypeAndValue>;

/// A path of entries.
///
/// ```text
/// RDNSequence ::= SEQUENCE OF RelativeDistinguishedName
/// ```
pub type RdnSequence = Asn1SequenceOf<RelativeDistinguishedName>;

/// A name of a directory. An empty one is read too. A contract sees the list of its sets of attributes.
///
/// ```text
/// Name ::= CHOICE { rdnSequence  RDNSequence }
/// ```
#[derive(Debug, Drop)]
pub struct Name {
    sets: Vec<RelativeDistinguishedName>,
}

impl Model for Name {
    ghost use Rattle.std.specs.Prelude.{List};
    ghost use Rattle.x509_fields.specs.declared.attribute_type_and_value.AttributeTypeAndValue.{AttributeTypeAndValue};

    ghost Value = { List (List AttributeTypeAndValue) };

    ghost view = { λ name. name.sets.items };
}

/// A name of a directory, as a certificate's issuer and subject are.
pub type DirectoryName = Name;

impl Name {
    ghost use Rattle.std.specs.Prelude.{[], ◌∷◌};
    ghost use Rattle.x509_fields.specs.declared.name_attr.NameAttr.TheVariants.{CommonName};
    ghost use Rattle.x509_fields.specs.declared.attribute_type_and_value.AttributeTypeAndValue.{AttributeTypeAndValue};
    ghost use Rattle.x509_fields.specs.AttributeMade.{IsOfAttribute, IsOfAddress};

    /// The empty name.
    pub fn new(alloc: Global) -> Name
        ensures { result ≡ [] }
    {
        Name {
            sets: Vec::new(alloc),
        }
    }

    /// The name of one attribute, a common name.
    pub fn new_common_name(alloc: Global, name: DirectoryString) -> Result<Name, AllocError>
        ensures { IfOk result (λ made. (only : AttributeTypeAndValue) × IsOfAttribute CommonName name only × (made ≡ (only ∷ []) ∷ [])) }
    {
        let attribute = AttributeTypeAndValue::new_common_name(alloc, name)?;
        let attributes = vec![in alloc; attribute]?;
        let sets = vec![in alloc; RelativeDistinguishedName::from(attributes)]?;
        Ok(Name { sets })
    }

    /// The sets of attributes, in order.
    pub fn as_slice(&self) -> &[RelativeDistinguishedName]
        ensures { result.now ≡ self.now }
    {
        self.sets.as_slice()
    }

    /// The first common name among the attributes.
    pub fn find_common_name(&self) -> Option<&DirectoryString>
        ensures { MatchOption result (first_common_name self.now ≡ None) (λ name. first_common_name self.now ≡ Some name.now) }
    {
        let mut rest = self.as_slice();
        'sets: while let [set, more @ ..] = rest {
            let found = common_name_in(set.as_slice());
            if found.is_some() {
                return found;
            }
            rest = more;
        }
        None
    }

    /// Adds an attribute that has a string, alone in its set.
    pub fn add_attr(
        &mut self,
        alloc: Global,
        attr: NameAttr,
        value: DirectoryString,
    ) -> Result<(), AllocError>
        ensures { MatchResult result
            (λ _. (last : AttributeTypeAndValue) × IsOfAttribute attr value last × (self.new ≡ self.old ++ (last ∷ []) ∷ []))
            (λ _. self.new ≡ self.old) }
    {
        let attribute = AttributeTypeAndValue::of_string(alloc, attr, value)?;
        self.add_alone(alloc, attribute)
    }

    /// Adds an address of electronic mail, alone in its set.
    pub fn add_email(&mut self, alloc: Global, address: IA5StringAsn1) -> Result<(), AllocError>
        ensures { MatchResult result
            (λ _. (last : AttributeTypeAndValue) × IsOfAddress address last × (self.new ≡ self.old ++ (last ∷ []) ∷ []))
            (λ _. self.new ≡ self.old) }
    {
        let attribute = AttributeTypeAndValue::new_email_address(alloc, address)?;
        self.add_alone(alloc, attribute)
    }

    // Adds a set of this attribute alone.
    fn add_alone(
        &mut self,
        alloc: Global,
        attribute: AttributeTypeAndValue,
    ) -> Result<(), AllocError>
        ensures { MatchResult result (λ _. self.new ≡ self.old ++ (attribute ∷ []) ∷ []) (λ _. self.new ≡ self.old) }
    {
        let attributes = vec![in alloc; attribute]?;
        self.sets.push(RelativeDistinguishedName::from(attributes))?;
        Ok(())
    }
}

impl Clone for Name {
    ghost is_clone = { λ name copy. copy ≡ name };

    fn clone(&self) -> Result<Name, AllocError> {
        let sets = self.sets.clone()?;
        Ok(Name { sets })
    }
}

impl PartialEq for Name {
    ghost use Rattle.std.specs.Cmp.Lexicographic.{pointwise, lists_per};
    ghost use Rattle.x509_fields.specs.contracts.attribute_type_and_value.AttributeTypeAndValuePartialEq.TheImpl.Laws.{laws-law};

    ghost eq = { pointwise (pointwise ⟦<AttributeTypeAndValue as PartialEq>⟧.eq) };

    ghost laws = { lists_per (lists_per laws-law) };

    fn eq(&self, other: &Name) -> bool {
        self.as_slice() == other.as_slice()
    }
}

impl Eq for Name {
    ghost use Rattle.std.specs.Cmp.Lexicographic.{lists_equiv};
    ghost use Rattle.x509_fields.specs.contracts.attribute_type_and_value.AttributeTypeAndValueEq.TheImpl.Laws.{laws-law};

    ghost laws = { lists_equiv (lists_equiv laws-law) };
}

impl From<Vec<RelativeDistinguishedName>> for Name {
    ghost from_gives = { λ sets made. made ≡ sets.items };

    fn from(sets: Vec<RelativeDistinguishedName>) -> Name {
        Name { sets }
    }
}

// The first common name among some attributes.
fn common_name_in(attributes: &[AttributeTypeAndValue]) -> Option<&DirectoryString>
    ensures { MatchOption result (common_name_among attributes.now ≡ None) (λ name. common_name_among attributes.now ≡ Some name.now) }
{
    let mut rest = attributes;
    'attributes: while let [attribute, more @ ..] = rest {
        let found = attribute.common_name();
        if found.is_some() {
            return found;
        }
        rest = more;
    }
    None
}

impl Tagged for Name {
    ghost use Rattle.asn1_der.specs.Tree.{trees_of};
    ghost use Rattle.asn1_der.proofs.Rows.{many-injective};
    ghost use Rattle.asn1_der.specs.Tagged.{sequence};
    ghost use Rattle.asn1_der.proofs.Tagged.{sequence_laws};

    type Row = Elements<RelativeDistinguishedName>;

    const FIRST: u8 = SEQUENCE;

    ghost FIRST = { sequence_octet };

    ghost row_tree = { sequence (trees_of ⟦<RelativeDistinguishedName as Serialize>⟧.tree) };

    ghost row_laws = { sequence_laws (trees_of ⟦<RelativeDistinguishedName as Serialize>⟧.tree)
        (many-injective _ ⟦<RelativeDistinguishedName as Serialize>⟧.tree ⟦<RelativeDistinguishedName as Serialize>⟧.injective) };

    ghost row_of = { λ v. v };

    ghost one_row = { λ v w e. e };

    fn read_row<R: Source>(tag: u8, from: &mut Deserializer<R>) -> Result<Self::Row, Asn1DerError> {
        read_sequence(tag, from)
    }

    fn of_row(row: Self::Row) -> Self {
        Name::from(row.into_vec())
    }

    fn write_row<W: Sink>(&self, tag: u8, to: &mut Serializer<W>) -> Result<usize, Asn1DerError> {
        let sets = self.as_slice();
        to.list(tag, &sets)
    }
}

impl Exact for Name {
    ghost plain = { tt };
}
