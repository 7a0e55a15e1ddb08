//! Identifiers of the key that signed a certificate (RFC 5280, section 4.2.1.1).
ghost use Rattle.std.specs.Prelude.{◌≡◌, IfOk, ℕ, Bool, List, Option, None, Some, MatchOption, MatchResult};
ghost use Rattle.x509_certificates.specs.AuthorityFields.{stands, nothing, before, gathered_onto, implicit, explicit, kept, with_field};
ghost use Rattle.asn1_der.specs.Octets.{sequence_octet};

use crate::authority_field::AuthorityField;
use asn1_der::octets::SEQUENCE;
use byte_streams::{Sink, Source};
use picky_asn1::wrapper::{
    ExplicitContextTag, ExplicitContextTag1, ImplicitContextTag, ImplicitContextTag0,
    ImplicitContextTag2, IntegerAsn1, OctetStringAsn1, Optional,
};
use picky_asn1_der::{
    Asn1DerError, Deserializer, Fields, Row3, Serializer, Tagged, fields_of, from_fields,
    read_sequence,
};
use std::alloc::{AllocError, Global};
use x509_fields::GeneralName;
use x509_spelling::{Counted, Many, Spelled, SpelledFields, X509Fault, read_fields, sum_of};

/// Which key signed a certificate.
///
/// ```text
/// AuthorityKeyIdentifier ::= SEQUENCE {
///      keyIdentifier             [0] KeyIdentifier           OPTIONAL,
///      authorityCertIssuer       [1] GeneralNames            OPTIONAL,
///      authorityCertSerialNumber [2] CertificateSerialNumber OPTIONAL }
/// ```
///
/// One name is read as the issuer. Fields out of order and fields that stand again, of which the last counts, deviate.
#[derive(Debug, Drop, PartialEq, Eq)]
pub struct AuthorityKeyIdentifier {
    key_identifier: Optional<Option<ImplicitContextTag0<OctetStringAsn1>>>,
    authority_cert_issuer: Optional<Option<ExplicitContextTag1<GeneralName>>>,
    authority_cert_serial_number: Optional<Option<ImplicitContextTag2<IntegerAsn1>>>,
}

impl Clone for AuthorityKeyIdentifier {
    ghost is_clone = { λ identifier copy. copy ≡ identifier };

    fn clone(&self) -> Result<AuthorityKeyIdentifier, AllocError> {
        let key_identifier = copied(&self.key_identifier)?;
        let authority_cert_issuer = copied(&self.authority_cert_issuer)?;
        let authority_cert_serial_number = copied(&self.authority_cert_serial_number)?;
        Ok(AuthorityKeyIdentifier {
            key_identifier,
            authority_cert_issuer,
            authority_cert_serial_number,
        })
    }
}

/// What some fields make, and what deviates among them.
#[derive(Drop)]
pub struct Gathered {
    value: AuthorityKeyIdentifier,
    is_disordered: bool,
    repeats: usize,
}

type AuthorityRow = Row3<
    Optional<Option<ImplicitContextTag0<OctetStringAsn1>>>,
    Optional<Option<ExplicitContextTag1<GeneralName>>>,
    Optional<Option<ImplicitContextTag2<IntegerAsn1>>>,
>;

impl AuthorityKeyIdentifier {
    /// The identifier of these fields.
    pub fn new(
        key_identifier: Option<OctetStringAsn1>,
        authority_cert_issuer: Option<GeneralName>,
        authority_cert_serial_number: Option<IntegerAsn1>,
    ) -> AuthorityKeyIdentifier
        ensures { (result.key_identifier.0 ≡ implicit 0 key_identifier)
            × (result.authority_cert_issuer.0 ≡ explicit 1 authority_cert_issuer)
            × (result.authority_cert_serial_number.0 ≡ implicit 2 authority_cert_serial_number) }
    {
        AuthorityKeyIdentifier {
            key_identifier: Optional(under_implicit(key_identifier)),
            authority_cert_issuer: Optional(under_explicit(authority_cert_issuer)),
            authority_cert_serial_number: Optional(under_implicit(authority_cert_serial_number)),
        }
    }

    /// The `keyIdentifier` of the issuer's key.
    pub fn key_identifier(&self) -> Option<&OctetStringAsn1>
        ensures { MatchOption result
            (self.now.key_identifier.0 ≡ None)
            (λ key. self.now.key_identifier.0 ≡ Some (record { 0 = key.now })) }
    {
        match &self.key_identifier.0 {
            Some(key) => Some(&key.0),
            None => None,
        }
    }

    /// The issuer of the key's certificate.
    pub fn authority_cert_issuer(&self) -> Option<&GeneralName>
        ensures { MatchOption result
            (self.now.authority_cert_issuer.0 ≡ None)
            (λ issuer. self.now.authority_cert_issuer.0 ≡ Some (record { 0 = issuer.now })) }
    {
        match &self.authority_cert_issuer.0 {
            Some(issuer) => Some(&issuer.0),
            None => None,
        }
    }

    /// The serial number of the key's certificate.
    pub fn authority_cert_serial_number(&self) -> Option<&IntegerAsn1>
        ensures { MatchOption result
            (self.now.authority_cert_serial_number.0 ≡ None)
            (λ number. self.now.authority_cert_serial_number.0 ≡ Some (record { 0 = number.now })) }
    {
        match &self.authority_cert_serial_number.0 {
            Some(number) => Some(&number.0),
            None => None,
        }
    }
}

impl Tagged for AuthorityKeyIdentifier {
    ghost use Rattle.std.proofs.Common.{ap, refl, true};
    ghost use Rattle.asn1_der.specs.Tagged.{sequence};
    ghost use Rattle.asn1_der.proofs.Tagged.{sequence_laws};

    type Row = AuthorityRow;

    const FIRST: u8 = SEQUENCE;

    ghost FIRST = { sequence_octet };

    ghost row_tree = { sequence ⟦<AuthorityRow as Fields>⟧.trees };

    ghost row_laws = { sequence_laws ⟦<AuthorityRow as Fields>⟧.trees (⟦<AuthorityRow as Fields>⟧.injective (refl {a = true})) };

    ghost row_of = { λ v. (v.key_identifier, (v.authority_cert_issuer, (v.authority_cert_serial_number, tt))) };

    ghost one_row = { λ v w e. ap (λ f. record { key_identifier = f.0; authority_cert_issuer = f.1.0; authority_cert_serial_number = f.1.1.0 }) e };

    fn read_row<R: Source>(tag: u8, from: &mut Deserializer<R>) -> Result<Self::Row, Asn1DerError> {
        read_sequence(tag, from)
    }

    fn of_row(row: Self::Row) -> Self {
        from_fields![row; key_identifier, authority_cert_issuer, authority_cert_serial_number]
    }

    fn write_row<W: Sink>(&self, tag: u8, to: &mut Serializer<W>) -> Result<usize, Asn1DerError> {
        to.list(
            tag,
            &fields_of![self; key_identifier, authority_cert_issuer, authority_cert_serial_number],
        )
    }
}

impl Spelled for AuthorityKeyIdentifier {
    ghost use Rattle.std.proofs.Common.{refl, true};
    ghost use Rattle.asn1_der.specs.Tree.{constructed};
    ghost use Rattle.asn1_der.specs.Tagged.{sequence};
    ghost use Rattle.asn1_der.specs.Firsts.{only};
    ghost use Rattle.x509_spelling.specs.Spellings.{Holds};
    ghost use Rattle.x509_spelling.specs.RowLaws.{sequence_laws};
    ghost use Rattle.x509_spelling.specs.Kinds.{MadeOf};
    ghost use Rattle.x509_spelling.specs.HeldLaws.{made_laws};
    ghost use Rattle.x509_certificates.specs.AuthorityFields.{fields_of, authority_of, authority_count};
    ghost use Rattle.x509_certificates.specs.AuthorityLaws.{authority_back, authority_uncounted, authority_only, authority_whole, authority_trees};

    ghost spells = { MadeOf (Holds sequence_octet ⟦<Many<AuthorityField> as SpelledFields>⟧.spells) authority_of authority_count };

    ghost written = { λ v. sequence ⟦<Many<AuthorityField> as SpelledFields>⟧.row_trees sequence_octet (fields_of v) };

    ghost begun = { only sequence_octet };

    ghost has_low_tags = { true };

    ghost laws = { made_laws true (only sequence_octet) (sequence ⟦<Many<AuthorityField> as SpelledFields>⟧.row_trees sequence_octet) (Holds sequence_octet ⟦<Many<AuthorityField> as SpelledFields>⟧.spells)
        (sequence_laws sequence_octet refl ⟦<Many<AuthorityField> as SpelledFields>⟧.row_firsts ⟦<Many<AuthorityField> as SpelledFields>⟧.row_trees
        ⟦<Many<AuthorityField> as SpelledFields>⟧.spells (⟦<Many<AuthorityField> as SpelledFields>⟧.row_laws (refl {a = true})))
        authority_of authority_count fields_of authority_back authority_uncounted authority_only (authority_whole ⟦<AuthorityField as Spelled>⟧.written) };

    fn may_begin_with(first: u8) -> bool {
        first == SEQUENCE
    }

    fn read_counted(alloc: Global, bytes: &[u8]) -> Result<Counted<Self>, X509Fault> {
        let read: Counted<Many<AuthorityField>> = read_fields(alloc, SEQUENCE, bytes)?;
        let held = read.count;
        let gathered = gather(read.into_value().into_vec())?;
        let own = sum_of(usize::from(gathered.is_disordered), gathered.repeats)?;
        let count = sum_of(held, own)?;
        Ok(Counted {
            value: gathered.value,
            count,
        })
    }

    ghost written_is = { λ i v. constructed sequence_octet (authority_trees ⟦<AuthorityField as Spelled>⟧.written v i) };
}

// What the fields make, taken from the last of them to the first.
fn gather(fields: Vec<AuthorityField>) -> Result<Gathered, X509Fault>
    ensures { MatchResult result
        (λ made. made ≡ gathered_onto nothing fields.items)
        (λ fault. fault ≡ X509Fault.Memory) }
{
    let mut fields = fields;
    let mut made = Gathered {
        value: AuthorityKeyIdentifier {
            key_identifier: Optional(None),
            authority_cert_issuer: Optional(None),
            authority_cert_serial_number: Optional(None),
        },
        is_disordered: false,
        repeats: 0,
    };
    'fields: while let Some(field) = fields.pop() {
        put_in_front(field, &mut made)?;
    }
    Ok(made)
}

// Puts a field in front of what is made.
fn put_in_front(field: AuthorityField, made: &mut Gathered) -> Result<(), X509Fault>
    ensures { MatchResult result
        (λ _. made.new ≡ before field made.old)
        (λ fault. fault ≡ X509Fault.Memory) }
{
    let has_key = is_there(&made.value.key_identifier.0);
    let has_issuer = is_there(&made.value.authority_cert_issuer.0);
    let has_number = is_there(&made.value.authority_cert_serial_number.0);
    let (is_again, is_late) = match &field {
        AuthorityField::KeyIdentifier(_) => (has_key, false),
        AuthorityField::Issuer(_) => (has_issuer, has_key),
        AuthorityField::SerialNumber(_) => (has_number, has_key || has_issuer),
    };
    made.repeats = sum_of(made.repeats, usize::from(is_again))?;
    made.is_disordered = is_late || made.is_disordered;
    keep_field(field, &mut made.value);
    Ok(())
}

// Puts a field in, unless a field of its tag follows it.
fn keep_field(field: AuthorityField, value: &mut AuthorityKeyIdentifier)
    ensures { value.new ≡ with_field field value.old }
{
    match field {
        AuthorityField::KeyIdentifier(key) => keep(&mut value.key_identifier.0, key),
        AuthorityField::Issuer(issuer) => keep(&mut value.authority_cert_issuer.0, issuer),
        AuthorityField::SerialNumber(number) => keep(
            &mut value.authority_cert_serial_number.0,
            number,
        ),
    }
}

fn is_there<T>(field: &Option<T>) -> bool
    ensures { result ≡ stands field.now }
{
    match field {
        Some(_) => true,
        None => false,
    }
}

// Keeps the later of two fields of one tag. If none follows, it is this field.
fn keep<T>(behind: &mut Option<T>, field: T)
where
    T: Drop,
    ensures { behind.new ≡ kept behind.old field }
{
    if !is_there(behind) {
        *behind = Some(field);
    }
}

// A copy of a field of which a copied value is the value.
fn copied<T: Clone>(field: &Optional<Option<T>>) -> Result<Optional<Option<T>>, AllocError>
    requires { (value copy : T) → T.is_clone value copy → copy ≡ value }
    ensures { IfOk result (λ copy. copy ≡ field.now) }
{
    match &field.0 {
        Some(value) => {
            let copy = value.clone()?;
            Ok(Optional(Some(copy)))
        }
        None => Ok(Optional(None)),
    }
}

fn under_implicit<const N: u8, T: Drop>(field: Option<T>) -> Option<ImplicitContextTag<N, T>>
    ensures { result ≡ implicit N field }
{
    match field {
        Some(field) => Some(ImplicitContextTag(field)),
        None => None,
    }
}

fn under_explicit<const N: u8, T: Drop>(field: Option<T>) -> Option<ExplicitContextTag<N, T>>
    ensures { result ≡ explicit N field }
{
    match field {
        Some(field) => Some(ExplicitContextTag(field)),
        None => None,
    }
}
