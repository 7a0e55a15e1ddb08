//! The fields of an authority key identifier, one at a time.
ghost use Rattle.std.specs.Prelude.{◌≡◌, MatchResult};
ghost use Rattle.x509_certificates.specs.AuthorityFields.{field_choice};

use byte_streams::{Sink, Source};
use picky_asn1::wrapper::{
    ExplicitContextTag1, ImplicitContextTag0, ImplicitContextTag2, IntegerAsn1, OctetStringAsn1,
};
use picky_asn1_der::{
    Alternatives, Asn1DerError, Choice, Deserialize, Deserializer, Last, Serialize, Serializer,
};
use x509_fields::GeneralName;
use x509_spelling::Exact;

/// A field of an authority key identifier. Their tags distinguish them.
#[derive(Drop)]
pub enum AuthorityField {
    /// The key's identifier.
    KeyIdentifier(ImplicitContextTag0<OctetStringAsn1>),
    /// The issuer of the key's certificate.
    Issuer(ExplicitContextTag1<GeneralName>),
    /// The serial number of that certificate.
    SerialNumber(ImplicitContextTag2<IntegerAsn1>),
}

type FieldChoice = Choice<
    ImplicitContextTag0<OctetStringAsn1>,
    Choice<ExplicitContextTag1<GeneralName>, Last<ImplicitContextTag2<IntegerAsn1>>>,
>;

impl Serialize for AuthorityField {
    ghost use Rattle.std.proofs.Common.{refl, true};
    ghost use Rattle.asn1_der.proofs.Choices.{injective_as};
    ghost use Rattle.x509_certificates.specs.AuthorityFields.{field_made, field_back};

    ghost tree = { λ v. ⟦<FieldChoice as Alternatives>⟧.tree (field_choice v) };

    ghost firsts = { ⟦<FieldChoice as Alternatives>⟧.firsts };

    ghost begins = { λ v. ⟦<FieldChoice as Alternatives>⟧.begins (field_choice v) };

    ghost injective = { injective_as ⟦<FieldChoice as Alternatives>⟧.tree (⟦<FieldChoice as Alternatives>⟧.injective (refl {a = true})) field_choice field_made field_back };

    fn serialize<W: Sink>(&self, to: &mut Serializer<W>) -> Result<usize, Asn1DerError> {
        match self {
            AuthorityField::KeyIdentifier(key) => key.serialize(to),
            AuthorityField::Issuer(issuer) => issuer.serialize(to),
            AuthorityField::SerialNumber(number) => number.serialize(to),
        }
    }
}

impl Deserialize for AuthorityField {
    fn may_start(first: u8) -> bool {
        FieldChoice::may_start_any(first)
    }

    fn deserialize<R: Source>(from: &mut Deserializer<R>) -> Result<Self, Asn1DerError> {
        let choice: FieldChoice = Alternatives::read_one(from)?;
        Ok(field_of(choice))
    }
}

impl Exact for AuthorityField {
    ghost plain = { tt };
}

// The field that the alternative is.
fn field_of(choice: FieldChoice) -> AuthorityField
    ensures { field_choice result ≡ choice }
{
    match choice {
        Choice::This(key) => AuthorityField::KeyIdentifier(key),
        Choice::Other(Choice::This(issuer)) => AuthorityField::Issuer(issuer),
        Choice::Other(Choice::Other(Last(number))) => AuthorityField::SerialNumber(number),
    }
}
