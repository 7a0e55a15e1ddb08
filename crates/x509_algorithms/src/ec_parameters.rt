//! Parameters of keys on elliptic curves (RFC 5480, section 2.1.1).
ghost use Rattle.std.specs.Prelude.{◌≡◌, MatchResult};
ghost use Rattle.asn1_der.specs.Octets.{object_identifier_octet};

use asn1_der::octets::OBJECT_IDENTIFIER;
use byte_streams::{Sink, Source};
use picky_asn1::oid::ObjectIdentifier;
use picky_asn1::wrapper::ObjectIdentifierAsn1;
use picky_asn1_der::{Asn1DerError, Deserializer, Serializer, Tagged};
use x509_spelling::Exact;

/// An elliptic curve.
///
/// ```text
/// ECParameters ::= CHOICE {
///      namedCurve         OBJECT IDENTIFIER
///      -- implicitCurve   NULL
///      -- specifiedCurve  SpecifiedECDomain
/// }
/// ```
#[derive(Debug, Drop, PartialEq, Eq, Clone)]
pub enum EcParameters {
    /// A curve by its identifier.
    NamedCurve(ObjectIdentifierAsn1),
}

impl EcParameters {
    ghost use Rattle.x509_algorithms.specs.Curves.{curve};

    /// The curve's identifier.
    pub fn curve_oid(&self) -> &ObjectIdentifier
        ensures { result.now ≡ (curve self.now).0 }
    {
        match self {
            EcParameters::NamedCurve(oid) => &oid.0,
        }
    }
}

impl From<ObjectIdentifierAsn1> for EcParameters {
    ghost use Rattle.x509_algorithms.specs.declared.ec_parameters.EcParameters.TheVariants.{NamedCurve};

    ghost from_gives = { λ oid made. made ≡ NamedCurve oid };

    fn from(oid: ObjectIdentifierAsn1) -> EcParameters {
        EcParameters::NamedCurve(oid)
    }
}

impl From<ObjectIdentifier> for EcParameters {
    ghost use Rattle.x509_algorithms.specs.declared.ec_parameters.EcParameters.TheVariants.{NamedCurve};

    ghost from_gives = { λ oid made. made ≡ NamedCurve (record { 0 = oid }) };

    fn from(oid: ObjectIdentifier) -> EcParameters {
        EcParameters::NamedCurve(ObjectIdentifierAsn1(oid))
    }
}

impl Tagged for EcParameters {
    ghost use Rattle.x509_algorithms.specs.Curves.{curve, one_curve};

    type Row = ObjectIdentifierAsn1;

    const FIRST: u8 = OBJECT_IDENTIFIER;

    ghost FIRST = { object_identifier_octet };

    ghost row_tree = { ⟦<ObjectIdentifierAsn1 as Tagged>⟧.row_tree };

    ghost row_laws = { ⟦<ObjectIdentifierAsn1 as Tagged>⟧.row_laws };

    ghost row_of = { curve };

    ghost one_row = { one_curve };

    fn read_row<R: Source>(
        tag: u8,
        from: &mut Deserializer<R>,
    ) -> Result<ObjectIdentifierAsn1, Asn1DerError> {
        ObjectIdentifierAsn1::read_row(tag, from)
    }

    fn of_row(row: ObjectIdentifierAsn1) -> Self {
        EcParameters::NamedCurve(row)
    }

    fn write_row<W: Sink>(&self, tag: u8, to: &mut Serializer<W>) -> Result<usize, Asn1DerError> {
        match self {
            EcParameters::NamedCurve(oid) => oid.write_row(tag, to),
        }
    }
}

impl Exact for EcParameters {
    ghost plain = { tt };
}
