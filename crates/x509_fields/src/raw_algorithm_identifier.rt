//! Algorithm identifiers of which nothing is known (RFC 5280, section 4.1.1.2).
ghost use Rattle.std.specs.Prelude.{◌≡◌, ℕ, List, MatchOption, MatchResult, IsFalse, IsTrue, IfOk};
ghost use Rattle.x509_fields.specs.RawParameters.{is_null, null, parameters_of};
ghost use Rattle.asn1_der.specs.Octets.{sequence_octet};

use asn1_der::octets::{NULL, SEQUENCE};
use byte_streams::{Sink, Source};
use picky_asn1::wrapper::ObjectIdentifierAsn1;
use picky_asn1_der::{
    Asn1DerError, Deserialize, Deserializer, Fields, HasDefault, RawElement, Row2, Serialize,
    Serializer, fields_of, read_sequence,
};
use std::alloc::{AllocError, Global};
use x509_spelling::{
    Counted, Deviates, Implied, Implies, Spelled, SpelledFields, X509Fault, read_exact, read_fields,
};

/// Parameters of any type. NULL says that there are none.
#[derive(Debug, Drop, PartialEq, Eq)]
pub struct RawParameters(pub RawElement);

impl Clone for RawParameters {
    ghost is_clone = { λ params copy. copy ≡ params };

    fn clone(&self) -> Result<RawParameters, AllocError> {
        let raw = self.0.clone()?;
        Ok(RawParameters(raw))
    }
}

impl Serialize for RawParameters {
    ghost use Rattle.std.specs.Prelude.{refl};
    ghost use Rattle.picky_asn1_der.specs.Raw.{raw_tree};
    ghost use Rattle.picky_asn1_der.specs.RawLaws.{raw-begins, raw-injective};
    ghost use Rattle.asn1_der.specs.Firsts.{any_octet};

    ghost tree = { λ v. raw_tree v.0 };

    ghost firsts = { any_octet };

    ghost begins = { λ v. raw-begins v.0 };

    ghost injective = { λ v w whole also e. let same = raw-injective v.0 w.0 whole also e in λ i. record { 0 = same i } };

    fn serialize<W: Sink>(&self, to: &mut Serializer<W>) -> Result<usize, Asn1DerError> {
        self.0.serialize(to)
    }
}

impl Deserialize for RawParameters {
    fn may_start(_first: u8) -> bool {
        true
    }

    fn deserialize<R: Source>(from: &mut Deserializer<R>) -> Result<Self, Asn1DerError> {
        let raw = RawElement::deserialize(from)?;
        Ok(RawParameters(raw))
    }
}

impl Spelled for RawParameters {
    ghost use Rattle.std.specs.Prelude.{refl, true};
    ghost use Rattle.asn1_der.specs.Firsts.{any_octet};
    ghost use Rattle.picky_asn1_der.specs.Raw.{raw_tree};
    ghost use Rattle.x509_spelling.specs.Spellings.{IsExact};
    ghost use Rattle.x509_fields.specs.RawParameters.{raw_laws};

    ghost spells = { IsExact (λ v. raw_tree v.0) };

    ghost written = { λ v. raw_tree v.0 };

    ghost begun = { any_octet };

    ghost has_low_tags = { true };

    ghost laws = { raw_laws };

    fn may_begin_with(_first: u8) -> bool {
        true
    }

    fn read_counted(alloc: Global, bytes: &[u8]) -> Result<Counted<Self>, X509Fault> {
        read_exact(alloc, bytes)
    }

    ghost written_is = { refl };
}

impl HasDefault for RawParameters {
    ghost use Rattle.std.proofs.Common.{ap};
    ghost use Rattle.x509_fields.specs.RawParameters.{is_null, one_null};

    ghost is_default_value = { λ v. is_null v.0 };

    ghost one_default = { λ v w a b. let same = one_null v.0 w.0 a b in λ i. record { 0 = same i } };

    fn is_default(&self) -> bool {
        self.0.first() == NULL && self.0.content().is_empty()
    }

    fn default_value(alloc: Global) -> Result<Self, AllocError> {
        Ok(null_parameters(alloc))
    }

    ghost kept = { λ v w e. ap (λ parameters. is_null parameters.0) e };
}

impl Deviates for RawParameters {
    ghost use Rattle.x509_spelling.specs.Deviations.{raw_parameters_missing};

    ghost deviation = { raw_parameters_missing };
}

impl Implies for RawParameters {
    ghost use Rattle.x509_fields.specs.RawParameters.{null_whole};

    ghost default_is_whole = { λ v null. null_whole v.0 null };
}

// No parameters.
fn null_parameters(alloc: Global) -> RawParameters
    ensures { result.0 ≡ null }
{
    match RawElement::new(NULL, Vec::new(alloc)) {
        Some(raw) => RawParameters(raw),
        None => unreachable!(),
    }
}

/// An algorithm by its identifier, with parameters of any type.
///
/// ```text
/// AlgorithmIdentifier ::= SEQUENCE {
///      algorithm               OBJECT IDENTIFIER,
///      parameters              ANY DEFINED BY algorithm OPTIONAL }
/// ```
///
/// Where there are none, NULL is written.
#[derive(Debug, Drop, PartialEq, Eq)]
pub struct RawAlgorithmIdentifier {
    algorithm: ObjectIdentifierAsn1,
    parameters: RawParameters,
}

impl Clone for RawAlgorithmIdentifier {
    ghost is_clone = { λ identifier copy. copy ≡ identifier };

    fn clone(&self) -> Result<RawAlgorithmIdentifier, AllocError> {
        let algorithm = self.algorithm.clone()?;
        let parameters = self.parameters.clone()?;
        Ok(RawAlgorithmIdentifier {
            algorithm,
            parameters,
        })
    }
}

type RawAlgorithmRow = Row2<ObjectIdentifierAsn1, RawParameters>;

type RawAlgorithmSpelling = Row2<ObjectIdentifierAsn1, Implied<RawParameters>>;

impl RawAlgorithmIdentifier {
    /// The algorithm's identifier.
    pub fn algorithm(&self) -> &ObjectIdentifierAsn1
        ensures { result.now ≡ self.now.algorithm }
    {
        &self.algorithm
    }

    /// The algorithm with these parameters, NULL where there are none.
    pub fn from_parts(
        alloc: Global,
        algorithm: ObjectIdentifierAsn1,
        parameters: Option<RawElement>,
    ) -> RawAlgorithmIdentifier
        ensures { (result.algorithm ≡ algorithm) × (result.parameters.0 ≡ parameters_of parameters) }
    {
        let parameters = match parameters {
            Some(parameters) => RawParameters(parameters),
            None => null_parameters(alloc),
        };
        RawAlgorithmIdentifier {
            algorithm,
            parameters,
        }
    }

    /// The parameters, none where they are NULL.
    pub fn parameters(&self) -> Option<&RawElement>
        ensures { MatchOption result (IsTrue (is_null self.now.parameters.0))
            (λ parameters. IsFalse (is_null self.now.parameters.0) × (parameters.now ≡ self.now.parameters.0)) }
    {
        if self.parameters.is_default() {
            None
        } else {
            Some(&self.parameters.0)
        }
    }
}

impl Serialize for RawAlgorithmIdentifier {
    ghost use Rattle.std.proofs.Common.{ap, refl, true};
    ghost use Rattle.asn1_der.specs.Tagged.{sequence, tagged_tree};
    ghost use Rattle.asn1_der.specs.Firsts.{only};
    ghost use Rattle.asn1_der.proofs.Spelling.{may_begin-only};
    ghost use Rattle.asn1_der.proofs.Tagged.{sequence_laws, tagged-injective};

    ghost tree = { tagged_tree sequence_octet (sequence ⟦<RawAlgorithmRow as Fields>⟧.trees) (λ v. (v.algorithm, (v.parameters, tt))) };

    ghost firsts = { only sequence_octet };

    ghost begins = { λ _. may_begin-only sequence_octet };

    ghost injective = { tagged-injective sequence_octet (sequence ⟦<RawAlgorithmRow as Fields>⟧.trees)
        (sequence_laws ⟦<RawAlgorithmRow as Fields>⟧.trees (⟦<RawAlgorithmRow as Fields>⟧.injective (refl {a = true})))
        (λ v. (v.algorithm, (v.parameters, tt))) (λ v w e. ap (λ f. record { algorithm = f.0; parameters = f.1.0 }) e) };

    fn serialize<W: Sink>(&self, to: &mut Serializer<W>) -> Result<usize, Asn1DerError> {
        to.list(SEQUENCE, &fields_of![self; algorithm, parameters])
    }
}

impl Deserialize for RawAlgorithmIdentifier {
    fn may_start(first: u8) -> bool {
        first == SEQUENCE
    }

    fn deserialize<R: Source>(from: &mut Deserializer<R>) -> Result<Self, Asn1DerError> {
        let row: RawAlgorithmRow = read_sequence(SEQUENCE, from)?;
        let (algorithm, (parameters, ())) = row;
        Ok(RawAlgorithmIdentifier {
            algorithm,
            parameters,
        })
    }
}

impl Spelled for RawAlgorithmIdentifier {
    ghost use Rattle.std.proofs.Common.{ap, refl, true};
    ghost use Rattle.asn1_der.specs.Tagged.{sequence};
    ghost use Rattle.asn1_der.specs.Firsts.{only};
    ghost use Rattle.x509_spelling.specs.Spellings.{Holds};
    ghost use Rattle.x509_spelling.specs.RowLaws.{struct_laws};

    ghost spells = { λ v. Holds sequence_octet ⟦<RawAlgorithmSpelling as SpelledFields>⟧.spells (v.algorithm, (record { 0 = v.parameters }, tt)) };

    ghost written = { λ v. sequence ⟦<RawAlgorithmSpelling as SpelledFields>⟧.row_trees sequence_octet (v.algorithm, (record { 0 = v.parameters }, tt)) };

    ghost begun = { only sequence_octet };

    ghost has_low_tags = { true };

    ghost laws = { struct_laws sequence_octet refl ⟦<RawAlgorithmSpelling as SpelledFields>⟧.row_firsts ⟦<RawAlgorithmSpelling as SpelledFields>⟧.row_trees
        ⟦<RawAlgorithmSpelling as SpelledFields>⟧.spells (⟦<RawAlgorithmSpelling as SpelledFields>⟧.row_laws (refl {a = true}))
        (λ v. (v.algorithm, (record { 0 = v.parameters }, tt))) (λ v w e. ap (λ f. record { algorithm = f.0; parameters = f.1.0.0 }) e) };

    fn may_begin_with(first: u8) -> bool {
        first == SEQUENCE
    }

    fn read_counted(alloc: Global, bytes: &[u8]) -> Result<Counted<Self>, X509Fault> {
        let read: Counted<RawAlgorithmSpelling> = read_fields(alloc, SEQUENCE, bytes)?;
        let count = read.count;
        let (algorithm, (Implied(parameters), ())) = read.into_value();
        let value = RawAlgorithmIdentifier {
            algorithm,
            parameters,
        };
        Ok(Counted { value, count })
    }

    ghost written_is = { refl };
}
