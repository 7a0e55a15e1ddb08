//! Certification requests (RFC 2986, section 4.2).
ghost use Rattle.std.specs.Prelude.{◌≡◌, IfOk, MatchResult};
ghost use Rattle.x509_codec.specs.Answers.{ReadsSpelling};
ghost use Rattle.x509_codec.specs.SignedParts.{IsSignedPart, value_of};
ghost use Rattle.x509_certificates.specs.Requests.{request_row};
ghost use Rattle.asn1_der.specs.Octets.{sequence_octet};

use crate::certification_request_info::CertificationRequestInfo;
use asn1_der::octets::SEQUENCE;
use byte_streams::Sink;
use picky_asn1::wrapper::BitStringAsn1;
use picky_asn1_der::{Asn1DerError, LentFields, Serialize, Serializer, fields_of};
use std::alloc::{AllocError, Global};
use x509_algorithms::AlgorithmIdentifier;
use x509_codec::{Signed, with_signed_part};
use x509_spelling::{Ahead, Counted, Spelled, SpelledFields, X509Fault, read_fields};

/// A request for a certificate, signed with the key that it is to have.
///
/// ```text
/// CertificationRequest ::= SEQUENCE {
///      certificationRequestInfo CertificationRequestInfo,
///      signatureAlgorithm AlgorithmIdentifier{{ SignatureAlgorithms }},
///      signature          BIT STRING }
/// ```
#[derive(Debug, Drop, PartialEq, Eq)]
pub struct CertificationRequest {
    /// The part that is signed.
    pub certification_request_info: CertificationRequestInfo,
    /// The algorithm of the signature.
    pub signature_algorithm: AlgorithmIdentifier,
    /// The signature.
    pub signature: BitStringAsn1,
}

impl Clone for CertificationRequest {
    ghost is_clone = { λ request copy. copy ≡ request };

    fn clone(&self) -> Result<CertificationRequest, AllocError> {
        let row =
            fields_of![self; certification_request_info, signature_algorithm, signature].copied()?;
        Ok(of_row(row))
    }
}

type RequestRow = (
    CertificationRequestInfo,
    (AlgorithmIdentifier, (BitStringAsn1, ())),
);

impl CertificationRequest {
    /// The request of which the whole input is a spelling, with any count of deviations, and the bytes that its
    /// signature is over, where they are in the input. They are what the strict spelling of `certification_request_info` is
    /// exactly where nothing deviates in them.
    pub fn with_signed_part(
        alloc: Global,
        bytes: &[u8],
    ) -> Result<(CertificationRequest, &[u8]), X509Fault>
        ensures value { ReadsSpelling ⟦<CertificationRequest as Spelled>⟧.spells bytes.now (value_of result) }
        ensures part { IfOk result (λ read. IsSignedPart ⟦<CertificationRequestInfo as Spelled>⟧.spells ⟦<CertificationRequestInfo as Serialize>⟧.tree read.0.certification_request_info bytes.now read.1.now) }
    {
        with_signed_part(alloc, bytes)
    }
}

impl Serialize for CertificationRequest {
    ghost use Rattle.std.proofs.Common.{refl, true};
    ghost use Rattle.asn1_der.specs.Tagged.{sequence};
    ghost use Rattle.asn1_der.specs.Firsts.{only};
    ghost use Rattle.asn1_der.proofs.Spelling.{may_begin-only};
    ghost use Rattle.x509_spelling.specs.Spellings.{Holds};
    ghost use Rattle.x509_spelling.specs.RowLaws.{struct_laws};
    ghost use Rattle.x509_spelling.specs.HeldLaws.{laws_injective};
    ghost use Rattle.x509_certificates.specs.Requests.{request_row, one_request};

    ghost tree = { λ v. sequence ⟦<RequestRow as SpelledFields>⟧.row_trees sequence_octet (request_row v) };

    ghost firsts = { only sequence_octet };

    ghost begins = { λ _. may_begin-only sequence_octet };

    ghost injective = { laws_injective true (only sequence_octet) (λ v. sequence ⟦<RequestRow as SpelledFields>⟧.row_trees sequence_octet (request_row v))
        (λ v. Holds sequence_octet ⟦<RequestRow as SpelledFields>⟧.spells (request_row v))
        (struct_laws sequence_octet refl ⟦<RequestRow as SpelledFields>⟧.row_firsts ⟦<RequestRow as SpelledFields>⟧.row_trees ⟦<RequestRow as SpelledFields>⟧.spells
        (⟦<RequestRow as SpelledFields>⟧.row_laws (refl {a = true})) request_row one_request) };

    fn serialize<W: Sink>(&self, to: &mut Serializer<W>) -> Result<usize, Asn1DerError> {
        let behind = Ahead(&self.signature_algorithm, (&self.signature, ()));
        to.list(SEQUENCE, &(&self.certification_request_info, behind))
    }
}

impl Spelled for CertificationRequest {
    ghost use Rattle.std.proofs.Common.{refl, true};
    ghost use Rattle.asn1_der.specs.Tagged.{sequence};
    ghost use Rattle.asn1_der.specs.Firsts.{only};
    ghost use Rattle.x509_spelling.specs.Spellings.{Holds};
    ghost use Rattle.x509_spelling.specs.RowLaws.{struct_laws};
    ghost use Rattle.x509_certificates.specs.Requests.{request_row, one_request};

    ghost spells = { λ v. Holds sequence_octet ⟦<RequestRow as SpelledFields>⟧.spells (request_row v) };

    ghost written = { λ v. sequence ⟦<RequestRow as SpelledFields>⟧.row_trees sequence_octet (request_row v) };

    ghost begun = { only sequence_octet };

    ghost has_low_tags = { true };

    ghost laws = { struct_laws sequence_octet refl ⟦<RequestRow as SpelledFields>⟧.row_firsts ⟦<RequestRow as SpelledFields>⟧.row_trees ⟦<RequestRow as SpelledFields>⟧.spells
        (⟦<RequestRow as SpelledFields>⟧.row_laws (refl {a = true})) request_row one_request };

    fn may_begin_with(first: u8) -> bool {
        first == SEQUENCE
    }

    fn read_counted(alloc: Global, bytes: &[u8]) -> Result<Counted<Self>, X509Fault> {
        let read: Counted<RequestRow> = read_fields(alloc, SEQUENCE, bytes)?;
        let count = read.count;
        let value = of_row(read.into_value());
        Ok(Counted { value, count })
    }

    ghost written_is = { refl };
}

// The request with these fields.
fn of_row(row: RequestRow) -> CertificationRequest
    ensures { request_row result ≡ row }
{
    let (certification_request_info, (signature_algorithm, (signature, ()))) = row;
    CertificationRequest {
        certification_request_info,
        signature_algorithm,
        signature,
    }
}

impl Signed for CertificationRequest {
    ghost use Rattle.x509_codec.specs.SignedParts.{holds_first};

    type Part = CertificationRequestInfo;

    ghost part_of = { λ v. v.certification_request_info };

    fn signed_part(&self) -> &CertificationRequestInfo {
        &self.certification_request_info
    }

    ghost holds_part = { λ v bytes n s. holds_first ⟦<CertificationRequestInfo as Spelled>⟧.spells
        ⟦<AlgorithmIdentifier as Spelled>⟧.has_low_tags ⟦<AlgorithmIdentifier as Spelled>⟧.begun ⟦<AlgorithmIdentifier as Spelled>⟧.written ⟦<AlgorithmIdentifier as Spelled>⟧.spells ⟦<AlgorithmIdentifier as Spelled>⟧.laws
        ⟦<BitStringAsn1 as Spelled>⟧.has_low_tags ⟦<BitStringAsn1 as Spelled>⟧.begun ⟦<BitStringAsn1 as Spelled>⟧.written ⟦<BitStringAsn1 as Spelled>⟧.spells ⟦<BitStringAsn1 as Spelled>⟧.laws
        v.certification_request_info v.signature_algorithm v.signature bytes n s };
}
