//! Certificates (RFC 5280, section 4.1).
ghost use Rattle.std.specs.Prelude.{◌≡◌, None, Some, IfOk, MatchOption, MatchResult};
ghost use Rattle.x509_codec.specs.Answers.{ReadsSpelling};
ghost use Rattle.x509_codec.specs.SignedParts.{IsSignedPart, value_of};
ghost use Rattle.x509_certificates.specs.Certificates.{certificate_row};
ghost use Rattle.asn1_der.specs.Octets.{sequence_octet};

use crate::held::first_held;
use crate::tbs_certificate::TbsCertificate;
use crate::{AuthorityKeyIdentifier, Extension, KeyUsage, SubjectAltName, SubjectKeyIdentifier};
use asn1_der::octets::SEQUENCE;
use byte_streams::Sink;
use picky_asn1::wrapper::BitStringAsn1;
use picky_asn1_der::{Asn1DerError, LentFields, Serialize, Serializer, fields_of};
use std::alloc::{AllocError, Global};
use x509_algorithms::AlgorithmIdentifier;
use x509_codec::{Signed, with_signed_part};
use x509_fields::BasicConstraints;
use x509_spelling::{Ahead, Counted, Spelled, SpelledFields, X509Fault, read_fields};

/// A certificate: who a key belongs to, as its issuer signs it.
///
/// ```text
/// Certificate  ::=  SEQUENCE  {
///      tbsCertificate       TBSCertificate,
///      signatureAlgorithm   AlgorithmIdentifier,
///      signatureValue       BIT STRING  }
/// ```
#[derive(Debug, Drop, PartialEq, Eq)]
pub struct Certificate {
    /// The part that is signed.
    pub tbs_certificate: TbsCertificate,
    /// The algorithm of the signature.
    pub signature_algorithm: AlgorithmIdentifier,
    /// The signature.
    pub signature_value: BitStringAsn1,
}

impl Clone for Certificate {
    ghost is_clone = { λ certificate copy. copy ≡ certificate };

    fn clone(&self) -> Result<Certificate, AllocError> {
        let row = fields_of![self; tbs_certificate, signature_algorithm, signature_value].copied()?;
        Ok(of_row(row))
    }
}

type CertificateRow = (TbsCertificate, (AlgorithmIdentifier, (BitStringAsn1, ())));

impl Certificate {
    ghost use Rattle.x509_certificates.specs.ExtensionsFields.{extensions_in};
    ghost use Rattle.x509_certificates.specs.ExtensionsHeld.{first_among, key_held, authority_held, constraints_held, subject_names_held, usage_held};

    /// The certificate of which the whole input is a spelling, with any count of deviations, and the bytes that its
    /// signature is over, where they are in the input. They are what the strict spelling of `tbs_certificate` is
    /// exactly where nothing deviates in them.
    pub fn with_signed_part(alloc: Global, bytes: &[u8]) -> Result<(Certificate, &[u8]), X509Fault>
        ensures value { ReadsSpelling ⟦<Certificate as Spelled>⟧.spells bytes.now (value_of result) }
        ensures part { IfOk result (λ read. IsSignedPart ⟦<TbsCertificate as Spelled>⟧.spells ⟦<TbsCertificate as Serialize>⟧.tree read.0.tbs_certificate bytes.now read.1.now) }
    {
        with_signed_part(alloc, bytes)
    }

    /// The extensions.
    pub fn extensions(&self) -> &[Extension]
        ensures { result.now ≡ extensions_in self.now.tbs_certificate.extensions.tagged.0 }
    {
        self.tbs_certificate.extensions.as_slice()
    }

    /// The subject's key identifier, from the first extension that has one.
    pub fn subject_key_identifier(&self) -> Option<&SubjectKeyIdentifier>
        ensures { MatchOption result
            (first_among key_held (extensions_in self.now.tbs_certificate.extensions.tagged.0) ≡ None)
            (λ key. first_among key_held (extensions_in self.now.tbs_certificate.extensions.tagged.0) ≡ Some key.now) }
    {
        first_held(self.extensions())
    }

    /// Which key signed the certificate, of the first extension that says it.
    pub fn authority_key_identifier(&self) -> Option<&AuthorityKeyIdentifier>
        ensures { MatchOption result
            (first_among authority_held (extensions_in self.now.tbs_certificate.extensions.tagged.0) ≡ None)
            (λ key. first_among authority_held (extensions_in self.now.tbs_certificate.extensions.tagged.0) ≡ Some key.now) }
    {
        first_held(self.extensions())
    }

    /// Whether the certificate is an authority's, of the first extension that says it.
    pub fn basic_constraints(&self) -> Option<&BasicConstraints>
        ensures { MatchOption result
            (first_among constraints_held (extensions_in self.now.tbs_certificate.extensions.tagged.0) ≡ None)
            (λ constraints. first_among constraints_held (extensions_in self.now.tbs_certificate.extensions.tagged.0) ≡ Some constraints.now) }
    {
        first_held(self.extensions())
    }

    /// What the key may be used for, of the first extension that says it.
    pub fn key_usage(&self) -> Option<&KeyUsage>
        ensures { MatchOption result
            (first_among usage_held (extensions_in self.now.tbs_certificate.extensions.tagged.0) ≡ None)
            (λ usage. first_among usage_held (extensions_in self.now.tbs_certificate.extensions.tagged.0) ≡ Some usage.now) }
    {
        first_held(self.extensions())
    }

    /// Further names of the subject, of the first extension that has some.
    pub fn subject_alt_names(&self) -> Option<&SubjectAltName>
        ensures { MatchOption result
            (first_among subject_names_held (extensions_in self.now.tbs_certificate.extensions.tagged.0) ≡ None)
            (λ names. first_among subject_names_held (extensions_in self.now.tbs_certificate.extensions.tagged.0) ≡ Some names.now) }
    {
        first_held(self.extensions())
    }
}

impl Serialize for Certificate {
    ghost use Rattle.std.proofs.Common.{refl, true};
    ghost use Rattle.asn1_der.specs.Tagged.{sequence};
    ghost use Rattle.asn1_der.specs.Firsts.{only};
    ghost use Rattle.asn1_der.proofs.Spelling.{may_begin-only};
    ghost use Rattle.x509_spelling.specs.Spellings.{Holds};
    ghost use Rattle.x509_spelling.specs.RowLaws.{struct_laws};
    ghost use Rattle.x509_spelling.specs.HeldLaws.{laws_injective};
    ghost use Rattle.x509_certificates.specs.Certificates.{certificate_row, one_certificate};

    ghost tree = { λ v. sequence ⟦<CertificateRow as SpelledFields>⟧.row_trees sequence_octet (certificate_row v) };

    ghost firsts = { only sequence_octet };

    ghost begins = { λ _. may_begin-only sequence_octet };

    ghost injective = { laws_injective true (only sequence_octet) (λ v. sequence ⟦<CertificateRow as SpelledFields>⟧.row_trees sequence_octet (certificate_row v))
        (λ v. Holds sequence_octet ⟦<CertificateRow as SpelledFields>⟧.spells (certificate_row v))
        (struct_laws sequence_octet refl ⟦<CertificateRow as SpelledFields>⟧.row_firsts ⟦<CertificateRow as SpelledFields>⟧.row_trees ⟦<CertificateRow as SpelledFields>⟧.spells
        (⟦<CertificateRow as SpelledFields>⟧.row_laws (refl {a = true})) certificate_row one_certificate) };

    fn serialize<W: Sink>(&self, to: &mut Serializer<W>) -> Result<usize, Asn1DerError> {
        let signature = Ahead(&self.signature_algorithm, (&self.signature_value, ()));
        to.list(SEQUENCE, &(&self.tbs_certificate, signature))
    }
}

impl Spelled for Certificate {
    ghost use Rattle.std.proofs.Common.{refl, true};
    ghost use Rattle.asn1_der.specs.Tagged.{sequence};
    ghost use Rattle.asn1_der.specs.Firsts.{only};
    ghost use Rattle.x509_spelling.specs.Spellings.{Holds};
    ghost use Rattle.x509_spelling.specs.RowLaws.{struct_laws};
    ghost use Rattle.x509_certificates.specs.Certificates.{certificate_row, one_certificate};

    ghost spells = { λ v. Holds sequence_octet ⟦<CertificateRow as SpelledFields>⟧.spells (certificate_row v) };

    ghost written = { λ v. sequence ⟦<CertificateRow as SpelledFields>⟧.row_trees sequence_octet (certificate_row v) };

    ghost begun = { only sequence_octet };

    ghost has_low_tags = { true };

    ghost laws = { struct_laws sequence_octet refl ⟦<CertificateRow as SpelledFields>⟧.row_firsts ⟦<CertificateRow as SpelledFields>⟧.row_trees ⟦<CertificateRow as SpelledFields>⟧.spells
        (⟦<CertificateRow as SpelledFields>⟧.row_laws (refl {a = true})) certificate_row one_certificate };

    fn may_begin_with(first: u8) -> bool {
        first == SEQUENCE
    }

    fn read_counted(alloc: Global, bytes: &[u8]) -> Result<Counted<Self>, X509Fault> {
        let read: Counted<CertificateRow> = read_fields(alloc, SEQUENCE, bytes)?;
        let count = read.count;
        let value = of_row(read.into_value());
        Ok(Counted { value, count })
    }

    ghost written_is = { refl };
}

// The certificate with these fields.
fn of_row(row: CertificateRow) -> Certificate
    ensures { certificate_row result ≡ row }
{
    let (tbs_certificate, (signature_algorithm, (signature_value, ()))) = row;
    Certificate {
        tbs_certificate,
        signature_algorithm,
        signature_value,
    }
}

impl Signed for Certificate {
    ghost use Rattle.x509_codec.specs.SignedParts.{holds_first};

    type Part = TbsCertificate;

    ghost part_of = { λ v. v.tbs_certificate };

    fn signed_part(&self) -> &TbsCertificate {
        &self.tbs_certificate
    }

    ghost holds_part = { λ v bytes n s. holds_first ⟦<TbsCertificate as Spelled>⟧.spells
        ⟦<AlgorithmIdentifier as Spelled>⟧.has_low_tags ⟦<AlgorithmIdentifier as Spelled>⟧.begun ⟦<AlgorithmIdentifier as Spelled>⟧.written ⟦<AlgorithmIdentifier as Spelled>⟧.spells ⟦<AlgorithmIdentifier as Spelled>⟧.laws
        ⟦<BitStringAsn1 as Spelled>⟧.has_low_tags ⟦<BitStringAsn1 as Spelled>⟧.begun ⟦<BitStringAsn1 as Spelled>⟧.written ⟦<BitStringAsn1 as Spelled>⟧.spells ⟦<BitStringAsn1 as Spelled>⟧.laws
        v.tbs_certificate v.signature_algorithm v.signature_value bytes n s };
}
