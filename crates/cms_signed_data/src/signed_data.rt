//! Signed data (RFC 5652, section 5.1).
ghost use Rattle.std.specs.Prelude.{◌≡◌, MatchResult};
ghost use Rattle.cms_signed_data.specs.SignedRows.{signed_row};
ghost use Rattle.asn1_der.specs.Octets.{sequence_octet};

use crate::encapsulated_content_info::EncapsulatedContentInfo;
use crate::set_of_one::SetOfOne;
use crate::signer_info::SignerInfo;
use asn1_der::octets::SEQUENCE;
use byte_streams::Sink;
use picky_asn1_der::{Asn1DerError, Serialize, Serializer};
use std::alloc::Global;
use x509_certificates::Certificate;
use x509_fields::RawAlgorithmIdentifier;
use x509_spelling::{Counted, Explicit, Spelled, SpelledFields, X509Fault, read_fields};

/// A content, its signer's certificate, and the signer with its signature. Lists of revocation aren't read, not even an empty
/// one.
///
/// ```text
/// SignedData ::= SEQUENCE {
///   version CMSVersion,
///   digestAlgorithms DigestAlgorithmIdentifiers,
///   encapContentInfo EncapsulatedContentInfo,
///   certificates [0] IMPLICIT CertificateSet OPTIONAL,
///   crls [1] IMPLICIT RevocationInfoChoices OPTIONAL,
///   signerInfos SignerInfos }
/// ```
#[derive(Drop)]
pub struct SignedData {
    /// The version, 3 in the one form.
    pub version: u8,
    /// The digest algorithm.
    pub digest_algorithms: SetOfOne<RawAlgorithmIdentifier>,
    /// The content with its type.
    pub encap_content_info: EncapsulatedContentInfo,
    /// The signer's certificate. A SET OF one value under an implicit tag has the bytes of the value under an explicit tag.
    pub certificates: Explicit<0, Certificate>,
    /// The signer.
    pub signer_infos: SetOfOne<SignerInfo>,
}

type SignedRow = (
    u8,
    (
        SetOfOne<RawAlgorithmIdentifier>,
        (
            EncapsulatedContentInfo,
            (Explicit<0, Certificate>, (SetOfOne<SignerInfo>, ())),
        ),
    ),
);

impl Serialize for SignedData {
    ghost use Rattle.std.proofs.Common.{refl, true};
    ghost use Rattle.asn1_der.specs.Tagged.{sequence};
    ghost use Rattle.asn1_der.specs.Firsts.{only};
    ghost use Rattle.asn1_der.proofs.Spelling.{may_begin-only};
    ghost use Rattle.x509_spelling.specs.Spellings.{Holds};
    ghost use Rattle.x509_spelling.specs.RowLaws.{struct_laws};
    ghost use Rattle.x509_spelling.specs.HeldLaws.{laws_injective};
    ghost use Rattle.cms_signed_data.specs.SignedRows.{signed_row, one_signed};

    ghost tree = { λ v. sequence ⟦<SignedRow as SpelledFields>⟧.row_trees sequence_octet (signed_row v) };

    ghost firsts = { only sequence_octet };

    ghost begins = { λ _. may_begin-only sequence_octet };

    ghost injective = { laws_injective true (only sequence_octet) (λ v. sequence ⟦<SignedRow as SpelledFields>⟧.row_trees sequence_octet (signed_row v))
        (λ v. Holds sequence_octet ⟦<SignedRow as SpelledFields>⟧.spells (signed_row v))
        (struct_laws sequence_octet refl ⟦<SignedRow as SpelledFields>⟧.row_firsts ⟦<SignedRow as SpelledFields>⟧.row_trees ⟦<SignedRow as SpelledFields>⟧.spells
        (⟦<SignedRow as SpelledFields>⟧.row_laws (refl {a = true})) signed_row one_signed) };

    fn serialize<W: Sink>(&self, to: &mut Serializer<W>) -> Result<usize, Asn1DerError> {
        let behind = (&self.certificates, (&self.signer_infos, ()));
        let digested = (&self.digest_algorithms, (&self.encap_content_info, behind));
        to.list(SEQUENCE, &(&self.version, digested))
    }
}

impl Spelled for SignedData {
    ghost use Rattle.std.proofs.Common.{refl, true};
    ghost use Rattle.asn1_der.specs.Tagged.{sequence};
    ghost use Rattle.asn1_der.specs.Firsts.{only};
    ghost use Rattle.x509_spelling.specs.Spellings.{Holds};
    ghost use Rattle.x509_spelling.specs.RowLaws.{struct_laws};
    ghost use Rattle.cms_signed_data.specs.SignedRows.{signed_row, one_signed};

    ghost spells = { λ v. Holds sequence_octet ⟦<SignedRow as SpelledFields>⟧.spells (signed_row v) };

    ghost written = { λ v. sequence ⟦<SignedRow as SpelledFields>⟧.row_trees sequence_octet (signed_row v) };

    ghost begun = { only sequence_octet };

    ghost has_low_tags = { true };

    ghost laws = { struct_laws sequence_octet refl ⟦<SignedRow as SpelledFields>⟧.row_firsts ⟦<SignedRow as SpelledFields>⟧.row_trees ⟦<SignedRow as SpelledFields>⟧.spells
        (⟦<SignedRow as SpelledFields>⟧.row_laws (refl {a = true})) signed_row one_signed };

    fn may_begin_with(first: u8) -> bool {
        first == SEQUENCE
    }

    fn read_counted(alloc: Global, bytes: &[u8]) -> Result<Counted<Self>, X509Fault> {
        let read: Counted<SignedRow> = read_fields(alloc, SEQUENCE, bytes)?;
        let count = read.count;
        let value = of_row(read.into_value());
        Ok(Counted { value, count })
    }

    ghost written_is = { refl };
}

// The value with these fields.
fn of_row(row: SignedRow) -> SignedData
    ensures { signed_row result ≡ row }
{
    let (version, (digest_algorithms, (encap_content_info, behind))) = row;
    let (certificates, (signer_infos, ())) = behind;
    SignedData {
        version,
        digest_algorithms,
        encap_content_info,
        certificates,
        signer_infos,
    }
}
