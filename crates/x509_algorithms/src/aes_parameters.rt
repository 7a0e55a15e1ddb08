//! Parameters of AES (RFC 3565, section 2.3.2; RFC 5084, section 3).
ghost use Rattle.std.specs.Prelude.{◌≡◌, MatchResult};
ghost use Rattle.asn1_der.specs.Octets.{sequence_octet};

use asn1_der::octets::SEQUENCE;
use byte_streams::{Sink, Source};
use picky_asn1::wrapper::{IntegerAsn1, OctetStringAsn1};
use picky_asn1_der::{
    Alternatives, Asn1DerError, Choice, Deserialize, Deserializer, Fields, Last, Row2, Serialize,
    Serializer, Tagged, fields_of, from_fields, read_sequence,
};
use std::alloc::AllocError;
use x509_spelling::Exact;

/// How AES is used on more than a block.
#[derive(Clone, Copy, Debug, PartialEq, Eq)]
pub enum AesMode {
    /// Each block alone.
    Ecb,
    /// Cipher block chaining.
    Cbc,
    /// Output feedback.
    Ofb,
    /// Cipher feedback.
    Cfb,
    /// Wrapping of keys (RFC 3394).
    Wrap,
    /// Galois/Counter mode.
    Gcm,
    /// Counter with CBC-MAC.
    Ccm,
    /// Wrapping of keys of any length (RFC 5649).
    WrapPad,
}

/// Parameters of AES, distinguished by their first octet.
#[derive(Debug, Drop, PartialEq, Eq)]
pub enum AesParameters {
    /// None, written as NULL.
    Null,
    /// What the first block is chained to.
    InitializationVector(OctetStringAsn1),
    /// Parameters of a mode that authenticates.
    AuthenticatedEncryptionParameters(AesAuthEncParams),
}

/// Parameters of a mode that authenticates.
///
/// ```text
/// GCMParameters ::= SEQUENCE {
///      aes-nonce        OCTET STRING, -- recommended size is 12 octets
///      aes-ICVlen       AES-GCM-ICVlen DEFAULT 12 }
/// ```
///
/// The length is always written, and parameters without it aren't read.
#[derive(Debug, Drop, PartialEq, Eq)]
pub struct AesAuthEncParams {
    nonce: OctetStringAsn1,
    icv_len: IntegerAsn1,
}

impl Clone for AesParameters {
    ghost is_clone = { λ params copy. copy ≡ params };

    fn clone(&self) -> Result<AesParameters, AllocError> {
        Ok(match self {
            AesParameters::Null => AesParameters::Null,
            AesParameters::InitializationVector(vector) => AesParameters::InitializationVector(
                vector.clone()?,
            ),
            AesParameters::AuthenticatedEncryptionParameters(params) =>
                AesParameters::AuthenticatedEncryptionParameters(params.clone()?),
        })
    }
}

impl Clone for AesAuthEncParams {
    ghost is_clone = { λ params copy. copy ≡ params };

    fn clone(&self) -> Result<AesAuthEncParams, AllocError> {
        let nonce = self.nonce.clone()?;
        let icv_len = self.icv_len.clone()?;
        Ok(AesAuthEncParams { nonce, icv_len })
    }
}

type AuthEncRow = Row2<OctetStringAsn1, IntegerAsn1>;

type AesChoice = Choice<(), Choice<OctetStringAsn1, Last<AesAuthEncParams>>>;

impl AesAuthEncParams {
    /// The parameters of this nonce and length.
    pub fn new(nonce: OctetStringAsn1, icv_len: IntegerAsn1) -> AesAuthEncParams
        ensures { result ≡ record { nonce = nonce; icv_len = icv_len } }
    {
        AesAuthEncParams { nonce, icv_len }
    }

    /// The nonce.
    pub fn nonce(&self) -> &OctetStringAsn1
        ensures { result.now ≡ self.now.nonce }
    {
        &self.nonce
    }

    /// How many octets the check value has.
    pub fn icv_len(&self) -> &IntegerAsn1
        ensures { result.now ≡ self.now.icv_len }
    {
        &self.icv_len
    }
}

impl Tagged for AesAuthEncParams {
    ghost use Rattle.std.proofs.Common.{ap, refl, true};
    ghost use Rattle.asn1_der.specs.Tagged.{sequence};
    ghost use Rattle.asn1_der.proofs.Tagged.{sequence_laws};

    type Row = AuthEncRow;

    const FIRST: u8 = SEQUENCE;

    ghost FIRST = { sequence_octet };

    ghost row_tree = { sequence ⟦<AuthEncRow as Fields>⟧.trees };

    ghost row_laws = { sequence_laws ⟦<AuthEncRow as Fields>⟧.trees (⟦<AuthEncRow as Fields>⟧.injective (refl {a = true})) };

    ghost row_of = { λ v. (v.nonce, (v.icv_len, tt)) };

    ghost one_row = { λ v w e. ap (λ f. record { nonce = f.0; icv_len = f.1.0 }) e };

    fn read_row<R: Source>(tag: u8, from: &mut Deserializer<R>) -> Result<Self::Row, Asn1DerError> {
        read_sequence(tag, from)
    }

    fn of_row(row: Self::Row) -> Self {
        from_fields![row; nonce, icv_len]
    }

    fn write_row<W: Sink>(&self, tag: u8, to: &mut Serializer<W>) -> Result<usize, Asn1DerError> {
        to.list(tag, &fields_of![self; nonce, icv_len])
    }
}

impl Exact for AesAuthEncParams {
    ghost plain = { tt };
}

impl Serialize for AesParameters {
    ghost use Rattle.std.proofs.Common.{refl, true};
    ghost use Rattle.asn1_der.proofs.Choices.{injective_as};
    ghost use Rattle.x509_algorithms.specs.AesChoices.{aes_choice, aes_made, aes_back};

    ghost tree = { λ v. ⟦<AesChoice as Alternatives>⟧.tree (aes_choice v) };

    ghost firsts = { ⟦<AesChoice as Alternatives>⟧.firsts };

    ghost begins = { λ v. ⟦<AesChoice as Alternatives>⟧.begins (aes_choice v) };

    ghost injective = { injective_as ⟦<AesChoice as Alternatives>⟧.tree (⟦<AesChoice as Alternatives>⟧.injective (refl {a = true})) aes_choice aes_made aes_back };

    fn serialize<W: Sink>(&self, to: &mut Serializer<W>) -> Result<usize, Asn1DerError> {
        match self {
            AesParameters::Null => ().serialize(to),
            AesParameters::InitializationVector(vector) => vector.serialize(to),
            AesParameters::AuthenticatedEncryptionParameters(params) => params.serialize(to),
        }
    }
}

impl Deserialize for AesParameters {
    fn may_start(first: u8) -> bool {
        AesChoice::may_start_any(first)
    }

    fn deserialize<R: Source>(from: &mut Deserializer<R>) -> Result<Self, Asn1DerError> {
        let choice: AesChoice = Alternatives::read_one(from)?;
        Ok(match choice {
            Choice::This(()) => AesParameters::Null,
            Choice::Other(Choice::This(vector)) => AesParameters::InitializationVector(vector),
            Choice::Other(Choice::Other(Last(params))) =>
                AesParameters::AuthenticatedEncryptionParameters(params),
        })
    }
}

impl Exact for AesParameters {
    ghost plain = { tt };
}
