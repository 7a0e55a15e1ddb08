//! The checksum of a request's body by a digest of the client's choice.
ghost use Rattle.std.specs.Prelude.{◌≡◌, IfOk};
ghost use Rattle.std.specs.List.{find};
ghost use Rattle.std.specs.Option.{option_copied};
ghost use Rattle.picky_asn1_der.specs.Found.{IsFound};
ghost use Rattle.pkinit_validation.specs.Checksums.{IsPaChecksum2, is_checksum_of, is_fifth, second_checksum_in};

use crate::policies::pa_checksum2::PaChecksum2;
use cms_signed_data::general_form::DigestAlgorithm;
use picky_asn1_der::{ExplicitContextTag5, read_whole, to_vec};
use pkinit_messages::agility::{ExtensibleAuthPack, FurtherField};
use std::alloc::{AllocError, Global};

impl PaChecksum2 {
    /// Whether this is the digest of these octets, by an algorithm that is known here.
    pub fn is_checksum_of(&self, octets: &[u8]) -> bool
        ensures { result ≡ is_checksum_of octets.now self.now }
    {
        match DigestAlgorithm::named(&self.algorithm_identifier.0) {
            Some(algorithm) => algorithm.is_digest_of(octets, self.checksum.0.as_bytes()),
            None => false,
        }
    }
}

/// The further field [5] of pkAuthenticator.
pub(crate) fn second_checksum(pack: &ExtensibleAuthPack) -> Option<&FurtherField>
    ensures { option_copied result ≡ second_checksum_in pack.now }
{
    fifth_among(pack.pk_authenticator.0.further.as_slice())
}

// The first of these fields whose tag has the number 5.
fn fifth_among(fields: &[FurtherField]) -> Option<&FurtherField>
    ensures { option_copied result ≡ find is_fifth fields.now }
{
    fields.iter().find(|field| is_fifth(field))
}

fn is_fifth(field: &FurtherField) -> bool
    ensures { result ≡ is_fifth field.now }
{
    field.first() % 32 == 5
}

/// The paChecksum2 that the field is, or `None`.
#[tactic(auto, unfolding(crate::specs::Checksums::IsPaChecksum2))]
pub(crate) fn read_checksum(
    alloc: Global,
    field: &FurtherField,
) -> Result<Option<ExplicitContextTag5<PaChecksum2>>, AllocError>
    ensures { IfOk result (IsFound (IsPaChecksum2 field.now)) }
{
    let Ok(bytes) = to_vec(alloc, field) else {
        return Err(AllocError);
    };
    read_whole(alloc, &bytes)
}
