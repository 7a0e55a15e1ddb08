//! The padata of a request.
ghost use Rattle.std.specs.Prelude.{◌≡◌};
ghost use Rattle.std.specs.Option.{option_copied};
ghost use Rattle.krb_messages.specs.Padata.{first_padata, first_of, padata_in};

use crate::data_types::PaData;
use crate::messages::KdcReq;
use crate::numbers::is_number;
use picky_asn1::wrapper::OctetStringAsn1;

/// The data of the first padata of a type, the one that counts (RFC 4120, section 5.2.7).
#[tactic(auto, unfolding(crate::specs::Padata::first_of))]
pub fn first_of(padata: &[PaData], kind: u32) -> Option<&OctetStringAsn1>
    ensures { option_copied result ≡ first_of kind padata.now }
{
    match first_padata(padata, kind) {
        Some(pa_data) => Some(&pa_data.padata_data.0),
        None => None,
    }
}

// The first padata of a type.
fn first_padata(padata: &[PaData], kind: u32) -> Option<&PaData>
    ensures { option_copied result ≡ first_padata kind padata.now }
{
    padata
        .iter()
        .find(|pa_data| is_number(&pa_data.padata_type.0, kind))
}

/// The padata of a request.
pub fn padata_in(request: &KdcReq) -> &[PaData]
    ensures { result.now ≡ padata_in request.now }
{
    match &request.padata.0 {
        Some(tagged) => tagged.0.as_slice(),
        None => &[],
    }
}

/// The data of the first padata of a type in a request.
pub fn first_in(request: &KdcReq, kind: u32) -> Option<&OctetStringAsn1>
    ensures { option_copied result ≡ first_of kind (padata_in request.now) }
{
    first_of(padata_in(request), kind)
}
