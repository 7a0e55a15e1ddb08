//! The parties of an agreement.
ghost use Rattle.std.specs.Prelude.{◌≡◌, Some, IfOk};
ghost use Rattle.std.specs.Option.{option_copied};
ghost use Rattle.pkinit_messages.specs.OtherInfos.{party_bytes};

use crate::agility::party_name::PartyName;
use krb_messages::data_types::PrincipalName;
use picky_asn1::wrapper::{GeneralStringAsn1, OctetStringAsn1};
use picky_asn1_der::{ExplicitContextTag, encoding_of};
use std::alloc::{AllocError, Global};

/// The encoding of a party of the realm. A name that is missing has none.
pub(crate) fn party_octets(
    alloc: Global,
    realm: &GeneralStringAsn1,
    name: Option<&PrincipalName>,
) -> Result<OctetStringAsn1, AllocError>
    ensures { IfOk result (λ octets. octets ≡ party_bytes realm.now (option_copied name.entry)) }
{
    let Some(name) = name else {
        return Ok(OctetStringAsn1::from(Vec::new(alloc)));
    };
    let bytes = named_bytes(alloc, realm, name)?;
    Ok(OctetStringAsn1::from(bytes))
}

#[tactic(auto, unfolding(crate::specs::OtherInfos::name_bytes))]
fn named_bytes(
    alloc: Global,
    realm: &GeneralStringAsn1,
    name: &PrincipalName,
) -> Result<Vec<u8>, AllocError>
    ensures { IfOk result (λ bytes. bytes.items ≡ party_bytes realm.now (Some name.now)) }
{
    let realm = realm.clone()?;
    let name = name.clone()?;
    let party = PartyName {
        realm: ExplicitContextTag(realm),
        principal_name: ExplicitContextTag(name),
    };
    encoding_of(alloc, party)
}
