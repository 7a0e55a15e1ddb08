//! Names.
ghost use Rattle.std.specs.Prelude.{◌≡◌, IfOk};
ghost use Rattle.krb_client.specs.Held.{principal_name};

use krb_messages::data_types::PrincipalName;
use picky_asn1::wrapper::{Asn1SequenceOf, GeneralStringAsn1, IntegerAsn1};
use picky_asn1_der::{ExplicitContextTag, both};
use std::alloc::{AllocError, Global};

/// The name of this type with copies of the components (RFC 4120, section 5.2.2).
pub(crate) fn principal_name(
    alloc: Global,
    kind: u8,
    components: &[GeneralStringAsn1],
) -> Result<PrincipalName, AllocError>
    ensures { IfOk result (λ name. name ≡ principal_name kind components.now) }
{
    let kind = IntegerAsn1::from_u64(alloc, u64::from(kind));
    let (kind, copies) = both(kind, copies_of(alloc, components))?;
    Ok(PrincipalName {
        name_type: ExplicitContextTag(kind),
        name_string: ExplicitContextTag(copies),
    })
}

fn copies_of(
    alloc: Global,
    components: &[GeneralStringAsn1],
) -> Result<Asn1SequenceOf<GeneralStringAsn1>, AllocError>
    ensures { IfOk result (λ copies. copies ≡ components.now) }
{
    let mut copies = Vec::with_capacity(alloc, components.len())?;
    for component in components {
        copies.push(component.clone()?)?;
    }
    Ok(Asn1SequenceOf::from(copies))
}
