//! The name of a realm's ticket-granting service.
ghost use Rattle.std.specs.Prelude.{◌≡◌, IfOk};
ghost use Rattle.krb_kdc_exchanges.specs.Errors.{ticket_service};

use krb_constants::types::NT_SRV_INST;
use krb_messages::data_types::PrincipalName;
use krb_messages::krbtgt_of;
use picky_asn1::wrapper::{Asn1SequenceOf, GeneralStringAsn1, IntegerAsn1};
use picky_asn1_der::ExplicitContextTag;
use std::alloc::{AllocError, Global};

/// The name of a realm's ticket-granting service, of name type NT-SRV-INST (RFC 4120, sections 6.2 and 7.3).
pub(crate) fn ticket_service(
    alloc: Global,
    realm: &GeneralStringAsn1,
) -> Result<PrincipalName, AllocError>
    ensures { IfOk result (λ name. name ≡ ticket_service realm.now) }
{
    let kind = IntegerAsn1::from_u64(alloc, NT_SRV_INST as u64)?;
    let name = krbtgt_of(alloc, realm)?;
    Ok(PrincipalName {
        name_type: ExplicitContextTag(kind),
        name_string: ExplicitContextTag(Asn1SequenceOf::from(name)),
    })
}
