//! The name of a realm's ticket-granting service.
ghost use Rattle.std.specs.Prelude.{◌≡◌, IfOk};
ghost use Rattle.krb_realm_accounts.specs.Names.{parts};
ghost use Rattle.krb_messages.specs.TicketGranting.{krbtgt_of};

use krb_messages::krbtgt;
use picky_asn1::wrapper::GeneralStringAsn1;
use std::alloc::{AllocError, Global};

/// The components of the name of a realm's ticket-granting service (RFC 4120, section 7.3).
pub fn granting_service(
    alloc: Global,
    realm: &GeneralStringAsn1,
) -> Result<Vec<Vec<u8>>, AllocError>
    ensures { IfOk result (λ name. parts name.items ≡ krbtgt_of realm.now) }
{
    let first = Vec::from_slice(alloc, krbtgt())?;
    let second = Vec::from_slice(alloc, realm.as_bytes())?;
    let name = vec![in alloc; first, second]?;
    Ok(name)
}
