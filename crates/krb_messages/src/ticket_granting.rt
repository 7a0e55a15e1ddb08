//! The name of a realm's ticket-granting service.
ghost use Rattle.std.specs.Prelude.{◌≡◌, IfOk, codes};
ghost use Rattle.krb_messages.specs.TicketGranting.{krbtgt_of};

use picky_asn1::wrapper::GeneralStringAsn1;
use picky_asn1_der::both;
use std::alloc::{AllocError, Global};

/// The components of the ticket-granting service of a realm (RFC 4120, section 7.3).
pub fn krbtgt_of(
    alloc: Global,
    realm: &GeneralStringAsn1,
) -> Result<Vec<GeneralStringAsn1>, AllocError>
    ensures { IfOk result (λ name. name.items ≡ krbtgt_of realm.now) }
{
    let (first, second) = both(service_text(alloc), realm.clone())?;
    let name = vec![in alloc; first, second]?;
    Ok(name)
}

/// The first component of the name of each ticket-granting service (RFC 4120, section 7.3).
pub fn krbtgt() -> &'static [u8]
    ensures { result.now ≡ codes "krbtgt" }
{
    b"krbtgt"
}

fn service_text(alloc: Global) -> Result<GeneralStringAsn1, AllocError>
    ensures { IfOk result (λ text. text ≡ codes "krbtgt") }
{
    match GeneralStringAsn1::new(alloc, krbtgt()) {
        Ok(text) => Ok(text),
        Err(_) => Err(AllocError),
    }
}
