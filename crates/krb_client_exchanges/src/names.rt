//! The names of a client and of its realm's ticket-granting service.
ghost use Rattle.std.specs.Prelude.{◌≡◌, IfOk};
ghost use Rattle.krb_realm_accounts.specs.Names.{parts};
ghost use Rattle.krb_messages.specs.TicketGranting.{krbtgt_of};

use krb_client::Client;
use krb_crypto::CipherSuite;
use krb_messages::krbtgt;
use std::alloc::{AllocError, Global};

/// The components of the name of the ticket-granting service of a client's realm (RFC 4120, section 7.3).
pub(crate) fn granting_service(alloc: Global, client: &Client) -> Result<Vec<Vec<u8>>, AllocError>
    ensures { IfOk result (λ name. parts name.items ≡ krbtgt_of client.now.realm) }
{
    let first = Vec::from_slice(alloc, krbtgt())?;
    let second = Vec::from_slice(alloc, client.realm().as_bytes())?;
    let name = vec![in alloc; first, second]?;
    Ok(name)
}

/// The components of a client's name.
pub(crate) fn name_of(alloc: Global, client: &Client) -> Result<Vec<Vec<u8>>, AllocError>
    ensures { IfOk result (λ name. parts name.items ≡ client.now.components) }
{
    let components = client.components();
    let mut name = Vec::with_capacity(alloc, components.len())?;
    for component in components {
        name.push(Vec::from_slice(alloc, component.as_bytes())?)?;
    }
    Ok(name)
}

/// The client with this suite.
pub(crate) fn client_with(
    alloc: Global,
    client: &Client,
    suite: CipherSuite,
) -> Result<Client, AllocError>
    ensures { IfOk result (λ made. made ≡ record client.now { suite = suite }) }
{
    client.is_well_formed();
    let name = name_of(alloc, client)?;
    Client::named(alloc, client.realm().as_bytes(), &name, suite)
}
