//! The cache of a login.
ghost use Rattle.std.specs.Prelude.{◌≡◌, ◌∷◌, IfOk, map};
ghost use Rattle.krb_client_exchanges.specs.LoginCaches.{cached_credential, login_cache};

use crate::credentials::{cached_of, client_principal};
use krb_client::{Client, Credential};
use krb_file_formats::{CachedCredential, CredentialCache};
use picky_asn1_der::both;
use std::alloc::{AllocError, Global};

/// The cache of a client, with its ticket-granting ticket and its service tickets. Fails only if memory runs out.
pub fn cache_of(
    alloc: Global,
    client: &Client,
    granting: &Credential,
    further: &[Credential],
) -> Result<CredentialCache, AllocError>
    ensures { IfOk result (λ cache. cache ≡ login_cache client.now (granting.now ∷ further.now)) }
{
    let credentials = all_cached(alloc, client, granting, further);
    let (default_principal, credentials) = both(client_principal(alloc, client), credentials)?;
    Ok(CredentialCache {
        tags: Vec::new(alloc),
        default_principal,
        credentials,
    })
}

fn all_cached(
    alloc: Global,
    client: &Client,
    granting: &Credential,
    further: &[Credential],
) -> Result<Vec<CachedCredential>, AllocError>
    ensures { IfOk result (λ all. all.items ≡ map (cached_credential client.now) (granting.now ∷ further.now)) }
{
    let first = cached_of(alloc, client, granting)?;
    let mut all = vec![in alloc; first]?;
    for credential in further {
        all.push(cached_of(alloc, client, credential)?)?;
    }
    Ok(all)
}
