//! What is taken of a reply, by the suite of its session key.
ghost use Rattle.std.specs.Prelude.{◌≡◌};
ghost use Rattle.krb_client_exchanges.specs.Grants.{taken_of_suites};

use crate::wanted::is_one_of;
use krb_client::{Credential, TakeRefusal};
use krb_crypto::CipherSuite;

/// What was taken of a reply, if its session key is of one of these suites, and else `NotAsked`. What was refused stays refused.
///
/// Whoever is on the network can change the list of an AS request, so that the KDC itself makes a session key of another suite.
pub fn taken_of_suites(
    suites: &[CipherSuite],
    taken: Result<Credential, TakeRefusal>,
) -> Result<Credential, TakeRefusal>
    ensures { result ≡ taken_of_suites suites.now taken }
{
    let credential = taken?;
    if is_one_of(suites, credential.suite()) {
        Ok(credential)
    } else {
        Err(TakeRefusal::NotAsked)
    }
}
