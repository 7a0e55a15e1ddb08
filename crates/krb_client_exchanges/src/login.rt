//! Logins by a key that client and KDC share.
ghost use Rattle.std.specs.Prelude.{◌∷◌, []};
ghost use Rattle.decision_tables.specs.Tables.{done};
ghost use Rattle.krb_client_exchanges.specs.Courses.{Judges, Runs};
ghost use Rattle.krb_client_exchanges.specs.Logins.{after_error, after_first, after_hint, login_by_keytab, login_by_password, login_by_shared_key, means_of};
ghost use Rattle.krb_client_exchanges.specs.RequestKinds.{as_request_by, exchange};
ghost use Rattle.krb_client_exchanges.specs.SharedKeys.{keyed_by, keytab_suites, listed, some_suites};
ghost use Rattle.krb_client_exchanges.specs.Taking.{octets_last};

use crate::Wanted;
use crate::answer::answer_of;
use crate::fault::{ExchangeFault, LoginRefusal};
use crate::kdc::Kdc;
use crate::secret::{Secret, keyed_by, keytab_suites};
use crate::sending::{ask_by_means, ask_first};
use crate::taking::take_first;
use krb_client::{AsAsked, ByKey, Client, Credential};
use krb_crypto::CipherSuite;
use krb_file_formats::KeytabRecord;
use std::alloc::Global;

/// Gets a ticket-granting ticket of the client's realm by password (RFC 4120, section 3.1). The client's own suite doesn't count.
///
/// The first request lists the wanted suites, and has no padata. Its answer names suite and salt: an error 25 by METHOD-DATA, a reply by
/// its padata and enc-part. After the error there is a second request, with an encrypted timestamp, which lists this suite alone. Any other
/// error ends the login, since no error is authenticated. A salt that isn't the default one is refused if the user named no suites.
pub fn log_in_by_password<K: Kdc>(
    alloc: Global,
    kdc: &mut K,
    client: &Client,
    wanted: Wanted<'_>,
    password: &[u8],
) -> Result<Credential, ExchangeFault<K::Fault>>
    ensures { Runs (K.events kdc.old) (K.events kdc.new) (login_by_password client.now wanted.entry password.now) result }
{
    log_in(
        alloc,
        kdc,
        client,
        wanted.suites(),
        Secret::Password(wanted, password),
    )
}

/// The same by the client's keys in a keytab. The requests list the wanted suites of which there is a key of the client: where there is none,
/// nothing is asked (`NoKey`). Of each suite the key of the greatest kvno counts. Records of others are passed over.
pub fn log_in_by_keytab<K: Kdc>(
    alloc: Global,
    kdc: &mut K,
    client: &Client,
    wanted: Wanted<'_>,
    keytab: &[KeytabRecord],
) -> Result<Credential, ExchangeFault<K::Fault>>
    ensures { Runs (K.events kdc.old) (K.events kdc.new) (login_by_keytab client.now wanted.entry keytab.now) result }
{
    let suites = some_suites(alloc, client, wanted, keytab)?;
    log_in(alloc, kdc, client, &suites, Secret::Keytab(keytab))
}

// The suites that the requests list, of which there is one at least.
fn some_suites<F>(
    alloc: Global,
    client: &Client,
    wanted: Wanted<'_>,
    keytab: &[KeytabRecord],
) -> Result<Vec<CipherSuite>, ExchangeFault<F>>
    ensures { Judges (λ refusal. refusal) (done (some_suites (keytab_suites client.now wanted.entry keytab.now))) (listed result) }
{
    let suites = keytab_suites(alloc, client, wanted, keytab)?;
    if suites.is_empty() {
        return Err(ExchangeFault::Refused(LoginRefusal::NoKey));
    }
    Ok(suites)
}

// Gets a ticket-granting ticket by what client and KDC share.
fn log_in<K: Kdc>(
    alloc: Global,
    kdc: &mut K,
    client: &Client,
    suites: &[CipherSuite],
    secret: Secret<'_>,
) -> Result<Credential, ExchangeFault<K::Fault>>
    ensures { Runs (K.events kdc.old) (K.events kdc.new) (login_by_shared_key client.now suites.now (keyed_by client.now secret.entry)) result }
{
    let (asked, reply) = ask_first(alloc, kdc, client, suites)?;
    after_first(alloc, kdc, client, suites, secret, &asked, &reply)
}

// What the first answer leads to.
fn after_first<K: Kdc>(
    alloc: Global,
    kdc: &mut K,
    client: &Client,
    suites: &[CipherSuite],
    secret: Secret<'_>,
    asked: &AsAsked,
    reply: &[u8],
) -> Result<Credential, ExchangeFault<K::Fault>>
    ensures { Runs (K.events kdc.old) (K.events kdc.new) (after_first suites.now (keyed_by client.now secret.entry) (asked.now, reply.now)) result }
{
    let answer = answer_of(alloc, suites, reply)?;
    let (own, means) = keyed_by(alloc, client, secret, &answer.hint)?;
    after_hint(
        alloc,
        kdc,
        &own,
        &means,
        suites,
        answer.is_reply,
        asked,
        reply,
    )
}

// Takes the first answer if it is a reply.
fn after_hint<K: Kdc>(
    alloc: Global,
    kdc: &mut K,
    own: &Client,
    means: &ByKey,
    suites: &[CipherSuite],
    is_reply: bool,
    asked: &AsAsked,
    reply: &[u8],
) -> Result<Credential, ExchangeFault<K::Fault>>
    ensures { Runs (K.events kdc.old) (K.events kdc.new) (after_hint suites.now (asked.now, reply.now) (own.now, means.now) is_reply) result }
{
    if is_reply {
        return take_first(alloc, own, suites, means, asked, reply);
    }
    after_error(alloc, kdc, own, means, suites)
}

// Sends the request with an encrypted timestamp, and takes the reply to that.
fn after_error<K: Kdc>(
    alloc: Global,
    kdc: &mut K,
    own: &Client,
    means: &ByKey,
    suites: &[CipherSuite],
) -> Result<Credential, ExchangeFault<K::Fault>>
    ensures { Runs (K.events kdc.old) (K.events kdc.new) (after_error suites.now (own.now, means.now)) result }
{
    let (asked, reply) = ask_again(alloc, kdc, own, means)?;
    take_first(alloc, own, suites, means, &asked, &reply)
}

// Sends the request with an encrypted timestamp, which lists the suite of the key alone.
fn ask_again<K: Kdc>(
    alloc: Global,
    kdc: &mut K,
    own: &Client,
    means: &ByKey,
) -> Result<(AsAsked, Vec<u8>), ExchangeFault<K::Fault>>
    ensures { Runs (K.events kdc.old) (K.events kdc.new) (exchange (as_request_by own.now (own.now.suite ∷ []) (means_of means.now))) (octets_last result) }
{
    ask_by_means(alloc, kdc, own, &[own.suite()], means)
}
