//! What holds of every realm, of every service and of every login. Each is a function that does nothing when it runs: its contract is
//! the law.
ghost use Rattle.std.specs.Prelude.{◌≡◌, ◌⊎◌, Result};
ghost use Rattle.krb_logins.specs.Honest.{WantsMemory};
ghost use Rattle.krb_logins.specs.LoginRun.{Login, LoginRun};
ghost use Rattle.krb_logins.specs.Parties.{LoginRecord, RealmRecord, RememberedRecord};
ghost use Rattle.krb_logins.specs.declared.refusal.LoginRefusal.{LoginRefusal};
ghost use Rattle.krb_realm.specs.Clients.{means_of};
ghost use Rattle.krb_service.specs.Service.{ServiceRecord};
ghost use Rattle.pkinit_validation.specs.PkinitRows.{pkinit_rows};

pub use crate::certified_laws::{agreement_granted, agreement_taken, one_key_by_certificate};
use crate::client::Client;
pub use crate::signature_laws::{certified_client_asked, certified_is_signed, first_client_asked};
pub use krb_crypto::laws::has_sealed;
pub use krb_logins::laws::ap_request_presents_choice;
use krb_memory_realms::Settings;
pub use krb_memory_realms::laws::{
    as_body_is_part, body_is_part, has_reply, judged_is_part, of_involved_alone, one_reply,
    padata_is_part, verified_is_part,
};
pub use krb_service::ap_laws::{
    has_judgement, has_presentation, has_reply_to, one_presentation, received_as_chosen,
};
pub use krb_service::laws::{
    admissible_if_admitted, admitted_as_presented, admitted_if_presented, has_outcome,
    once_for_ever, one_outcome, refused_by_moment_alone,
};
pub use pkinit_clients::laws::reply_verified_is_part;
use x509_keys::KeyFunctions;

/// A login of this client at a realm with these settings, with their key functions, has one outcome: what it answers, and what the
/// service remembers after it. The only exception is running out of memory. It does nothing when it runs: its contract is the law.
pub fn one_login<C: KeyFunctions, R: KeyFunctions>(
    client: &Client,
    client_keys: &C,
    settings: &Settings,
    realm_keys: &R,
)
    ensures { (realm : RealmRecord) (service : ServiceRecord) (before : RememberedRecord) (login : LoginRecord)
        (result other : Result Login LoginRefusal) (after other_after : RememberedRecord)
        → LoginRun client.now.client (means_of client.now (C.functions client_keys.now)) realm (pkinit_rows settings.now.trust (R.functions realm_keys.now)) service login before result after
        → LoginRun client.now.client (means_of client.now (C.functions client_keys.now)) realm (pkinit_rows settings.now.trust (R.functions realm_keys.now)) service login before other other_after
        → WantsMemory result ⊎ WantsMemory other ⊎ ((result ≡ other) × (after ≡ other_after)) }
{
    let means = client.means(client_keys);
    krb_logins::laws::one_login(&means, &settings.pkinit(realm_keys));
}
