//! Laws of every realm's replies.
ghost use Rattle.std.specs.Prelude.{◌≡◌, ◌↔◌, ◌<◌, ◌^◌, ℕ, List, [], Ok, Option, Result, length};
ghost use Rattle.block_ciphers.specs.Bytes.{IsBytes};
ghost use Rattle.krb_messages.specs.declared.messages.kdc_req.KdcReq.{KdcReq};
ghost use Rattle.krb_realm_accounts.specs.Account.{AccountRecord};
ghost use Rattle.krb_kdc_exchanges.specs.AsTable.{as_table};
ghost use Rattle.krb_kdc_exchanges.specs.Allowed.{first_allowed, further_allowed, lifetime_of};
ghost use Rattle.krb_kdc_exchanges.specs.Before.{IsFree, plain_as_table, plain_tgs_table, without_policy};
ghost use Rattle.krb_kdc_exchanges.specs.ChosenKeys.{chosen};
ghost use Rattle.krb_kdc_exchanges.specs.Grants.{Principals};
ghost use Rattle.krb_messages.specs.declared.data_types.encrypted_data.EncryptedData.{EncryptedData};
ghost use Rattle.krb_realm_accounts.specs.Account.{newest};
ghost use Rattle.krb_kdc_exchanges.specs.Call.{CallRecord};
ghost use Rattle.krb_kdc_exchanges.specs.Calls.{IsCall};
ghost use Rattle.krb_kdc_exchanges.specs.Involved.{IsOfInvolvedAlone};
ghost use Rattle.krb_kdc_exchanges.specs.Replies.{Replies};
ghost use Rattle.krb_kdc_exchanges.specs.TgsTable.{tgs_table};
ghost use Rattle.decision_tables.specs.Some.{HasSome};

use crate::Pkinit;

/// Realms of one name, of the same settings and of one way to judge requests by certificate, which agree on the accounts
/// involved in a request, reply to it equally, whatever other accounts they have: to an AS request the accounts of the client
/// and of the service that it names, to a TGS request those of the ticket-granting service, of the service and of the
/// ticket's client. It does nothing when it runs: its contract is the law.
pub fn of_involved_alone<P: Pkinit>(pkinit: &P)
    ensures { IsOfInvolvedAlone (P.rows pkinit.now) }
{}

/// A realm has one reply at most to a message at a moment. It does nothing when it runs: its contract is the law.
pub fn one_reply<P: Pkinit>(pkinit: &P)
    ensures { (call : CallRecord) (request : List ℕ) (a b : Option (List ℕ)) → Replies call (P.rows pkinit.now) request a → Replies call (P.rows pkinit.now) request b → a ≡ b }
{}

/// A realm has a reply to each request of fewer than 2^64 bytes, and every slice is shorter: it can't be that the realm's
/// table gives nothing. It does nothing when it runs: its contract is the law.
pub fn has_reply<P: Pkinit>(pkinit: &P)
    ensures { (call : CallRecord) (request : List ℕ) → IsCall call → IsBytes request → length request < 2 ^ 64 → HasSome (Replies call (P.rows pkinit.now) request) }
{}

/// Where a realm sets no policy, its tables are those without one: renew, forwarded and proxy are refused, and what is granted has no flag
/// but initial and pre-authent and no renew-till, whatever the request asks for. It does nothing when it runs: its contract is the law.
pub fn as_before<P: Pkinit>(pkinit: &P)
    ensures first { (call : CallRecord) (of_client of_service : Option AccountRecord) (request : KdcReq) (r : Result (List ℕ) ℕ)
        → ((as_table (without_policy call) (P.rows pkinit.now) of_client of_service request).gives r
        ↔ (plain_as_table (without_policy call) (P.rows pkinit.now) of_client of_service request).gives r) }
    ensures further { (call : CallRecord) (request : KdcReq) (r : Result (List ℕ) ℕ)
        → ((tgs_table (without_policy call) request).gives r ↔ (plain_tgs_table (without_policy call) request).gives r) }
{}

/// Accounts without attributes are judged as if there were none: no row of these refuses, and the lifetime is that of the settings. A
/// ticket for an account with one key opens under that key. It does nothing when it runs: its contract is the law.
pub fn plain_accounts_as_before()
    ensures first { (moment : ℕ) (these : Principals) → IsFree these.client → IsFree these.service → (first_allowed moment these).gives (Ok tt) }
    ensures further { (moment : ℕ) (client service : AccountRecord) → IsFree client → IsFree service → (further_allowed moment client service).gives (Ok tt) }
    ensures lifetime { (lifetime : ℕ) (client service : AccountRecord) → IsFree client → IsFree service → lifetime_of lifetime client service ≡ lifetime }
    ensures key { (encrypted : EncryptedData) (account : AccountRecord) → account.former ≡ [] → chosen encrypted account ≡ newest account }
{}
