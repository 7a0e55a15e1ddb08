//! What no KDC can do, whatever it answers, and that a realm of this stack is read as it writes. The functions do nothing when they run:
//! their contracts are the laws.
ghost use Rattle.krb_realm_accounts.specs.Account.{AccountRecord};
ghost use Rattle.krb_realm_accounts.specs.Passwords.{password_salt};
ghost use Rattle.krb_client.specs.Client.{ClientRecord, CredentialRecord};
ghost use Rattle.krb_client.specs.declared.by_key.ByKey.{ByKey};
ghost use Rattle.krb_client_exchanges.specs.AnswerHints.{hint_in_answer};
ghost use Rattle.krb_client_exchanges.specs.Events.{Event, requests};
ghost use Rattle.krb_client_exchanges.specs.Logins.{login_by_keytab, login_by_means, login_by_password, renewed_ticket, ticket_for};
ghost use Rattle.krb_client_exchanges.specs.SharedKeys.{keyed_by_password};
ghost use Rattle.krb_client_exchanges.specs.declared.answer.AnswerHint.{AnswerHint};
ghost use Rattle.krb_client_exchanges.specs.declared.fault.ExchangeFault.{ExchangeFault};
ghost use Rattle.krb_constants.specs.declared.error_codes.TheConstants.{KDC_ERR_PREAUTH_REQUIRED};
ghost use Rattle.krb_crypto.specs.Sealing.{password_key_of};
ghost use Rattle.krb_crypto.specs.declared.suite.CipherSuite.{CipherSuite};
ghost use Rattle.krb_client_exchanges.specs.Hints.{error_hint};
ghost use Rattle.krb_client_exchanges.specs.Suites.{is_one_of, strength, suites_of, weakest};
ghost use Rattle.krb_client_exchanges.specs.declared.hint.KeyHint.{KeyHint};
ghost use Rattle.krb_client_exchanges.specs.declared.wanted.Wanted.{Wanted};
ghost use Rattle.krb_client_exchanges.specs.declared.wanted.Wanted.TheVariants.{Usual};
ghost use Rattle.krb_file_formats.specs.Entries.{Entry};
ghost use Rattle.krb_messages.specs.Messages.{IsKrbError};
ghost use Rattle.krb_messages.specs.declared.messages.krb_error.KrbErrorInner.{KrbErrorInner};
ghost use Rattle.krb_tickets.specs.MethodData.{method_data_bytes, salt_of};
ghost use Rattle.picky_asn1.specs.Bytes.{Bytes};
ghost use Rattle.std.specs.Option.{option_map};
ghost use Rattle.std.specs.Prelude.{◌≡◌, ◌≤◌, Bool, Contains, List, Ok, Result, Some, length, true};

use krb_client::Means;

/// The hint of an error whose e-data is the METHOD-DATA for an account is the account's suite, where the client takes it, and its salt, where
/// that is a GeneralString. It does nothing when it runs: its contract is the law.
pub fn hint_of_method_data()
    ensures { (suites : List CipherSuite) (by_certificate : Bool) (account : AccountRecord) (bytes : Bytes) (error : KrbErrorInner)
        → Contains suites account.suite → IsKrbError bytes error → error.error_code.0 ≡ KDC_ERR_PREAUTH_REQUIRED
        → option_map (λ tagged. tagged.0) error.e_data.0 ≡ Some (method_data_bytes by_certificate account)
        → (error_hint suites bytes).gives (Ok (record { suite = account.suite; salt = salt_of account.salt })) }
{}

/// No forged error weakens a request. The suite of each hint that an error gives is one of those that the first request listed, so that the
/// request which follows is at least as strong as the first one. After any other error there is no hint, and no request follows. It does
/// nothing when it runs: its contract is the law.
pub fn no_error_weakens()
    ensures listed { (suites : List CipherSuite) (bytes : Bytes) (hint : KeyHint) → (error_hint suites bytes).gives (Ok hint) → Contains suites hint.suite }
    ensures strong { (suites : List CipherSuite) (bytes : Bytes) (hint : KeyHint) → (error_hint suites bytes).gives (Ok hint) → weakest suites ≤ strength hint.suite }
{}

/// No KDC gets more than two requests of a login by password or keytab, and more than one of a login by other means, of a request for a
/// ticket or of a renewal.
pub fn few_requests<M: Means, F>(means: &M)
    ensures password { (client : ClientRecord) (wanted : Wanted) (password : Bytes) (events : List (Event F)) (outcome : Result CredentialRecord (ExchangeFault F))
        → login_by_password client wanted password events outcome → length (requests events) ≤ 2 }
    ensures keytab { (client : ClientRecord) (wanted : Wanted) (keytab : List Entry) (events : List (Event F)) (outcome : Result CredentialRecord (ExchangeFault F))
        → login_by_keytab client wanted keytab events outcome → length (requests events) ≤ 2 }
    ensures means { (client : ClientRecord) (suites : List CipherSuite) (events : List (Event F)) (outcome : Result CredentialRecord (ExchangeFault F))
        → login_by_means client suites (M.means means.now) events outcome → length (requests events) ≤ 1 }
    ensures ticket { (client : ClientRecord) (suites : List CipherSuite) (credential : CredentialRecord) (service : List Bytes) (events : List (Event F)) (outcome : Result CredentialRecord (ExchangeFault F))
        → ticket_for client suites credential service events outcome → length (requests events) ≤ 1 }
    ensures renewal { (client : ClientRecord) (suites : List CipherSuite) (credential : CredentialRecord) (events : List (Event F)) (outcome : Result CredentialRecord (ExchangeFault F))
        → renewed_ticket client suites credential events outcome → length (requests events) ≤ 1 }
{
    let _means = means;
}

/// No credential has a session key of a suite that wasn't wanted.
pub fn wanted_session_keys<M: Means, F>(means: &M)
    ensures password { (client : ClientRecord) (wanted : Wanted) (password : Bytes) (events : List (Event F)) (credential : CredentialRecord)
        → login_by_password client wanted password events (Ok credential) → is_one_of (suites_of wanted) credential.suite ≡ true }
    ensures keytab { (client : ClientRecord) (wanted : Wanted) (keytab : List Entry) (events : List (Event F)) (credential : CredentialRecord)
        → login_by_keytab client wanted keytab events (Ok credential) → is_one_of (suites_of wanted) credential.suite ≡ true }
    ensures means { (client : ClientRecord) (suites : List CipherSuite) (events : List (Event F)) (credential : CredentialRecord)
        → login_by_means client suites (M.means means.now) events (Ok credential) → is_one_of suites credential.suite ≡ true }
    ensures ticket { (client : ClientRecord) (suites : List CipherSuite) (granting : CredentialRecord) (service : List Bytes) (events : List (Event F)) (credential : CredentialRecord)
        → ticket_for client suites granting service events (Ok credential) → is_one_of suites credential.suite ≡ true }
    ensures renewal { (client : ClientRecord) (suites : List CipherSuite) (granting : CredentialRecord) (events : List (Event F)) (credential : CredentialRecord)
        → renewed_ticket client suites granting events (Ok credential) → is_one_of suites credential.suite ≡ true }
{
    let _means = means;
}

/// No answer weakens a login. The suite of its hint, in which the second request is made, is one that the first request listed, so that
/// it isn't weaker than the weakest of these.
pub fn no_answer_weakens()
    ensures listed { (suites : List CipherSuite) (bytes : Bytes) (answer : AnswerHint) → (hint_in_answer suites bytes).gives (Ok answer) → Contains suites answer.hint.suite }
    ensures strong { (suites : List CipherSuite) (bytes : Bytes) (answer : AnswerHint) → (hint_in_answer suites bytes).gives (Ok answer) → weakest suites ≤ strength answer.hint.suite }
{}

/// Where the user named no suites, no hint brings another salt: the key is that of the password and the default salt.
pub fn default_salt_alone()
    ensures { (client : ClientRecord) (password : Bytes) (hint : KeyHint) (own : ClientRecord) (means : ByKey) → keyed_by_password client Usual password hint ≡ Ok (own, means)
        → means.key.bytes ≡ password_key_of hint.suite password (password_salt client.realm client.components) }
{}
