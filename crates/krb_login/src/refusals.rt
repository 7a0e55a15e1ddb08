//! The lines for what the KDC refuses, and for what the client refuses of its answers.

use crate::arguments::Login;
use krb_client::TakeRefusal;
use krb_client_exchanges::{ExchangeFault, HintRefusal, HintedClientRefusal, LoginRefusal};
use krb_commands::{Stop, refused};
use krb_constants::error_codes::{
    KDC_ERR_BADOPTION, KDC_ERR_C_PRINCIPAL_UNKNOWN, KDC_ERR_ETYPE_NOSUPP, KDC_ERR_WRONG_REALM,
    KRB_AP_ERR_TKT_EXPIRED,
};
use krb_crypto::CipherSuite;
use krb_settings::suite_name;
use std::alloc::Global;

/// What to do where the suites don't fit.
const OTHER_SUITES: &str =
    "; -e SUITE asks for others, as -e des3-cbc-sha1-kd; RC4 is never asked for: an account with RC4 keys alone needs a new password";

/// What to look at where the realm is unknown.
const UPPER_CASE: &str = "; hint: realms are mostly written in upper case";

/// What to do where a ticket isn't renewable.
const RENEWABLE: &str = "; -L SECONDS asks for a ticket that is renewable";

/// What to do where a ticket or its renew-till is past.
const ANEW: &str = "; log in anew";

/// The stop of a login, or of a request for a ticket, that ended without one. `name`: the argument that names the user or the service.
pub(crate) fn stop_of(
    alloc: Global,
    login: &Login<'_>,
    name: &str,
    fault: ExchangeFault<Stop>,
) -> Stop {
    match fault {
        ExchangeFault::Memory => Stop::Memory,
        ExchangeFault::Kdc(stop) => stop,
        ExchangeFault::Refused(LoginRefusal::NotMade(suite, HintedClientRefusal::OtherSalt)) => {
            other_salt(alloc, login, name, suite)
        }
        ExchangeFault::Refused(refusal) => {
            let advice = advice_for(login, refusal);
            refused(alloc, format_args!("{name}: {refusal}{advice}"))
        }
    }
}

fn other_salt(alloc: Global, login: &Login<'_>, name: &str, suite: CipherSuite) -> Stop {
    let refusal = HintedClientRefusal::OtherSalt;
    let suite = suite_name(suite);
    if is_lower_case(login) {
        return refused(alloc, format_args!("{name}: {refusal}{UPPER_CASE}"));
    }
    refused(
        alloc,
        format_args!(
            "{name}: {refusal}; -e {suite} takes it, if the account was renamed or the KDC salts in its own way"
        ),
    )
}

// What to do after a refusal.
fn advice_for(login: &Login<'_>, refusal: LoginRefusal) -> &'static str {
    match refusal {
        // MIT's krb5kdc has no hint where the account has no key of a listed suite.
        LoginRefusal::NotHinted(HintRefusal::NoSuite | HintRefusal::NoHint) => OTHER_SUITES,
        LoginRefusal::NotHinted(HintRefusal::Refused(code))
        | LoginRefusal::NotTaken(TakeRefusal::Refused(code)) => advice_for_code(login, code),
        // A domain controller names its realm in upper case, whatever it was asked for.
        LoginRefusal::NotTaken(TakeRefusal::NotAsked | TakeRefusal::NotTrusted)
            if is_lower_case(login) => { UPPER_CASE }
        _ => "",
    }
}

// What to do after an error of this code.
fn advice_for_code(login: &Login<'_>, code: u32) -> &'static str {
    match code {
        KDC_ERR_ETYPE_NOSUPP => OTHER_SUITES,
        KDC_ERR_C_PRINCIPAL_UNKNOWN | KDC_ERR_WRONG_REALM if is_lower_case(login) => UPPER_CASE,
        KDC_ERR_BADOPTION if login.settings.flags.is_renewal => RENEWABLE,
        KRB_AP_ERR_TKT_EXPIRED if login.settings.flags.is_renewal => ANEW,
        _ => "",
    }
}

// Whether the user's realm has a letter in lower case.
fn is_lower_case(login: &Login<'_>) -> bool {
    let realm = login.user.client.realm().as_bytes();
    realm.iter().any(|octet| octet.is_ascii_lowercase())
}
