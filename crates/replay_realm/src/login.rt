//! Whole logins.
ghost use Rattle.std.specs.Prelude.{◌≤◌, length};
ghost use Rattle.krb_logins.specs.Honest.{AreEnough};
ghost use Rattle.krb_logins.specs.Input.{login_of};

use crate::certificates::BothKeys;
use crate::stage::Stage;
use crate::told::{login_text, refused};
use anyhow::Context;
use gss_acceptor::{AcceptorTerms, ContextFlags, InitialChecksum};
use gss_initiator::NO_BINDINGS;
use gss_logins::is_honest;
use krb_realm::{
    Admission, Client, EncryptionKey, GeneralizedTime, LoginInput, LoginMoments, LoginRefusal,
    Moment, Realm, Service, is_honest_by_certificate, is_honest_by_password, login_by_certificate,
    login_by_password,
};
use picky_asn1_der::both;
use std::alloc::{AllocError, Global};
use test_support::{Row, Told};

/// A login by password, or by certificate with these key functions.
pub(crate) fn login(
    stage: &mut Stage,
    alloc: Global,
    words: &mut Row<'_>,
    keys: Option<&BothKeys<'_>>,
    told: &mut Told,
) -> anyhow::Result<()> {
    let name = words.name(alloc);
    let random = stage.conditions.random.bytes();
    let input = input_of(
        stage.conditions.till,
        stage.moments(),
        &name,
        &random,
        &random,
    );
    let client = stage.client.as_ref().context("no client")?;
    let realm = stage.realm.as_ref().context("no realm")?;
    let service = stage.service.as_mut().context("no service")?;
    let login = match keys {
        None => login_by_password(alloc, client, realm, service, &input),
        Some(keys) => {
            let (mine, theirs) = (&keys.client, &keys.realm);
            login_by_certificate(alloc, client, realm, service, &input, mine, theirs)
        }
    };
    tell_login(login, told);
    Ok(())
}

/// Writes whether the login by password, or by certificate with these key functions, would be honest.
pub(crate) fn honest(
    stage: &Stage,
    alloc: Global,
    words: &mut Row<'_>,
    keys: Option<&BothKeys<'_>>,
    told: &mut Told,
) -> anyhow::Result<()> {
    let name = words.name(alloc);
    let random = stage.conditions.random.bytes();
    let input = input_of(
        stage.conditions.till,
        stage.moments(),
        &name,
        &random,
        &random,
    );
    let client = stage.client()?;
    let realm = stage.realm()?;
    let service = stage.service.as_ref().context("no service")?;
    let is_honest = match keys {
        None => is_honest_by_password(alloc, client, realm, service, &input),
        Some(keys) => {
            let (mine, theirs) = (&keys.client, &keys.realm);
            is_honest_by_certificate(alloc, client, realm, service, &input, mine, theirs)
        }
    };
    tell_judged(is_honest, told);
    Ok(())
}

/// Writes whether the login would be honest of a client that asks for a context with these flags and no channel bindings.
pub(crate) fn honest_context(
    stage: &Stage,
    alloc: Global,
    words: &mut Row<'_>,
    told: &mut Told,
) -> anyhow::Result<()> {
    let name = words.name(alloc);
    let initial = InitialChecksum {
        bindings: NO_BINDINGS,
        flags: ContextFlags(words.number::<u32>()),
    };
    let random = stage.conditions.random.bytes();
    let input = input_of(
        stage.conditions.till,
        stage.moments(),
        &name,
        &random,
        &random,
    );
    let (client, realm) = both(stage.client(), stage.realm())?;
    let service = stage.service.as_ref().context("no service")?;
    let is_honest = is_context_honest(alloc, client, realm, service, &input, initial, &random);
    tell_judged(is_honest, told);
    Ok(())
}

// Writes whether it is honest, or that memory ran out.
fn tell_judged(judged: Result<bool, AllocError>, told: &mut Told) {
    match judged {
        Ok(is_honest) => told.show(&is_honest),
        Err(refusal) => refused(told, &refusal),
    }
}

// The context has the random octets of the client's steps.
fn is_context_honest(
    alloc: Global,
    client: &Client,
    realm: &Realm,
    service: &Service,
    input: &LoginInput<'_>,
    initial: InitialChecksum,
    random: &[u8; 128],
) -> Result<bool, AllocError>
    requires login { AreEnough (login_of input.now) }
    requires reply { 64 ≤ length input.now.service_words.now }
{
    let (client, call) = (client.asking(), realm.call(input.moments.realm_as, random));
    let terms = AcceptorTerms::PLAIN;
    is_honest(alloc, client, &call, service, terms, input, initial, random)
}

/// The client's steps have the same random bytes, and so have the others.
pub(crate) fn input_of<'a>(
    till: GeneralizedTime,
    moments: LoginMoments,
    service: &'a [Vec<u8>],
    random: &'a [u8; 128],
    realm_random: &'a [u8; 128],
) -> LoginInput<'a>
    ensures login { AreEnough (login_of result) }
    ensures reply { 64 ≤ length result.service_words.now }
{
    LoginInput {
        service,
        till,
        moments,
        words_as: random,
        words_tgs: random,
        words_ap: random,
        realm_words_as: realm_random,
        realm_words_tgs: realm_random,
        service_words: realm_random,
    }
}

fn tell_login(login: Result<(EncryptionKey, Admission), LoginRefusal>, told: &mut Told) {
    match login {
        Ok(login) => {
            login_text(told, &login.0, &login.1);
            drop(login);
        }
        Err(refusal) => refused(told, &refusal),
    }
}

/// All steps have this moment.
pub(crate) fn moments_of(moment: Moment) -> LoginMoments {
    LoginMoments {
        client_as: moment,
        realm_as: moment,
        client_tgs: moment,
        realm_tgs: moment,
        client_ap: moment,
        service_ap: moment,
    }
}
