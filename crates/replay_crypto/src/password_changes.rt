//! Requests to change a password. `data/password_changes.py` says what the rows are.

use crate::sequences::{keytab_of, moment_of};
use anyhow::bail;
use krb_account_texts::{AccountLine, Line, principal_name, read_lines};
use krb_crypto::CipherSuite;
use krb_messages::is_same_name;
use krb_password_changes::{ChangeRefusal, Granted, Rules, answer_request};
use krb_realm_accounts::{components_of, realm_name_of};
use krb_service::KeytabService;
use picky_asn1::wrapper::OctetStringAsn1;
use std::alloc::Global;
use test_support::rows::replay;
use test_support::{Row, Rows, Told, rows};

/// The accounts that each request meets.
pub(crate) const ACCOUNTS: &str = "realm\tR\t300\t36000\n\
    other\taes128-cts-hmac-sha1-96\t1\t-\t01010101010101010101010101010101\n\
    root/admin\taes128-cts-hmac-sha1-96\t1\t-\t02020202020202020202020202020202\n\
    spent\taes128-cts-hmac-sha1-96\t4294967295\t-\t03030303030303030303030303030303\n\
    user\taes128-cts-hmac-sha1-96\t1\t-\t04040404040404040404040404040404\n";

/// The random octets of each call.
const RANDOM: [u8; 16] = [0; 16];

/// The service of the rows, and the rules of its realm.
#[derive(Drop)]
struct Changes {
    service: Option<KeytabService>,
    rules: Rules,
}

impl Rows for Changes {
    const COLUMNS: &'static str = " | ";

    fn agrees(&mut self, rt: &HostRuntime, row: &mut Row<'_>) -> anyhow::Result<bool> {
        let alloc = rt.alloc();
        let label = row.word();
        if label == "keytab" {
            let service = service_of(alloc, row.word())?;
            self.service = Some(service);
            return Ok(true);
        }
        let Some(service) = &mut self.service else {
            bail!("no keytab before the first request");
        };
        let mut told = Told::new(alloc);
        tell_answer(alloc, service, &self.rules, row, &mut told)?;
        row.want();
        let text = told.text()?;
        Ok(text == row.wanted())
    }
}

/// The service of a keytab in hexadecimal.
pub(crate) fn service_of(alloc: Global, octets: &str) -> anyhow::Result<KeytabService> {
    let keytab = keytab_of(alloc, octets)?;
    let name = rows::components_of(alloc, "kadmin/changepw")?;
    Ok(KeytabService::new(alloc, b"R", &name, &keytab, 300)?)
}

/// Tells what comes of a request, and of the account that it changes.
fn tell_answer(
    alloc: Global,
    service: &mut KeytabService,
    rules: &Rules,
    row: &mut Row<'_>,
    told: &mut Told,
) -> anyhow::Result<()> {
    let moment = moment_of(row.word())?;
    let message = row.octets(alloc);
    let mut lines = read_lines(alloc, ACCOUNTS)?;
    let answer = answer_request(alloc, service, &mut lines, rules, moment, &message, &RANDOM);
    match &answer {
        Ok(answer) => match &answer.outcome {
            Ok(granted) => tell_granted(granted, &lines, told),
            Err(refusal) => tell_refusal(refusal, told),
        },
        Err(refusal) => tell_refusal(refusal, told),
    }
    Ok(())
}

/// Puts the result code into the row.
fn tell_refusal(refusal: &ChangeRefusal, told: &mut Told) {
    match refusal {
        ChangeRefusal::Refused(code) => told.show(code),
        ChangeRefusal::Memory => told.put("out of memory"),
    }
}

/// Tells a granted change, and the kvno and the key of the target's account.
fn tell_granted(granted: &Granted, lines: &[Line], told: &mut Told) {
    told.utf8(granted.realm.as_bytes());
    told.put(" ");
    told.show(&granted.name);
    told.put(" ");
    told.octets(granted.password.as_bytes());
    for line in lines {
        if let Line::Account(own) = line
            && is_of(own, granted)
        {
            told.put(" ");
            told.show(&own.account.kvno());
            told.put(" ");
            told.octets(own.account.key().as_bytes());
        }
    }
}

/// Whether the account is that of the granted target.
fn is_of(own: &AccountLine, granted: &Granted) -> bool {
    is_same_name(
        own.name.name_string.0.as_slice(),
        granted.name.name_string.0.as_slice(),
    )
}

/// The rules of the realm of the rows.
pub(crate) fn rules_of(alloc: Global) -> anyhow::Result<Rules> {
    let name = rows::components_of(alloc, "root/admin")?;
    let admin = principal_name(alloc, components_of(alloc, &name)?)?;
    let weak = OctetStringAsn1::new(alloc, b"password")?;
    let longer = OctetStringAsn1::new(alloc, b"letmein!!")?;
    Ok(Rules {
        realm: realm_name_of(alloc, b"R")?,
        suite: CipherSuite::Aes128CtsHmacSha196,
        least: 8,
        words: vec![in alloc; weak, longer]?,
        admins: vec![in alloc; admin]?,
    })
}

/// Replays the file of requests.
pub(crate) fn replay_password_changes(rt: &HostRuntime) -> anyhow::Result<()> {
    let mut changes = Changes {
        service: None,
        rules: rules_of(rt.alloc())?,
    };
    let replayed = replay(rt, &mut changes, "password_changes.txt");
    drop(changes);
    replayed
}
