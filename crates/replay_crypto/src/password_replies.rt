//! Replies to requests to change a password. `data/password_replies.py` says what the rows are.

use crate::password_changes::{ACCOUNTS, rules_of, service_of};
use crate::sequences::moment_of;
use anyhow::bail;
use krb_account_texts::{principal_name, read_lines};
use krb_messages::data_types::{HostAddress, PrincipalName, Realm};
use krb_password_changes::{
    ChangeRefusal, Rules, Target, answer_request, code_of, reply_to_admitted, reply_to_refused,
};
use krb_realm_accounts::{components_of, realm_name_of};
use krb_service::KeytabService;
use picky_asn1::wrapper::{IntegerAsn1, OctetStringAsn1};
use picky_asn1_der::ExplicitContextTag;
use std::alloc::Global;
use test_support::rows::replay;
use test_support::{Row, Rows, Told, rows};

/// The random octets of each call.
const RANDOM: [u8; 32] = [
    0, 1, 2, 3, 4, 5, 6, 7, 8, 9, 10, 11, 12, 13, 14, 15, 16, 17, 18, 19, 20, 21, 22, 23, 24, 25,
    26, 27, 28, 29, 30, 31,
];

/// The service of the rows, the rules of its realm, and what its replies say of it.
#[derive(Drop)]
struct Replies {
    service: Option<KeytabService>,
    rules: Rules,
    own: Own,
}

/// What replies say of the service.
#[derive(Drop)]
struct Own {
    realm: Realm,
    name: PrincipalName,
    address: HostAddress,
}

impl Rows for Replies {
    const COLUMNS: &'static str = " | ";

    fn agrees(&mut self, rt: &HostRuntime, row: &mut Row<'_>) -> anyhow::Result<bool> {
        let alloc = rt.alloc();
        let label = row.word();
        if label == "keytab" {
            let service = service_of(alloc, row.word())?;
            self.service = Some(service);
            return Ok(true);
        }
        let Some(service) = &mut self.service else {
            bail!("no keytab before the first request");
        };
        let mut told = Told::new(alloc);
        tell_reply(alloc, service, &self.rules, &self.own, row, &mut told)?;
        row.want();
        let text = told.text()?;
        Ok(text == row.wanted())
    }
}

/// Puts the reply to a request into the row.
fn tell_reply(
    alloc: Global,
    service: &mut KeytabService,
    rules: &Rules,
    own: &Own,
    row: &mut Row<'_>,
    told: &mut Told,
) -> anyhow::Result<()> {
    let moment = moment_of(row.word())?;
    let message = row.octets(alloc);
    let text = row.text();
    let target = Target {
        realm: &own.realm,
        name: &own.name,
    };
    let mut lines = read_lines(alloc, ACCOUNTS)?;
    let answer = answer_request(alloc, service, &mut lines, rules, moment, &message, &RANDOM);
    let reply = match &answer {
        Ok(answer) => {
            let code = code_of(&answer.outcome);
            reply_to_admitted(
                alloc,
                &target,
                moment,
                &answer.admission,
                code,
                text,
                &own.address,
                &RANDOM,
            )?
        }
        Err(ChangeRefusal::Refused(code)) => {
            reply_to_refused(alloc, &target, moment, *code, text)?
        }
        Err(ChangeRefusal::Memory) => bail!("out of memory"),
    };
    told.octets(&reply);
    Ok(())
}

/// What the replies of the rows say of the service.
fn own_of(alloc: Global) -> anyhow::Result<Own> {
    let components = rows::components_of(alloc, "kadmin/changepw")?;
    let name = principal_name(alloc, components_of(alloc, &components)?)?;
    let addr_type = IntegerAsn1::from_u64(alloc, 2)?;
    let octets = OctetStringAsn1::new(alloc, &[127, 0, 0, 1])?;
    Ok(Own {
        realm: realm_name_of(alloc, b"R")?,
        name,
        address: HostAddress {
            addr_type: ExplicitContextTag(addr_type),
            address: ExplicitContextTag(octets),
        },
    })
}

/// Replays the file of replies.
pub(crate) fn replay_password_replies(rt: &HostRuntime) -> anyhow::Result<()> {
    let mut replies = Replies {
        service: None,
        rules: rules_of(rt.alloc())?,
        own: own_of(rt.alloc())?,
    };
    let replayed = replay(rt, &mut replies, "password_replies.txt");
    drop(replies);
    replayed
}
