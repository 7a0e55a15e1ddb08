//! A client's requests.

use crate::stage::Stage;
use crate::told::{refused, suite_key_text};
use krb_realm::KeyFunctions;
use std::alloc::Global;
use test_support::{Row, Told};

/// Asks for a service.
pub(crate) fn as_request<K: KeyFunctions>(
    stage: &mut Stage,
    alloc: Global,
    words: &mut Row<'_>,
    keys: &K,
    told: &mut Told,
) -> anyhow::Result<()> {
    let at = stage.conditions;
    let client = stage.client()?;
    let service = words.name(alloc);
    let random = at.random.bytes();
    match client.as_request(alloc, &service, at.till, at.moment, &random, keys) {
        Ok((request, asked)) => {
            drop(stage.asked.as_asked.replace(asked));
            sent(stage, request, told);
        }
        Err(refusal) => refused(told, &refusal),
    }
    Ok(())
}

/// Asks for a service by the credential.
pub(crate) fn tgs_request(
    stage: &mut Stage,
    alloc: Global,
    words: &mut Row<'_>,
    told: &mut Told,
) -> anyhow::Result<()> {
    let at = stage.conditions;
    let (client, by) = (stage.client()?, stage.credential()?);
    let service = words.name(alloc);
    match client.tgs_request(alloc, by, &service, at.till, at.moment, &at.random.bytes()) {
        Ok((request, asked)) => {
            drop(stage.asked.tgs_asked.replace(asked));
            sent(stage, request, told);
        }
        Err(refusal) => refused(told, &refusal),
    }
    Ok(())
}

/// Makes an AP request. A word 1 or 0 says whether a reply is requested, and another whether there is a subkey.
pub(crate) fn ap_request(
    stage: &mut Stage,
    alloc: Global,
    words: &mut Row<'_>,
    told: &mut Told,
) -> anyhow::Result<()> {
    let at = stage.conditions;
    let (client, by) = (stage.client()?, stage.credential()?);
    let mutual = words.word() == "1";
    let subkey = words.word() == "1";
    match client.ap_request(alloc, by, mutual, subkey, at.moment, &at.random.bytes()) {
        Ok((request, asked)) => {
            drop(stage.asked.ap_asked.replace(asked));
            sent(stage, request, told);
        }
        Err(refusal) => refused(told, &refusal),
    }
    Ok(())
}

/// Keeps a request as the message that was sent last.
fn sent(stage: &mut Stage, request: Vec<u8>, told: &mut Told) {
    told.octets(&request);
    stage.request = request;
}

/// What the client remembers of its last AP request: the key, the time, and the subkey.
pub(crate) fn asked(stage: &Stage, told: &mut Told) -> anyhow::Result<()> {
    let asked = stage.ap_asked()?;
    told.put("key ");
    suite_key_text(told, asked.suite(), asked.key().as_bytes());
    told.put(" time ");
    told.show(&asked.time().micros());
    told.put(" subkey ");
    match asked.subkey() {
        Some(subkey) => told.octets(subkey.as_bytes()),
        None => told.put("none"),
    }
    Ok(())
}
