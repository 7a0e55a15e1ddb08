//! Lists of calls of one service. A line `sequence N skew S` begins a fresh service, one of triple DES if `des3` follows, and with
//! `keytab K` one whose keys are those of the keytab K. A line `keytab K | ANSWER` replaces them. A further line is a call: the moment in
//! microseconds after 2000-01-01 | AP-REQ | answer | how many pairs are kept after the call | the greatest moment after it. A moment
//! before 2000-01-01 has a minus sign.

use anyhow::{Context, bail};
use krb_ap_requests::AdmitRefusal;
use krb_crypto::CipherSuite;
use krb_file_formats::Keytab;
use krb_service::{Admission, KeytabService, Service};
use krb_time::Moment;
use std::alloc::Global;
use std::fs;
use std::mem::replace;
use test_support::{Row, Told};

/// The random bytes of each call. The recorded replies have a confounder of zeros.
const WORDS: [u8; 16] = [0; 16];

/// A call, and what was recorded of it.
#[derive(Drop)]
struct Call<'a> {
    moment: Moment,
    request: Vec<u8>,
    answer: &'a str,
    kept: usize,
    greatest: Moment,
}

/// A service of one key, or of a keytab.
#[derive(Drop)]
enum Served {
    OneKey(Service),
    ByKeytab(KeytabService),
}

/// A service that is called, and the greatest moment that it was handed.
#[derive(Drop)]
struct Run {
    service: Served,
    greatest: Moment,
}

/// How many lists and calls there were, and how many calls were answered otherwise than was recorded.
#[derive(Drop)]
struct Counts {
    sequences: u64,
    calls: u64,
    differing: u64,
}

/// Replays the lists of a file, and prints each call that is answered otherwise, and how many there were.
pub(crate) fn replay_sequences(rt: &HostRuntime, name: &str) -> anyhow::Result<()> {
    let text = fs::read_to_string(rt, name)?;
    let mut run = fresh_run(rt.alloc(), "sequence 0 skew 0")?;
    let outcome = replay_lines(rt, &text, &mut run);
    drop(run);
    let Counts {
        sequences,
        calls,
        differing,
    } = outcome?;
    println!(rt; "{name}: {sequences} sequences, {calls} calls, {differing} differ")?;
    Ok(())
}

fn replay_lines(rt: &HostRuntime, text: &str, run: &mut Run) -> anyhow::Result<Counts> {
    let mut counts = Counts {
        sequences: 0,
        calls: 0,
        differing: 0,
    };
    for line in text.lines() {
        if !line.is_empty() && !line.starts_with('#') {
            replay_line(rt, line, run, &mut counts)?;
        }
    }
    Ok(counts)
}

/// Begins a fresh service, replaces its keys, or replays a call.
fn replay_line(
    rt: &HostRuntime,
    line: &str,
    run: &mut Run,
    counts: &mut Counts,
) -> anyhow::Result<()> {
    if line.starts_with("sequence ") {
        counts.sequences = counts.sequences.saturating_add(1);
        let fresh = fresh_run(rt.alloc(), line)?;
        drop(replace(run, fresh));
        return Ok(());
    }
    if let Some(replacement) = line.strip_prefix("keytab ") {
        return replay_replacement(rt, replacement, run, counts);
    }
    counts.calls = counts.calls.saturating_add(1);
    let call = call_of(rt.alloc(), line)?;
    let mut answer = Told::new(rt.alloc());
    tell_answer(rt.alloc(), run, &call, &mut answer);
    let answer = answer.text()?;
    let kept = kept_by(&run.service);
    let greatest = run.greatest;
    if answer != call.answer || kept != call.kept || greatest != call.greatest {
        counts.differing = counts.differing.saturating_add(1);
        let number = counts.calls;
        println!(rt;
            "call {number}: {answer}, {kept} kept, greatest {}",
            greatest.micros()
        )?;
    }
    Ok(())
}

/// Replaces the keys of a service by those of another keytab.
fn replay_replacement(
    rt: &HostRuntime,
    line: &str,
    run: &mut Run,
    counts: &mut Counts,
) -> anyhow::Result<()> {
    let Some((octets, expected)) = line.split_once('|') else {
        bail!("a keytab without an answer");
    };
    let keytab = keytab_of(rt.alloc(), octets)?;
    let answer = replaced(rt.alloc(), run, &keytab);
    drop(keytab);
    let answer = answer?;
    if answer.as_str() != expected.trim() {
        counts.differing = counts.differing.saturating_add(1);
        let number = counts.calls;
        println!(rt; "keytab after call {number}: {}", answer.as_str())?;
    }
    Ok(())
}

/// The answer to a keytab that is to replace the keys of a service.
fn replaced(alloc: Global, run: &mut Run, keytab: &Keytab) -> anyhow::Result<String> {
    let Served::ByKeytab(service) = &mut run.service else {
        bail!("a keytab for a service of one key");
    };
    let text = match service.replace_keys(alloc, keytab) {
        Ok(()) => format!(in alloc; "Ok")?,
        Err(refusal) => format!(in alloc; "{refusal}")?,
    };
    Ok(text)
}

/// The keytab of these octets.
pub(crate) fn keytab_of(alloc: Global, octets: &str) -> anyhow::Result<Keytab> {
    let octets = hex::decode(alloc, octets.trim())?;
    Ok(Keytab::from_bytes(alloc, &octets)?)
}

/// How many pairs a service keeps.
fn kept_by(service: &Served) -> usize {
    match service {
        Served::OneKey(service) => service.kept(),
        Served::ByKeytab(service) => service.kept(),
    }
}

/// The suite of a line `sequence N skew S`, which `des3` may follow, and the skew in seconds.
fn settings_of(line: &str) -> anyhow::Result<(CipherSuite, u64)> {
    let mut words = line.trim().split(' ');
    let (Some("sequence"), Some(_number), Some("skew"), Some(skew)) = (
        words.next(),
        words.next(),
        words.next(),
        words.next(),
    ) else {
        bail!("a line other than `sequence N skew S`");
    };
    let suite = match words.next() {
        None => CipherSuite::Aes256CtsHmacSha196,
        Some("des3") => CipherSuite::Des3CbcSha1Kd,
        Some(_) => bail!("another suite than des3"),
    };
    Ok((suite, skew.parse::<u64>()?))
}

/// The service `h` of realm R that a line begins, which has seen nothing.
fn fresh_run(alloc: Global, line: &str) -> anyhow::Result<Run> {
    let service = match line.split_once(" keytab ") {
        Some((settings, octets)) => Served::ByKeytab(service_of_keytab(alloc, settings, octets)?),
        None => Served::OneKey(service_of_one_key(alloc, line)?),
    };
    let greatest = Moment::new(0).context("no moment")?;
    Ok(Run { service, greatest })
}

/// The service with a key of bytes 01 and number 1.
fn service_of_one_key(alloc: Global, line: &str) -> anyhow::Result<Service> {
    let (suite, skew) = settings_of(line)?;
    let key: &[u8] = match suite {
        CipherSuite::Des3CbcSha1Kd => &[1; 24],
        _ => &[1; 32],
    };
    let name = name_of_service(alloc)?;
    Ok(Service::new(alloc, b"R", &name, suite, key, 1, skew)?)
}

/// The service with the keys of a keytab.
fn service_of_keytab(alloc: Global, line: &str, octets: &str) -> anyhow::Result<KeytabService> {
    let (_suite, skew) = settings_of(line)?;
    let keytab = keytab_of(alloc, octets)?;
    let name = name_of_service(alloc)?;
    Ok(KeytabService::new(alloc, b"R", &name, &keytab, skew)?)
}

fn name_of_service(alloc: Global) -> anyhow::Result<Vec<Vec<u8>>> {
    let component = Vec::from_slice(alloc, b"h")?;
    Ok(vec![in alloc; component]?)
}

/// Reads a call. A label may follow.
fn call_of<'a>(alloc: Global, line: &'a str) -> anyhow::Result<Call<'a>> {
    let mut row = Row::new(line, " | ");
    let (moment, request, answer) = (row.word(), row.octets(alloc), row.word());
    let (kept, greatest) = (row.number::<usize>(), row.word());
    row.pass_rest();
    row.ended()?;
    Ok(Call {
        moment: moment_of(moment)?,
        request,
        answer,
        kept,
        greatest: moment_of(greatest)?,
    })
}

/// The moment that many microseconds after 2000-01-01, or before it where the number has a minus sign.
pub(crate) fn moment_of(text: &str) -> anyhow::Result<Moment> {
    let start = Moment::from_text(b"20000101000000Z")
        .context("no moment")?
        .micros();
    let micros = match text.trim().strip_prefix('-') {
        Some(before) => start.saturating_sub(before.parse::<u64>()?),
        None => start.saturating_add(text.trim().parse::<u64>()?),
    };
    Moment::new(micros).context("past the last moment")
}

/// Writes what the service answers.
fn tell_answer(alloc: Global, run: &mut Run, call: &Call<'_>, text: &mut Told) {
    run.greatest = run.greatest.max(call.moment);
    let answer = match &mut run.service {
        Served::OneKey(service) => service.admit(alloc, &call.request, call.moment, &WORDS),
        Served::ByKeytab(service) => service.admit(alloc, &call.request, call.moment, &WORDS),
    };
    match answer {
        Ok(admission) => {
            put_admission(text, &admission);
            drop(admission);
        }
        Err(refusal) => put_refusal(text, refusal),
    }
}

fn put_refusal(text: &mut Told, refusal: AdmitRefusal) {
    match refusal {
        AdmitRefusal::Krb(code) => {
            text.put("Krb(");
            text.show(&code);
            text.put(")");
        }
        AdmitRefusal::Unreadable => text.put("Unreadable"),
        AdmitRefusal::Memory => text.put("Memory"),
    }
}

/// Writes the client's realm and name, and the reply where there is one.
fn put_admission(text: &mut Told, admission: &Admission) {
    text.put("Ok ");
    text.utf8(admission.realm.as_bytes());
    text.put(" ");
    put_name(text, admission);
    if let Some(reply) = &admission.reply {
        text.put(" reply ");
        text.octets(reply.as_slice());
    }
}

/// Writes the components of the client's name, which slashes divide.
fn put_name(text: &mut Told, admission: &Admission) {
    let mut mark = "";
    for component in admission.client.name_string.0.as_slice() {
        text.put(mark);
        text.utf8(component.as_bytes());
        mark = "/";
    }
}
