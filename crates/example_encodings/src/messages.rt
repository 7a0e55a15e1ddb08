//! Messages of Kerberos (RFC 4120) read, changed and written through `picky_krb`.
//!
//! `picky_krb::from_bytes` reads a message that is the whole input; `picky_asn1_der::to_vec` writes one.

use crate::error::unknown_client;
use crate::printing::print_bytes;
use anyhow::Context;
use picky_asn1::date::GeneralizedTime;
use picky_asn1::wrapper::GeneralizedTimeAsn1;
use picky_asn1_der::to_vec;
use picky_krb::data_types::{Ticket, TicketInner};
use picky_krb::from_bytes;
use picky_krb::messages::{AsReq, KdcReqBody};

/// An AS-REQ that MIT's kinit 1.20 sent, in hexadecimal.
const REQUEST: &str = concat!(
    "6a8185308182a103020105a20302010aa31a3018300aa10402020096a2020400300aa10402020095a2020400a45a3058",
    "a00703050000000010a10e300ca003020101a10530031b0161a2031b0152a3163014a003020102a10d300b1b066b7262",
    "7467741b0152a511180f32303236313132323134353833305aa706020434ae8c70a8053003020112",
);

/// A ticket that OpenSSL wrote.
const TICKET: &str = concat!(
    "6160305ea003020105a10d1b0b4558414d504c452e434f4da2253023a003020101a11c301a1b04686f73741b12736572",
    "7665722e6578616d706c652e636f6da321301fa003020112a1040202012ca212041000112233445566778899aabbccdd",
    "eeff",
);

/// Reads and changes a request, reads a ticket, makes a KRB-ERROR, and prints what each has.
pub fn show_messages(rt: &HostRuntime) -> anyhow::Result<()> {
    let request = hex::decode(rt.alloc(), REQUEST)?;
    read_request(rt, &request)?;
    let ticket = hex::decode(rt.alloc(), TICKET)?;
    read_ticket(rt, &ticket)?;
    let stime = time_of(b"20000101000000Z")?;
    let error = unknown_client(rt.alloc(), b"R", stime)?;
    print_bytes(rt, &error)
}

/// Reads an AS-REQ, and changes it.
fn read_request(rt: &HostRuntime, bytes: &[u8]) -> anyhow::Result<()> {
    let mut request: AsReq = from_bytes(rt.alloc(), bytes)?;
    let changed = ask_for_longer(rt, &mut request);
    drop(request);
    changed
}

/// Asks for a ticket that lasts longer, and prints the request as it is then written.
fn ask_for_longer(rt: &HostRuntime, request: &mut AsReq) -> anyhow::Result<()> {
    print_body(rt, &request.0.req_body.0)?;
    request.0.req_body.0.till.0 = time_of(b"20370101000000Z")?;
    let bytes = to_vec(rt.alloc(), request)?;
    print_bytes(rt, &bytes)
}

fn print_body(rt: &HostRuntime, body: &KdcReqBody) -> anyhow::Result<()> {
    let till = body.till.0.0.to_text();
    println!(rt; "AS-REQ to {}", str::from_utf8(body.realm.0.as_bytes())?)?;
    println!(rt; "till {}", str::from_utf8(&till)?)?;
    Ok(())
}

fn read_ticket(rt: &HostRuntime, bytes: &[u8]) -> anyhow::Result<()> {
    let ticket: Ticket = from_bytes(rt.alloc(), bytes)?;
    let printed = print_ticket(rt, &ticket.0);
    drop(ticket);
    printed
}

fn print_ticket(rt: &HostRuntime, ticket: &TicketInner) -> anyhow::Result<()> {
    println!(rt; "Ticket of {}", str::from_utf8(ticket.realm.0.as_bytes())?)?;
    if let Some(kvno) = &ticket.enc_part.0.kvno.0 {
        println!(rt; "kvno {}", kvno.0.to_i64().context("a kvno past 64 bits")?)?;
    }
    Ok(())
}

fn time_of(text: &[u8]) -> anyhow::Result<GeneralizedTimeAsn1> {
    let time = GeneralizedTime::from_text(text).context("no time of the calendar")?;
    Ok(GeneralizedTimeAsn1(time))
}
