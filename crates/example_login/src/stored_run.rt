//! The stored run: a realm whose only account is its own service, and a request that a stock client sent.

use crate::replies::print_reply;
use krb_realm::{CipherSuite, Moment, NoKeys, Realm, Settings};
use std::alloc::Global;

/// The AS-REQ that MIT's kinit 1.20 sent for the client `a`, in hexadecimal.
const REQUEST: &str = concat!(
    "6a8185308182a103020105a20302010aa31a3018300aa10402020096a2020400300aa10402020095a2020400a45a3058",
    "a00703050000000010a10e300ca003020101a10530031b0161a2031b0152a3163014a003020102a10d300b1b066b7262",
    "7467741b0152a511180f32303236313132323134353833305aa706020434ae8c70a8053003020112",
);

/// Prints the reply of the realm, which has no client `a`.
pub fn answer_kinit(rt: &HostRuntime, moment: Moment) -> anyhow::Result<()> {
    let request = hex::decode(rt.alloc(), REQUEST)?;
    let realm = make_realm(rt.alloc())?;
    let reply = realm.answer(rt.alloc(), &request, moment, &[0; 128], &NoKeys)?;
    println!(rt; "kinit asks the realm R for a ticket, as a client that has no account:")?;
    print_reply(rt, &reply)
}

fn make_realm(alloc: Global) -> anyhow::Result<Realm> {
    let settings = Settings::new(alloc, 300, 36_000, None, None)?; // seconds of skew, and of a ticket's life
    let suite = CipherSuite::Aes256CtsHmacSha196;
    let realm = Realm::new(alloc, b"R", suite, &[0; 32], settings)?;
    Ok(realm)
}
