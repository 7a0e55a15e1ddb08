//! Writing into a slice, which takes no memory.

use anyhow::bail;
use krb_messages::messages::KrbError;
use picky_asn1_der::{from_exact_bytes, to_bytes};

/// The octets of the slice: more than an error of the rows has.
const ROOM: usize = 128;

/// Reads an error, and then prints the octets that it is written to. From the first printed word on no memory is taken, so that
/// faults/refused_growths.sh can refuse every growth from there on.
pub(crate) fn run(rt: &HostRuntime, words: &[String]) -> anyhow::Result<String> {
    let [text] = words else {
        bail!("usage: slice HEXADECIMAL");
    };
    let bytes = hex::decode(rt.alloc(), text.as_str())?;
    let error: KrbError = from_exact_bytes(rt.alloc(), &bytes)?;
    let mut space = [0u8; ROOM];
    print!(rt; "written: ")?;
    let written = to_bytes(&error, &mut space);
    drop(error);
    for octet in space.iter().take(written?) {
        print!(rt; "{octet:02x}")?;
    }
    Ok(String::new(rt.alloc()))
}
