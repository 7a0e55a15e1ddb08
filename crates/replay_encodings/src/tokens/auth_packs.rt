//! What clients sign, by the kinds of public values.
use crate::tokens::copies::copied_as;
use crate::{first_of, told_as};
use anyhow::bail;
use picky_asn1_der::{Asn1RawDer, FromDer, from_exact_bytes};
use pkinit_messages::{AuthPack, DhAuthPack, EcAuthPack};
use std::alloc::Global;
use std::fmt::Debug;
use std::fs;
use test_support::{Answer, Recorded, recorded_of};

/// Whether such a value is read and written as expected; none for any other type.
pub fn agrees(alloc: Global, recorded: &Recorded<'_>) -> Option<Answer> {
    first_of(&[
        told_as::<AuthPack<Asn1RawDer>>(alloc, recorded, "AuthPack<Asn1RawDer>"),
        copied_as::<DhAuthPack>(alloc, recorded, "DhAuthPack"),
        copied_as::<EcAuthPack>(alloc, recorded, "EcAuthPack"),
    ])
}

/// Prints the first value of the file that is signed for an agreement on a curve.
pub fn print_first(rt: &HostRuntime, file: &str) -> anyhow::Result<()> {
    let text = fs::read_to_string(rt, file)?;
    for line in text.lines() {
        if line.starts_with("EcAuthPack ") {
            let recorded = recorded_of(rt.alloc(), line)?;
            return print::<EcAuthPack>(rt, &recorded);
        }
    }
    bail!("no EcAuthPack")
}

fn print<T: FromDer + Debug>(rt: &HostRuntime, recorded: &Recorded<'_>) -> anyhow::Result<()> {
    let value = from_exact_bytes::<T>(rt.alloc(), &recorded.bytes)?;
    println!(rt; "{value:?}")?;
    Ok(())
}
