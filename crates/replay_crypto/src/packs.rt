//! AuthPacks with further fields, and what a KDC judges of them. `data/auth_packs.py` writes the rows.

use crate::row::columns_of;
use picky_asn1_der::Asn1RawDer;
use pkinit_messages::agility::{ExtensibleAuthPack, Kdf, read_auth_pack};
use test_support::rows::replay;
use test_support::{Row, Rows};

#[derive(Clone, Copy)]
struct Packs;

/// Replays the file of AuthPacks.
pub(crate) fn replay_packs(rt: &HostRuntime) -> anyhow::Result<()> {
    replay(rt, &mut Packs, "auth_packs.txt")
}

impl Rows for Packs {
    const COLUMNS: &'static str = " | ";

    const NAME: &'static str = "lines";

    fn agrees(&mut self, rt: &HostRuntime, row: &mut Row<'_>) -> anyhow::Result<bool> {
        let _label = row.word();
        let octets = row.octets(rt.alloc());
        let head = row.word();
        let columns = columns_of(rt.alloc(), row.word())?;
        let Some(pack) = read_auth_pack(rt.alloc(), &octets)? else {
            return Ok(head == "refused");
        };
        let agrees = is_told(&pack, head, columns.as_slice());
        drop(pack);
        Ok(agrees)
    }
}

/// Whether the AuthPack is told so: `unordered`, or the number of the key derivation function and the time, and then value, paChecksum and
/// nonce.
fn is_told(pack: &ExtensibleAuthPack, head: &str, columns: &[Vec<u8>]) -> bool {
    if !pack.are_in_order() {
        return head == "unordered";
    }
    let Some((kdf, time)) = head.split_once(' ') else {
        return false;
    };
    number_of(pack.kdf()) == kdf && is_time(pack, time) && are_parts(pack, columns)
}

fn number_of(kdf: Option<Kdf>) -> &'static str {
    match kdf {
        None => "0",
        Some(Kdf::Sha1) => "1",
        Some(Kdf::Sha256) => "2",
        Some(Kdf::Sha512) => "3",
    }
}

/// Whether the time has these microseconds, or is none.
fn is_time(pack: &ExtensibleAuthPack, time: &str) -> bool {
    match pack.time() {
        Some(moment) => time.parse::<u64>().ok() == Some(moment.micros()),
        None => time == "none",
    }
}

fn are_parts(pack: &ExtensibleAuthPack, columns: &[Vec<u8>]) -> bool {
    let [value, checksum, nonce] = columns else {
        return false;
    };
    value.as_slice() == octets_of(pack.value())
        && checksum.as_slice() == checksum_of(pack)
        && nonce.as_slice() == pack.nonce().as_signed_bytes_be()
}

fn octets_of(element: Option<&Asn1RawDer>) -> &[u8] {
    match element {
        Some(element) => element.as_bytes(),
        None => &[],
    }
}

fn checksum_of(pack: &ExtensibleAuthPack) -> &[u8] {
    match pack.checksum() {
        Some(checksum) => checksum.as_bytes(),
        None => &[],
    }
}
