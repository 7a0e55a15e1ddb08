//! The record of an integrity level, by the table of MS-KILE, section 2.2.5.

use picky_krb::data_types::LsapTokenInfoIntegrity;
use std::alloc::Global;

// Flags 1 (a restricted token), a medium level (0x2000), and the machine's name.
const RECORD: &[u8] = b"\x01\x00\x00\x00\x00\x20\x00\x00machine-machine-machine-machine-";

fn is_record(alloc: Global) -> bool {
    let mut written = Vec::new(alloc);
    match LsapTokenInfoIntegrity::decode(&mut &*RECORD) {
        Ok(record) => {
            (record.flags, record.token_il) == (1, 0x2000)
                && record.encode(&mut written).is_ok()
                && written.as_slice() == RECORD
        }
        Err(_) => false,
    }
}

#[test]
fn integrity_record(rt: HostRuntime) {
    assert!(rt; is_record(rt.alloc()));
}
