//! What programs make of the list of locks, of links and of a configuration.

use krb_commands::{default_realm_in, folder_of, holder_in, linked_path, listed_file};
use std::alloc::Global;

// Lines as Linux 6.1 writes them: locks of flock and of fcntl, and a process that waits.
const HELD: &str = "1: FLOCK  ADVISORY  WRITE 4711 fe:00:2310181 0 EOF";

const OF_RECORDS: &str = "2: POSIX  ADVISORY  WRITE 4712 fe:00:2310181 0 EOF";

const WAITING: &str = "1: -> FLOCK  ADVISORY  WRITE 4713 fe:00:2310181 0 EOF";

#[test]
fn holders(rt: HostRuntime) {
    assert!(rt; holder_in(HELD, "fe:00:2310181") == Some(4711));
    assert!(rt; holder_in(HELD, "fe:01:2310181").is_none());
    assert!(rt; holder_in(OF_RECORDS, "fe:00:2310181").is_none());
    assert!(rt; holder_in(WAITING, "fe:00:2310181").is_none());
    assert!(rt; holder_in("", "fe:00:2310181").is_none());
}

fn is_listed(alloc: Global, device: u64, inode: u64, file: &str) -> bool {
    match listed_file(alloc, device, inode) {
        Ok(listed) => listed.as_str() == file,
        Err(_) => false,
    }
}

// makedev(3): a minor number of more than eight bits lies around the major one.
#[test]
fn devices(rt: HostRuntime) {
    assert!(rt; is_listed(rt.alloc(), 0xfe00, 2_310_181, "fe:00:2310181"));
    assert!(rt; is_listed(rt.alloc(), 0x0010_0801, 7, "08:101:7"));
}

fn leads_to(alloc: Global, link: &str, target: &str, place: &str) -> bool {
    match linked_path(alloc, link, target) {
        Ok(path) => path.as_str() == place,
        Err(_) => false,
    }
}

#[test]
fn links(rt: HostRuntime) {
    assert!(rt; leads_to(rt.alloc(), "a/link", "accounts", "a/accounts"));
    assert!(rt; leads_to(rt.alloc(), "a/link", "../accounts", "a/../accounts"));
    assert!(rt; leads_to(rt.alloc(), "a/link", "/accounts", "/accounts"));
    assert!(rt; leads_to(rt.alloc(), "/link", "accounts", "/accounts"));
    assert!(rt; leads_to(rt.alloc(), "link", "accounts", "accounts"));
}

#[test]
fn folders(rt: HostRuntime) {
    assert!(rt; folder_of("/accounts") == "/");
    assert!(rt; folder_of("accounts") == ".");
    assert!(rt; folder_of("a/b/c") == "a/b");
}

// A configuration as Debian's krb5-config writes it, with another section and a comment in front.
const STOCK: &str =
    "# default_realm = A\n[logging]\n\tdefault_realm = B\n\n[libdefaults]\n\tdefault_realm = EXAMPLE.COM\n\tkdc_timesync = 1\n";

fn names(alloc: Global, text: &str, realm: Option<&str>) -> bool {
    match default_realm_in(alloc, text) {
        Ok(named) => named == realm,
        Err(_) => false,
    }
}

#[test]
fn default_realms(rt: HostRuntime) {
    assert!(rt; names(rt.alloc(), STOCK, Some("EXAMPLE.COM")));
    assert!(rt;
        names(
            rt.alloc(),
            "[libdefaults]\r\ndefault_realm=A\r\n",
            Some("A")
        )
    );
    assert!(rt;
        names(
            rt.alloc(),
            "[libdefaults]\ndefault_realm =\ndefault_realm\n",
            None
        )
    );
    assert!(rt; names(rt.alloc(), "[realms]\ndefault_realm = A\n", None));
}
