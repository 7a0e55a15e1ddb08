//! Names of text. Each row is answered the same by `krb5_parse_name` of MIT krb5 1.20.1, whose faults have one code.

use krb_messages::{NameTextFault, components_of_text, principal_of_text};
use std::alloc::Global;

fn are(name: &[Vec<u8>], wanted: &[&[u8]]) -> bool {
    name.len() == wanted.len()
        && name
            .iter()
            .zip(wanted)
            .all(|(component, wanted)| component.as_slice() == *wanted)
}

fn is_read(alloc: Global, text: &str, components: &[&[u8]]) -> bool {
    match components_of_text(alloc, text) {
        Ok(name) => are(&name, components),
        Err(_) => false,
    }
}

fn is_placed(alloc: Global, text: &str, components: &[&[u8]], realm: &[u8]) -> bool {
    match principal_of_text(alloc, text) {
        Ok(name) => are(&name.components, components) && name.realm.as_deref() == Some(realm),
        Err(_) => false,
    }
}

fn fault(alloc: Global, text: &str) -> Option<NameTextFault> {
    principal_of_text(alloc, text).err()
}

#[test]
fn components(rt: HostRuntime) {
    let alloc = rt.alloc();
    assert!(rt; is_read(alloc, "user", &[b"user"]));
    assert!(rt;
        is_read(
            alloc,
            "host/server.example.com",
            &[b"host", b"server.example.com"]
        )
    );
    assert!(rt; is_read(alloc, "a/b/c", &[b"a", b"b", b"c"]));
    assert!(rt; is_read(alloc, "", &[b""]));
    assert!(rt; is_read(alloc, "/a//b/", &[b"", b"a", b"", b"b", b""]));
    assert!(rt; is_read(alloc, "\u{fc}", &[&[0xC3, 0xBC]]));
}

// After a backslash, a separator or a backslash is itself, n, t, b and 0 are control characters, and another octet is itself.
#[test]
fn quoted(rt: HostRuntime) {
    let alloc = rt.alloc();
    assert!(rt; is_read(alloc, "a\\/b\\@c\\\\", &[b"a/b@c\\"]));
    assert!(rt; is_read(alloc, "\\n\\t\\b\\0", &[b"\n\t\x08\0"]));
    assert!(rt; is_read(alloc, "a\\x\\N", &[b"axN"]));
    assert!(rt; is_read(alloc, "a\\\\/b", &[b"a\\", b"b"]));
}

#[test]
fn realms(rt: HostRuntime) {
    let alloc = rt.alloc();
    assert!(rt; is_placed(alloc, "user@EXAMPLE.COM", &[b"user"], b"EXAMPLE.COM"));
    assert!(rt; is_placed(alloc, "a/@R", &[b"a", b""], b"R"));
    assert!(rt; is_placed(alloc, "a@", &[b"a"], b""));
    assert!(rt; is_placed(alloc, "a\\@b@R\\@S\\/T\\n", &[b"a@b"], b"R@S/T\n"));
}

// RFC 1964, section 2.1.1: a backslash is never the last octet, and a realm has no `/` and no `@` but by a backslash.
#[test]
fn faults(rt: HostRuntime) {
    let alloc = rt.alloc();
    assert!(rt; fault(alloc, "a\\") == Some(NameTextFault::TrailingBackslash));
    assert!(rt; fault(alloc, "a@R\\") == Some(NameTextFault::TrailingBackslash));
    assert!(rt; fault(alloc, "a@b@c") == Some(NameTextFault::UnexpectedRealm));
    assert!(rt; fault(alloc, "a@R/S") == Some(NameTextFault::SlashInRealm));
    let alone = components_of_text(alloc, "user@EXAMPLE.COM");
    assert!(rt; alone.err() == Some(NameTextFault::UnexpectedRealm));
}
