//! The replay cache, with a skew of 300 seconds.

use krb_service::{Pair, Seen};
use krb_time::Moment;
use picky_asn1::wrapper::GeneralStringAsn1;
use std::alloc::Global;

fn at(second: u64) -> Option<Moment> {
    Moment::new(second.saturating_mul(1_000_000))
}

fn pair(alloc: Global, name: &[u8], second: u64) -> Option<Pair> {
    let time = at(second)?;
    let realm = GeneralStringAsn1::new(alloc, b"EXAMPLE.ORG").ok()?;
    let components = components_of(alloc, name)?;
    Pair::new(alloc, &realm, components.as_slice(), time).ok()
}

// The components of a name, with `/` between them.
fn components_of(alloc: Global, name: &[u8]) -> Option<Vec<GeneralStringAsn1>> {
    let mut components = Vec::new(alloc);
    for component in name.split(|byte| *byte == b'/') {
        components
            .push(GeneralStringAsn1::new(alloc, component).ok()?)
            .ok()?;
    }
    Some(components)
}

fn record(seen: &mut Seen, pair: Option<Pair>) -> Option<()> {
    seen.record(pair?).ok()
}

// At second 1,000 a pair of second 1,100 was admitted, and one of 900.
fn seen_two(alloc: Global) -> Option<Seen> {
    let mut seen = Seen::new(alloc, 300);
    seen.raise(at(1_000)?);
    record(&mut seen, pair(alloc, b"user", 1_100))?;
    record(&mut seen, pair(alloc, b"other", 900))?;
    Some(seen)
}

fn is_seen(alloc: Global, name: &[u8], second: u64) -> Option<bool> {
    let pair = pair(alloc, name, second)?;
    Some(seen_two(alloc)?.contains(&pair))
}

#[test]
fn admitted_pairs(rt: HostRuntime) {
    assert!(rt; is_seen(rt.alloc(), b"user", 1_100) == Some(true));
    assert!(rt; is_seen(rt.alloc(), b"other", 900) == Some(true));
    assert!(rt; is_seen(rt.alloc(), b"user", 1_101) == Some(false));
    assert!(rt; is_seen(rt.alloc(), b"User", 1_100) == Some(false));
}

// What was seen, once an earlier moment was handed in too.
fn seen_later(alloc: Global) -> Option<Seen> {
    let mut seen = seen_two(alloc)?;
    seen.raise(at(990)?);
    Some(seen)
}

fn is_kept(seen: &Seen) -> bool {
    Some(seen.greatest()) == at(1_000) && seen.skew() == 300_000_000
}

fn is_far(seen: &Seen, second: u64) -> Option<bool> {
    Some(seen.greatest().is_far_from(at(second)?, seen.skew()))
}

fn are_far(alloc: Global, second: u64) -> Option<bool> {
    let seen = seen_later(alloc)?;
    if is_kept(&seen) {
        is_far(&seen, second)
    } else {
        None
    }
}

#[test]
fn far_times(rt: HostRuntime) {
    for (second, far) in [(699, true), (700, false), (1_300, false), (1_301, true)] {
        assert!(rt; are_far(rt.alloc(), second) == Some(far), "at {second}");
    }
}

fn time_of(pair: Option<Pair>) -> Option<Moment> {
    Some(pair?.time())
}

#[test]
fn times(rt: HostRuntime) {
    let time = time_of(pair(rt.alloc(), b"user", 1_300));
    assert!(rt; time.is_some() && time == at(1_300));
}

// How many pairs are kept of `user` of second 1,000, once a later moment was handed in.
fn kept_at(alloc: Global, second: u64) -> Option<usize> {
    let mut seen = Seen::new(alloc, 300);
    seen.raise(at(1_000)?);
    record(&mut seen, pair(alloc, b"user", 1_000))?;
    seen.raise(at(second)?);
    Some(seen.kept())
}

#[test]
fn window(rt: HostRuntime) {
    for (second, kept) in [(900, 1), (1_000, 1), (1_300, 1), (1_301, 0), (1_000_000, 0)] {
        assert!(rt; kept_at(rt.alloc(), second) == Some(kept), "at {second}");
    }
}

// How many pairs are kept of these names, all of second 1,000.
fn kept_of(alloc: Global, names: &[&[u8]]) -> Option<usize> {
    let mut seen = Seen::new(alloc, 300);
    seen.raise(at(1_000)?);
    for name in names {
        record(&mut seen, pair(alloc, name, 1_000))?;
    }
    Some(seen.kept())
}

#[test]
fn names(rt: HostRuntime) {
    assert!(rt; kept_of(rt.alloc(), &[b"ab", b"a/b", b"a", b"b", b"", b"/", b"ab/"]) == Some(7));
    assert!(rt; kept_of(rt.alloc(), &[b"ab", b"a/b", b"ab", b"a/b"]) == Some(2));
}
