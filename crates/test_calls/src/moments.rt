//! Moments: the first of 2000 and the last of all, with the seconds of `date -u +%s`.
use krb_time::Moment;

fn new_year() -> Option<Moment> {
    Moment::from_text(b"20000101000000Z")
}

fn last() -> Option<Moment> {
    Moment::new(315_569_519_999_999_999)
}

fn micros_of(moment: Option<Moment>) -> Option<u64> {
    Some(moment?.micros())
}

fn is_at(moment: Option<Moment>, text: &[u8], microsecond: u32) -> bool {
    match moment {
        Some(moment) => {
            moment.second().to_text().as_slice() == text
                && moment.microsecond() == microsecond
                && Moment::at(moment.second(), 999_999) == moment
        }
        None => false,
    }
}

// Whether the first moment is before the second, and more than a microsecond away.
fn are_apart(first: Option<Moment>, second: Option<Moment>) -> bool {
    match (first, second) {
        (Some(first), Some(second)) => first < second && first.is_far_from(second, 1),
        _ => false,
    }
}

#[test]
fn moments(rt: HostRuntime) {
    assert!(rt; micros_of(new_year()) == Some(63_113_904_000_000_000));
    assert!(rt; is_at(last(), b"99991231235959Z", 999_999));
    assert!(rt; are_apart(new_year(), last()));
}
