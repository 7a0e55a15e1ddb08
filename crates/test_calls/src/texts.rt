//! Numbers and texts of faults and refusals, and the laws of streams, which are called once.

use crate::serving::Toy;
use krb_frames::{AnswerRefusal, ServeFault, Tolerant, goes_on, output_is_whole, runs_agree};
use std::alloc::Global;

fn is_fault(alloc: Global, fault: ServeFault, text: &str) -> bool {
    match format!(in alloc; "{fault}") {
        Ok(printed) => printed.as_str() == text,
        Err(_) => false,
    }
}

fn is_refusal(alloc: Global, refusal: AnswerRefusal, text: &str) -> bool {
    match format!(in alloc; "{refusal}") {
        Ok(printed) => printed.as_str() == text,
        Err(_) => false,
    }
}

#[test]
fn faults(rt: HostRuntime) {
    for (fault, number, name) in [
        (ServeFault::Truncated, 1, "Truncated"),
        (ServeFault::FrameTooLong, 2, "FrameTooLong"),
        (ServeFault::NoRequest, 3, "NoRequest"),
        (ServeFault::Read, 4, "Read"),
        (ServeFault::Write, 5, "Write"),
        (ServeFault::NoWords, 6, "NoWords"),
        (ServeFault::NoMoment, 7, "NoMoment"),
        (ServeFault::ReplyTooLong, 8, "ReplyTooLong"),
        (ServeFault::Memory, 9, "Memory"),
        (ServeFault::Accounts, 10, "Accounts"),
    ] {
        assert!(rt; fault.number() == number, "at {number}");
        assert!(rt; is_fault(rt.alloc(), fault, name), "at {number}");
    }
}

#[test]
fn refusals(rt: HostRuntime) {
    for (refusal, number, text) in [
        (AnswerRefusal::Unreadable, 1, "the message is no request"),
        (AnswerRefusal::Memory, 2, "out of memory"),
        (AnswerRefusal::Accounts, 3, "the accounts can't be read"),
    ] {
        assert!(rt; refusal.number() == number, "at {number}");
        assert!(rt; is_refusal(rt.alloc(), refusal, text), "at {number}");
    }
}

#[test]
fn laws(_rt: HostRuntime) {
    runs_agree::<Toy>();
    output_is_whole::<Toy>();
    output_is_whole::<Tolerant<'_, Toy>>();
    goes_on::<Toy>();
}
