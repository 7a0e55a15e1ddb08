//! AP requests to a service that has seen nothing, and its answers.

use crate::recorded::rows::Rows;
use crate::recorded::telling::tell_admission;
use crate::words::start;
use krb_realm::{Admission, AdmitRefusal, CipherSuite, Service};
use std::alloc::Global;
use test_support::{Row, Told, components_of};

/// The random bytes of each call.
const WORDS: [u8; 16] = [0, 1, 2, 3, 4, 5, 6, 7, 8, 9, 10, 11, 12, 13, 14, 15];

/// Requests, and what the service answers.
#[derive(Clone, Copy)]
pub(crate) struct Admissions;

impl Rows for Admissions {
    const NAME: &'static str = "requests";

    const WRONG: &'static str = "differing answers";

    fn tell(&self, rt: &HostRuntime, row: &mut Row<'_>, told: &mut Told) -> anyhow::Result<()> {
        let mut service = service_h(rt.alloc())?;
        let request = request_of(rt.alloc(), row);
        row.want();
        let admitted = admit(rt.alloc(), &mut service, &request)?;
        tell_answer(told, admitted);
        Ok(())
    }
}

/// The recorded requests, each presented for the second time. None is admitted then.
#[derive(Clone, Copy)]
pub(crate) struct Repetitions;

impl Rows for Repetitions {
    const NAME: &'static str = "requests";

    const WRONG: &'static str = "admitted again";

    fn tell(&self, rt: &HostRuntime, row: &mut Row<'_>, told: &mut Told) -> anyhow::Result<()> {
        let mut service = service_h(rt.alloc())?;
        let request = request_of(rt.alloc(), row);
        let _answer = row.word();
        drop(admit(rt.alloc(), &mut service, &request)?);
        if admit(rt.alloc(), &mut service, &request)?.is_ok() {
            told.put("admitted again");
        }
        Ok(())
    }
}

/// The request of a row: label, request, and how far the moment is off, which is nothing in each row.
fn request_of(alloc: Global, row: &mut Row<'_>) -> Vec<u8> {
    let _label = row.word();
    let request = row.octets(alloc);
    if row.word() != "0" {
        row.refuse("another moment");
    }
    request
}

/// The service `h` of realm R, which has seen nothing.
fn service_h(alloc: Global) -> anyhow::Result<Service> {
    let name = components_of(alloc, "h")?;
    let suite = CipherSuite::Aes256CtsHmacSha196;
    let service = Service::new(alloc, b"R", &name, suite, &[1; 32], 1, 300)?;
    Ok(service)
}

/// What the service answers at the first second of 2000.
fn admit(
    alloc: Global,
    service: &mut Service,
    request: &[u8],
) -> anyhow::Result<Result<Admission, AdmitRefusal>> {
    Ok(service.admit(alloc, request, start()?, &WORDS))
}

fn tell_answer(told: &mut Told, answer: Result<Admission, AdmitRefusal>) {
    match answer {
        Ok(admission) => tell_admission(told, &admission),
        Err(refusal) => told.debug(&refusal),
    }
}
