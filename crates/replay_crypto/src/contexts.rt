//! Calls of initiators, acceptors and contexts. Each token, message and refusal is compared with that of an independent writer or of MIT's library.

mod accept;
mod begin;
mod call;
mod calls;
mod initiate;

use call::{Call, call_of};
use gss_acceptor::{Acceptor, Delegated, Negotiation};
use gss_contexts::{Context, Protection};
use gss_initiator::Pending;
use krb_service::Service;
use std::alloc::Global;
use std::fmt::Debug;
use test_support::rows::replay;
use test_support::{Row, Rows};

/// What tokens.py, first_tokens.py and initiators.py write, and what MIT's library wraps and signs.
const FILES: [&str; 4] = [
    "tokens.txt",
    "stock.txt",
    "first_tokens.txt",
    "initiators.txt",
];

/// What a line's call is one of.
#[derive(Drop)]
pub(crate) struct Ends {
    pub(crate) acceptor: Option<Acceptor<Service>>,
    pub(crate) negotiation: Option<Negotiation>,
    pub(crate) pending: Option<Pending>,
    pub(crate) context: Option<Context>,
    /// What the initiator of the context that an acceptor established last delegated.
    pub(crate) delegated: Option<Delegated>,
}

/// Replays the files of calls.
pub(crate) fn replay_contexts(rt: &HostRuntime) -> anyhow::Result<()> {
    for file in FILES {
        let mut ends = Ends {
            acceptor: None,
            negotiation: None,
            pending: None,
            context: None,
            delegated: None,
        };
        let replayed = replay(rt, &mut ends, file);
        drop(ends);
        replayed?;
    }
    Ok(())
}

impl Rows for Ends {
    const COLUMNS: &'static str = " | ";

    const NAME: &'static str = "lines";

    /// A line `new`, `accept`, `resume`, `initiate` or `take` begins another context.
    fn agrees(&mut self, rt: &HostRuntime, row: &mut Row<'_>) -> anyhow::Result<bool> {
        let alloc = rt.alloc();
        let call = call_of(alloc, row)?;
        match call.name {
            "new" => begin::begins(alloc, &mut self.context, &call),
            "acceptor" => accept::begins(alloc, &mut self.acceptor, &call),
            "accept" | "resume" => accept::accepts(alloc, self, &call),
            "delegated" => accept::delegates(alloc, self, &call),
            "initiate" => initiate::initiates(alloc, self, &call),
            "delegate" => initiate::delegates(alloc, self, &call),
            "take" => initiate::takes(alloc, self, &call),
            _ => match &mut self.context {
                Some(context) => Ok(calls_as_expected(alloc, context, &call)),
                None => Ok(false),
            },
        }
    }
}

/// Whether a call of the context gives what is expected. A line of another shape differs.
fn calls_as_expected(alloc: Global, context: &mut Context, row: &Call<'_>) -> bool {
    match row.name {
        "get_mic" => calls::gets_mic(alloc, context, row),
        "verify_mic" => calls::verifies_mic(alloc, context, row),
        "wrap_sealed" => calls::wraps(alloc, context, Protection::Sealed, row),
        "wrap_checksum" => calls::wraps(alloc, context, Protection::Checksum, row),
        "unwrap" => calls::unwraps(alloc, context, row),
        "check_end" => calls::checks_end(alloc, context, row),
        _ => false,
    }
}

/// Whether a value has this name.
pub(crate) fn is_named<T: Debug>(alloc: Global, value: &T, name: &str) -> bool {
    match format!(in alloc; "{value:?}") {
        Ok(text) => text.as_str() == name,
        Err(_) => false,
    }
}
