//! Services whose keys are those of a keytab (RFC 4120, section 3.2.3): one realm and name, several keys, and one replay cache. The keys may
//! be replaced while the service runs, and what it has admitted stays remembered.
//!
//! A request is read once, and judged by the first entry that has its ticket's kvno and etype (`chosen`). The KDC writes the kvno into each
//! ticket. For a ticket without one the entries' order counts: it is judged by the first of its etype alone. Keytabs have the order in which
//! their keys were added, so that is the oldest.
//!
//! `KeytabService::admit` answers as the service of one key does that has the entry by which the request is judged (`remembering_by_keytab`,
//! law `as_one_key`). Each call is one of a run, with any entries (law `calls_of_runs`). So over any list of calls it admits no client and
//! time twice (laws `run_goes_on`, `once_for_ever` of `crate::laws`). `KeytabService::admit_replying` makes an AP-REP also where none is asked
//! for, and else answers the same (law `unasked_as_asked`). An entry that is added or taken away changes no answer to a ticket
//! that another entry fits before it, or that it doesn't fit (law `other_entries_alone`). What no entry fits is refused for its kvno or its
//! etype (law `unfit_is_refused`). The entries are the keytab's records of the service's realm and name, of each kvno from 1 on and each
//! suite, in their order, and no others (`entries_of`).

mod choosing;
mod entries;
pub mod laws;
mod refusal;
mod service;

pub use refusal::KeytabServiceRefusal;
pub use service::KeytabService;
