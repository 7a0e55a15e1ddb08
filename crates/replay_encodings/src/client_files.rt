//! What a client reads: keytabs, credential caches, and the hints that stock KDCs give of a key (ETYPE-INFO2). Each outcome is compared with
//! that of an independent reader, and what is written with an independent writer's octets.

mod caches;
mod hints;
mod keytabs;

pub(crate) use caches::write_reversed;

/// Replays the rows on what a client reads.
pub(crate) fn replay_client_files(rt: &HostRuntime) -> anyhow::Result<()> {
    keytabs::replay_keytabs(rt)?;
    caches::replay_caches(rt)?;
    hints::replay_hints(rt)
}
