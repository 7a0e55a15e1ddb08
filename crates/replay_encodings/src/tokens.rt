//! Tokens of the GSS-API, credentials of CredSSP, and messages of PKINIT and PKU2U, by the names of their types.

mod auth_packs;
mod copies;
mod credssp;
mod exchange;
mod gss;
mod keys;
mod pku2u;

use crate::first_of;
pub use auth_packs::print_first;
use std::alloc::Global;
use test_support::{Answer, Recorded};

/// Whether such a value is read and written as expected; none for any other type.
pub fn agrees(alloc: Global, recorded: &Recorded<'_>) -> Option<Answer> {
    first_of(&[
        gss::agrees(alloc, recorded),
        credssp::agrees(alloc, recorded),
        pku2u::agrees(alloc, recorded),
        exchange::agrees(alloc, recorded),
        keys::agrees(alloc, recorded),
        auth_packs::agrees(alloc, recorded),
    ])
}
