//! SIDs of further groups, with their attributes (MS-PAC, section 2.2.1).
ghost use Rattle.std.specs.Prelude.{◌≡◌, ◌+◌, ◌≤◌, ◌⊎◌, ◌++◌, [], ◌∷◌, length, Ok, Err, IfOk, MatchResult};
ghost use Rattle.krb_pac.specs.declared.error.PacFault.TheVariants.{Memory};
ghost use Rattle.krb_pac.specs.Reading.{Gives};
ghost use Rattle.krb_pac.specs.Sids.{SidParts, rpc_sid_at};
ghost use Rattle.krb_pac.specs.ExtraSids.{extra_of, sid_row_at, sids_at, extra_sids_at};

use crate::error::{Found, PacFault};
use crate::ndr::{NdrItem, listed_at, pointer_at, u32_at};
use crate::sid::{Sid, rpc_sid_at};
use std::alloc::{AllocError, Global};
use std::marker::Model;

/// KERB_SID_AND_ATTRIBUTES: the SID of a group, and how the client is of it.
#[derive(Debug, Drop)]
pub struct ExtraSid {
    /// The group's SID.
    pub sid: Sid,
    /// How the client is of the group.
    pub attributes: u32,
}

impl Model for ExtraSid {
    ghost use Rattle.krb_pac.specs.ExtraSids.{SidAndAttributes};

    ghost Value = { SidAndAttributes };

    ghost view = { λ s. record { sid = s.sid; attributes = s.attributes } };
}

// The row of a SID: its pointer, which isn't null, and its attributes.
#[derive(Clone, Copy)]
struct SidRow {
    attributes: u32,
}

// Reads the row at `place`.
#[tactic(auto, unfolding(crate::specs::ExtraSids::sid_row_at))]
fn sid_row_at(bytes: &[u8], place: usize) -> Found<SidRow>
    ensures { result ≡ sid_row_at place bytes.now }
{
    let (is_set, behind) = pointer_at(bytes, place)?;
    if !is_set {
        return Err(PacFault::Null);
    }
    let (attributes, end) = u32_at(bytes, behind)?;
    Ok((SidRow { attributes }, end))
}

impl NdrItem for SidRow {
    ghost reading = { sid_row_at };

    fn read(_alloc: Global, bytes: &[u8], place: usize) -> Found<SidRow> {
        sid_row_at(bytes, place)
    }
}

fn keep(sids: &mut Vec<ExtraSid>, sid: Sid, row: SidRow) -> Result<(), AllocError>
    ensures { IfOk result (λ _. sids.new.items ≡ sids.old.items ++ extra_of sid row ∷ []) }
{
    sids.push(ExtraSid {
        sid,
        attributes: row.attributes,
    })?;
    Ok(())
}

// Reads the SID at `place`, appends it with the row's attributes, and returns the place behind it.
fn read_sid(
    alloc: Global,
    bytes: &[u8],
    place: usize,
    row: &SidRow,
    sids: &mut Vec<ExtraSid>,
) -> Result<usize, PacFault>
    ensures { MatchResult result
        (λ end. (sid : SidParts) × (rpc_sid_at place bytes.now ≡ Ok (sid, end)) × (sids.new.items ≡ sids.old.items ++ extra_of sid row.now ∷ []))
        (λ e. (e ≡ Memory) ⊎ (rpc_sid_at place bytes.now ≡ Err e)) }
{
    let (sid, end) = rpc_sid_at(alloc, bytes, place)?;
    keep(sids, sid, *row)?;
    Ok(end)
}

// Reads a SID for each row, the first at `place`.
fn read_sids(alloc: Global, bytes: &[u8], place: usize, rows: &[SidRow]) -> Found<Vec<ExtraSid>>
    ensures { Gives (λ found. (found.0.items, found.1)) result (sids_at rows.now place bytes.now) }
{
    let mut sids = Vec::new(alloc);
    let mut end = place;
    for row in rows {
        end = read_sid(alloc, bytes, end, row, &mut sids)?;
    }
    Ok((sids, end))
}

/// Reads at `place` the array of which the structure at `head` has the count and the pointer: first each row, and then each SID.
#[tactic(auto, unfolding(crate::specs::ExtraSids::extra_sids_at))]
pub(crate) fn extra_sids_at(
    alloc: Global,
    bytes: &[u8],
    head: usize,
    place: usize,
) -> Found<Vec<ExtraSid>>
    requires { head + 8 ≤ length bytes.now }
    ensures { Gives (λ found. (found.0.items, found.1)) result (extra_sids_at head place bytes.now) }
{
    let (rows, at_sids) = listed_at(alloc, bytes, head, place)?;
    read_sids(alloc, bytes, at_sids, rows.as_slice())
}
