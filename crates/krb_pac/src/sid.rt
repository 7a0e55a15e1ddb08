//! SIDs (MS-DTYP, section 2.4.2).
ghost use Rattle.std.specs.Prelude.{◌≡◌, ◌+◌, ◌≤◌, ◌++◌, [], ◌∷◌, length, IfOk};
ghost use Rattle.krb_pac.specs.Numbers.{be48_at};
ghost use Rattle.krb_pac.specs.Reading.{Gives};
ghost use Rattle.krb_pac.specs.Sids.{sid_head_at, sid_with, sid_at, rpc_sid_at, set_sid_at, optional_sid_at, sid_of_all};

use crate::error::{Found, PacFault};
use crate::ndr::{read_list, u32_at};
use byte_streams::u32_le;
use byteorder::{BigEndian, ByteOrder};
use std::alloc::{AllocError, Global};
use std::fmt;
use std::marker::Model;

/// How many parts a SID has at most behind its authority.
const PARTS_LIMIT: u8 = 15;

/// The octets of a SID before its parts.
const SID_HEAD_SIZE: usize = 8;

/// A SID of revision 1. A contract sees its authority and its parts.
#[derive(Debug, Drop)]
pub struct Sid {
    authority: u64,
    parts: Vec<u32>,
}

impl Model for Sid {
    ghost use Rattle.krb_pac.specs.Sids.{SidParts};

    ghost Value = { SidParts };

    ghost view = { λ s. record { authority = s.authority; parts = s.parts.items } };
}

/// As `S-1-5-21-1-2-3-500`: the authority, and each part. An authority of 2^32 or more is in hexadecimal (MS-DTYP, section 2.4.2.1).
impl fmt::Display for Sid {
    fn fmt<W: fmt::Write>(&self, f: &mut fmt::Formatter<W>) -> fmt::Result {
        if self.authority < 0x1_0000_0000 {
            write!(f, "S-1-{}", self.authority)?;
        } else {
            write!(f, "S-1-0x{:012x}", self.authority)?;
        }
        for part in &self.parts {
            write!(f, "-{part}")?;
        }
        Ok(())
    }
}

impl Sid {
    /// The authority: 5 is that of Windows.
    pub fn authority(&self) -> u64
        ensures { result ≡ self.now.authority }
    {
        self.authority
    }

    /// The parts behind the authority. The last is the RID of an account or of a group.
    pub fn parts(&self) -> &[u32]
        ensures { result.now ≡ self.now.parts }
    {
        self.parts.as_slice()
    }

    /// Returns the SID of an account or of a group of this domain: its parts, and then the RID.
    pub fn with_rid(&self, rid: u32) -> Result<Sid, AllocError>
        ensures { IfOk result (λ sid. sid ≡ record { authority = self.now.authority; parts = self.now.parts ++ rid ∷ [] }) }
    {
        let mut parts = self.parts.clone()?;
        parts.push(rid)?;
        Ok(Sid {
            authority: self.authority,
            parts,
        })
    }
}

impl Clone for Sid {
    ghost is_clone = { λ sid copy. copy ≡ sid };

    fn clone(&self) -> Result<Sid, AllocError> {
        let parts = self.parts.clone()?;
        Ok(Sid {
            authority: self.authority,
            parts,
        })
    }
}

/// SIDs are the same where their authorities and their parts are.
impl PartialEq for Sid {
    ghost use Rattle.std.specs.Bool.{nat_eq};
    ghost use Rattle.std.specs.Cmp.Lexicographic.{pointwise};
    ghost use Rattle.std.specs.Cmp.Rules.{comparing};
    ghost use Rattle.std.specs.Ordering.{on, eq_of_both};
    ghost use Rattle.std.proofs.Common.{rules};

    ghost eq = { eq_of_both (on (λ s. s.authority) nat_eq) (on (λ s. s.parts) (pointwise nat_eq)) };

    ghost laws = { Prim.search (comparing, rules) };

    fn eq(&self, other: &Sid) -> bool {
        self.authority == other.authority && self.parts.as_slice() == other.parts.as_slice()
    }
}

impl Eq for Sid {
    ghost use Rattle.std.specs.Cmp.Rules.{comparing};
    ghost use Rattle.std.proofs.Common.{rules};

    ghost laws = { Prim.search (comparing, rules) };
}

// What a SID states before its parts.
#[derive(Clone, Copy)]
struct SidHead {
    // How many parts follow.
    count: u8,
    authority: u64,
}

// Returns the number of the six octets at `place`, the highest first.
#[tactic(auto, unfolding(crate::specs::Numbers::be48_at))]
fn u48_be(bytes: &[u8], place: usize) -> u64
    requires { place + 6 ≤ length bytes.now }
    ensures { result ≡ be48_at place bytes.now }
{
    BigEndian::read_u48(&bytes[place..])
}

// Reads the octets of a SID before its parts.
#[tactic(auto, unfolding(crate::specs::Sids::sid_head_at))]
fn sid_head_at(bytes: &[u8], place: usize) -> Found<SidHead>
    ensures { result ≡ sid_head_at place bytes.now }
{
    if bytes.len().saturating_sub(place) < SID_HEAD_SIZE {
        return Err(PacFault::Short);
    }
    let count = bytes[place + 1];
    if bytes[place] != 1 || count > PARTS_LIMIT {
        return Err(PacFault::Sid);
    }
    let authority = u48_be(bytes, place + 2);
    Ok((SidHead { count, authority }, place + SID_HEAD_SIZE))
}

// Reads the parts of a SID at `place`.
#[tactic(auto, unfolding(crate::specs::Sids::sid_with))]
fn sid_with(alloc: Global, bytes: &[u8], place: usize, head: SidHead) -> Found<Sid>
    ensures { Gives (λ found. found) result (sid_with head place bytes.now) }
{
    let (parts, end) = read_list(alloc, bytes, place, head.count as usize)?;
    Ok((
        Sid {
            authority: head.authority,
            parts,
        },
        end,
    ))
}

// Reads the SID at `place`.
#[tactic(auto, unfolding(crate::specs::Sids::sid_at))]
fn sid_at(alloc: Global, bytes: &[u8], place: usize) -> Found<Sid>
    ensures { Gives (λ found. found) result (sid_at place bytes.now) }
{
    let (head, begin) = sid_head_at(bytes, place)?;
    sid_with(alloc, bytes, begin, head)
}

/// Reads the SID that these octets are.
#[tactic(auto, unfolding(crate::specs::Sids::sid_of_all))]
pub(crate) fn sid_of_all(alloc: Global, bytes: &[u8]) -> Result<Sid, PacFault>
    ensures { Gives (λ sid. sid) result (sid_of_all bytes.now) }
{
    let (sid, end) = sid_at(alloc, bytes, 0)?;
    if end != bytes.len() {
        return Err(PacFault::Trailing);
    }
    Ok(sid)
}

/// Reads the RPC_SID at `place`: the count of its parts, and the SID, which has as many.
#[tactic(auto, unfolding(crate::specs::Sids::rpc_sid_at))]
pub(crate) fn rpc_sid_at(alloc: Global, bytes: &[u8], place: usize) -> Found<Sid>
    ensures { Gives (λ found. found) result (rpc_sid_at place bytes.now) }
{
    let (count, at_head) = u32_at(bytes, place)?;
    let (head, begin) = sid_head_at(bytes, at_head)?;
    if u32::from(head.count) != count {
        return Err(PacFault::Count);
    }
    sid_with(alloc, bytes, begin, head)
}

/// Reads the RPC_SID at `place` of the pointer at `pointer`, which isn't null.
#[tactic(auto, unfolding(crate::specs::Sids::set_sid_at))]
pub(crate) fn set_sid_at(alloc: Global, bytes: &[u8], pointer: usize, place: usize) -> Found<Sid>
    requires { pointer + 4 ≤ length bytes.now }
    ensures { Gives (λ found. found) result (set_sid_at pointer place bytes.now) }
{
    if u32_le(bytes, pointer) == 0 {
        return Err(PacFault::Null);
    }
    rpc_sid_at(alloc, bytes, place)
}

/// Reads the RPC_SID at `place` of the pointer at `pointer`. A null pointer has none.
#[tactic(auto, unfolding(crate::specs::Sids::optional_sid_at))]
pub(crate) fn optional_sid_at(
    alloc: Global,
    bytes: &[u8],
    pointer: usize,
    place: usize,
) -> Found<Option<Sid>>
    requires { pointer + 4 ≤ length bytes.now }
    ensures { Gives (λ found. found) result (optional_sid_at pointer place bytes.now) }
{
    if u32_le(bytes, pointer) == 0 {
        return Ok((None, place));
    }
    let (sid, end) = rpc_sid_at(alloc, bytes, place)?;
    Ok((Some(sid), end))
}
