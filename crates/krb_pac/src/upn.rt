//! UPN_DNS_INFO (MS-PAC, section 2.10). A field is two numbers: how many octets it has, and their place in the buffer.
ghost use Rattle.std.specs.Prelude.{◌≡◌, ◌+◌, ◌≤◌, length, Ok, Err, MatchResult};
ghost use Rattle.krb_pac.specs.Reading.{Gives};
ghost use Rattle.krb_pac.specs.Upn.{field_at, text_of_all, upn_text_at, account_at, account_of, upn_dns_info};

use crate::error::PacFault;
use crate::ndr::{read_list, u16_le};
use crate::sid::{Sid, sid_of_all};
use byte_streams::u32_le;
use std::alloc::Global;
use std::marker::Model;

/// The octets of the fixed part where the flag of a SAM name isn't set.
const SHORT_SIZE: usize = 12;

/// The octets of the fixed part where it is set.
const LONG_SIZE: usize = 20;

/// The client's account.
#[derive(Debug, Drop)]
pub struct UpnAccount {
    /// SamName: the name of the account, in UTF-16.
    pub sam_name: Vec<u16>,
    /// The account's SID.
    pub sid: Sid,
}

impl Model for UpnAccount {
    ghost use Rattle.krb_pac.specs.Upn.{SamAccount};

    ghost Value = { SamAccount };

    ghost view = { λ a. record { sam_name = a.sam_name.items; sid = a.sid } };
}

/// The client's names.
#[derive(Debug, Drop)]
pub struct UpnDnsInfo {
    /// The user principal name, in UTF-16.
    pub upn: Vec<u16>,
    /// The name of the client's domain in DNS, in UTF-16.
    pub dns_domain_name: Vec<u16>,
    /// 1: the account has no user principal name of its own. 2: the account's name and SID are there.
    pub flags: u32,
    /// The account, where flag 2 is set.
    pub account: Option<UpnAccount>,
}

impl Model for UpnDnsInfo {
    ghost use Rattle.krb_pac.specs.Upn.{UpnNames};

    ghost Value = { UpnNames };

    ghost view = { λ u. record {
      upn = u.upn.items;
      dns_domain_name = u.dns_domain_name.items;
      flags = u.flags;
      account = u.account;
    } };
}

// Returns the octets of which a length and an offset are at `place`.
#[tactic(auto, unfolding(crate::specs::Upn::field_at))]
fn field_at(bytes: &[u8], place: usize) -> Result<&[u8], PacFault>
    requires { place + 4 ≤ length bytes.now }
    ensures { MatchResult result (λ field. field_at place bytes.now ≡ Ok field.now) (λ e. field_at place bytes.now ≡ Err e) }
{
    let size = u16_le(bytes, place) as usize;
    let offset = u16_le(bytes, place + 2) as usize;
    if bytes.len() < offset + size {
        return Err(PacFault::Short);
    }
    Ok(&bytes[offset..offset + size])
}

/// Reads the UTF-16 text that these octets are.
#[tactic(auto, unfolding(crate::specs::Upn::text_of_all))]
pub(crate) fn text_of_all(alloc: Global, bytes: &[u8]) -> Result<Vec<u16>, PacFault>
    ensures { Gives (λ text. text.items) result (text_of_all bytes.now) }
{
    if bytes.len() % 2 != 0 {
        return Err(PacFault::Lengths);
    }
    let (text, _end) = read_list(alloc, bytes, 0, bytes.len() / 2)?;
    Ok(text)
}

// Reads the text of which a length and an offset are at `place`.
#[tactic(auto, unfolding(crate::specs::Upn::upn_text_at))]
fn upn_text_at(alloc: Global, bytes: &[u8], place: usize) -> Result<Vec<u16>, PacFault>
    requires { place + 4 ≤ length bytes.now }
    ensures { Gives (λ text. text.items) result (upn_text_at place bytes.now) }
{
    let field = field_at(bytes, place)?;
    text_of_all(alloc, field)
}

// Reads the account.
#[tactic(auto, unfolding(crate::specs::Upn::account_at))]
fn account_at(alloc: Global, bytes: &[u8]) -> Result<UpnAccount, PacFault>
    ensures { Gives (λ account. account) result (account_at bytes.now) }
{
    if bytes.len() < LONG_SIZE {
        return Err(PacFault::Short);
    }
    let sam_name = upn_text_at(alloc, bytes, 12)?;
    let field = field_at(bytes, 16)?;
    let sid = sid_of_all(alloc, field)?;
    Ok(UpnAccount { sam_name, sid })
}

// Reads the account, where these flags state that it is there.
#[tactic(auto, unfolding(crate::specs::Upn::account_of))]
fn account_of(alloc: Global, bytes: &[u8], flags: u32) -> Result<Option<UpnAccount>, PacFault>
    ensures { Gives (λ account. account) result (account_of flags bytes.now) }
{
    if flags / 2 % 2 == 0 {
        return Ok(None);
    }
    let account = account_at(alloc, bytes)?;
    Ok(Some(account))
}

impl UpnDnsInfo {
    /// Reads the buffer's content. Octets that are of no field have any value.
    #[tactic(auto, unfolding(crate::specs::Upn::upn_dns_info))]
    pub fn read(alloc: Global, bytes: &[u8]) -> Result<UpnDnsInfo, PacFault>
        ensures { Gives (λ info. info) result (upn_dns_info bytes.now) }
    {
        if bytes.len() < SHORT_SIZE {
            return Err(PacFault::Short);
        }
        let flags = u32_le(bytes, 8);
        let upn = upn_text_at(alloc, bytes, 0)?;
        let dns_domain_name = upn_text_at(alloc, bytes, 4)?;
        let account = account_of(alloc, bytes, flags)?;
        Ok(UpnDnsInfo {
            upn,
            dns_domain_name,
            flags,
            account,
        })
    }
}
