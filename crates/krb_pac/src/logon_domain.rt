//! The domain of an account (MS-PAC, section 2.5).
ghost use Rattle.std.specs.Prelude.{◌+◌, ◌≤◌, length};
ghost use Rattle.krb_pac.specs.Reading.{Gives};
ghost use Rattle.krb_pac.specs.LogonInfo.{domain_at};

use crate::error::Found;
use crate::ndr::text_at;
use crate::sid::{Sid, set_sid_at};
use std::alloc::Global;
use std::marker::Model;

/// The domain of the account, and the server that made the PAC. A contract sees the characters of their names.
#[derive(Debug, Drop)]
pub struct LogonDomain {
    /// LogonServer, in UTF-16.
    pub server: Vec<u16>,
    /// LogonDomainName, in UTF-16.
    pub name: Vec<u16>,
    /// LogonDomainId: the SID of the domain.
    pub sid: Sid,
}

impl Model for LogonDomain {
    ghost use Rattle.krb_pac.specs.LogonInfo.{Domain};

    ghost Value = { Domain };

    ghost view = { λ d. record { server = d.server.items; name = d.name.items; sid = d.sid } };
}

/// Reads the names and the SID at `place`, one behind the other. `fixed` is the place of the fixed part.
#[tactic(auto, unfolding(crate::specs::LogonInfo::domain_at))]
pub(crate) fn domain_at(
    alloc: Global,
    bytes: &[u8],
    fixed: usize,
    place: usize,
) -> Found<LogonDomain>
    requires { fixed + 216 ≤ length bytes.now }
    ensures { Gives (λ found. found) result (domain_at fixed place bytes.now) }
{
    let (server, at_name) = text_at(alloc, bytes, fixed + 136, place)?;
    let (name, at_sid) = text_at(alloc, bytes, fixed + 144, at_name)?;
    let (sid, end) = set_sid_at(alloc, bytes, fixed + 152, at_sid)?;
    Ok((LogonDomain { server, name, sid }, end))
}
