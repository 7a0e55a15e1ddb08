//! PAC_REQUESTOR (MS-PAC, section 2.15).
ghost use Rattle.krb_pac.specs.Reading.{Gives};
ghost use Rattle.krb_pac.specs.Sids.{sid_of_all};

use crate::error::PacFault;
use crate::sid::{Sid, sid_of_all};
use std::alloc::Global;

/// The account that asked for the ticket.
#[derive(Debug, Drop)]
pub struct PacRequestor {
    /// The account's SID.
    pub sid: Sid,
}

impl PacRequestor {
    /// Reads the buffer's content.
    pub fn read(alloc: Global, bytes: &[u8]) -> Result<PacRequestor, PacFault>
        ensures { Gives (λ requestor. requestor.sid) result (sid_of_all bytes.now) }
    {
        let sid = sid_of_all(alloc, bytes)?;
        Ok(PacRequestor { sid })
    }
}
