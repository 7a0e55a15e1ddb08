//! What judges requests by certificate, given for a request that was read.
ghost use Rattle.std.specs.Prelude.{MatchResult};
ghost use Rattle.krb_messages.specs.declared.messages.kdc_req.KdcReq.{KdcReq};
ghost use Rattle.krb_kdc.specs.Faults.{MayFail};
ghost use Rattle.krb_kdc.specs.Sources.{IsByCertificate};
ghost use Rattle.krb_kdc.specs.declared.fault.LookupFault.{LookupFault};

use crate::fault::LookupFault;
use krb_kdc_exchanges::Pkinit;
use krb_messages::messages::KdcReq;
use std::alloc::Global;

/// What judges requests by certificate, given for an AS request once that was read (RFC 4556, section 3.2.2). So certificates and keys need
/// only be there for a request that comes with PA-PK-AS-REQ.
pub trait PkinitSource {
    /// What is given.
    type Given: Pkinit + Drop;

    // Whether this may be given for a request.
    ghost gives: { Self → KdcReq → Self.Given → Type 0 };

    // Whether it may be that by this fault nothing is given for a request by certificate.
    ghost may_fail: { Self → LookupFault → Type 0 };

    /// What judges this request, if it is by certificate. It refuses such a request as `Damaged` or `Failed` if there is nothing to judge it
    /// by, and any as `Memory` if memory runs out.
    fn pkinit_for(&self, alloc: Global, request: &KdcReq) -> Result<Self::Given, LookupFault>
        ensures { MatchResult result (gives self.now request.now) (MayFail (λ fault. IsByCertificate request.now × may_fail self.now fault)) };
}
