//! One way to judge all requests by certificate.
use crate::fault::LookupFault;
use crate::pkinit_source::PkinitSource;
use krb_kdc_exchanges::{Agreed, Pkinit, PkinitCall};
use krb_messages::Refusal;
use krb_messages::messages::KdcReq;
use std::alloc::Global;

// One way to judge all requests by certificate, whatever request was read.
#[derive(Clone, Copy)]
pub(crate) struct Always<'a, P: Pkinit> {
    pub(crate) pkinit: &'a P,
}

impl<'a, P: Pkinit> Pkinit for Always<'a, P> {
    ghost rows = { λ own. P.rows own.pkinit.now };

    fn is_offered(&self) -> bool {
        self.pkinit.is_offered()
    }

    fn judge(
        &self,
        alloc: Global,
        call: &PkinitCall<'_>,
        padata: &[u8],
    ) -> Result<Agreed, Refusal> {
        self.pkinit.judge(alloc, call, padata)
    }
}

impl<'a, P: Pkinit> PkinitSource for Always<'a, P> {
    ghost use Rattle.std.specs.Prelude.{◌≡◌};

    type Given = Always<'a, P>;

    ghost gives = { λ own _ given. given ≡ own };

    ghost may_fail = { λ _ _. ⊥ };

    fn pkinit_for(&self, _alloc: Global, _request: &KdcReq) -> Result<Always<'a, P>, LookupFault> {
        Ok(Always {
            pkinit: self.pkinit,
        })
    }
}
